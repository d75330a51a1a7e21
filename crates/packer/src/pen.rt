//! Boxes, written one behind the other.
ghost use Rattle.std.specs.Prelude.{◌≡◌, [], ◌∷◌};
ghost use Rattle.packer.specs.Views.{HasRoom, Drawn};

use boxlist::BoxRecord;

/// Box records, and the place behind those that are written.
#[derive(Drop)]
pub(crate) struct Pen<'r> {
    records: &'r mut [BoxRecord],
    next: usize,
}

impl<'r> Pen<'r> {
    /// Nothing is written yet.
    pub(crate) fn new(records: &'r mut [BoxRecord]) -> Pen<'r>
        ensures same { result.records.ghost_name ≡ records.entry.ghost_name }
        ensures held { result.records.now ≡ records.old }
        ensures front { result.next ≡ 0 }
    {
        Pen { records, next: 0 }
    }

    /// One more box.
    pub(crate) fn put(&mut self, drawn: BoxRecord)
        requires { HasRoom self.old (drawn ∷ []) }
        ensures { Drawn self.old self.new (drawn ∷ []) }
    {
        self.records[self.next] = drawn;
        self.next += 1;
    }
}
