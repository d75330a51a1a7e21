//! The parts of templates that a row takes over, and the end of its entries.
ghost use Rattle.std.specs.Prelude.{◌≡◌, ℕ, ◌-◌, ◌<◌, true, [], length, ◌+ℤ◌, ◌≢◌, slice_index_or, slice_set};
ghost use Rattle.extent.specs.Sizes.{Near};
ghost use Rattle.ledger.specs.declared.records.Owed.{Owed};
ghost use Rattle.ledger.specs.Items.{decoded_items};
ghost use Rattle.rows.specs.Columns.{widths_in};
ghost use Rattle.rows.specs.Held.{pushed, closed};
ghost use Rattle.rows.specs.Good.{Acts, Good, begun_in, v_of, moved_on, Finished};

use crate::draft::Draft;
use crate::preamble::Preamble;
use crate::state::Stage;
use extent::Extent;

impl<'a, E: Extent> Draft<'a, E> {
    /// Adds what is owed of v.
    // That the cell is begun stays a clause: its callers test it, and a type for it would have to hold the `&mut`.
    pub(crate) fn add_v(&mut self, preamble: &Preamble<E>)
        requires good { Good self.old.state self.old.memory preamble.now }
        requires begun { begun_in self.old.state.stage ≡ true }
        ensures acts { Acts (λ p h. pushed h (decoded_items p (v_of preamble.now self.old.state.stage self.old.state.row.column) [])) self.old.memory.entries.now self.old self.new }
        ensures width { self.old.state.stage ≡ Stage.Begun → (d : Owed E) (k : ℕ) → k < E.count → Near (E.num self.old.state.row.width k) → Near (E.num (slice_index_or (widths_in preamble.now.columns.now) self.old.state.row.column d).v k) → E.num self.new.state.row.width k ≡ E.num self.old.state.row.width k +ℤ E.num (slice_index_or (widths_in preamble.now.columns.now) self.old.state.row.column d).v k }
        ensures still { (self.old.state.stage ≢ Stage.Begun) → self.new.state.row.width ≡ self.old.state.row.width }
        ensures marks { self.new.state.marks ≡ (moved_on self.old.state (length (v_of preamble.now self.old.state.stage self.old.state.row.column))).marks }
        ensures same { (self.new.state.lines ≡ self.old.state.lines) × (self.new.state.laid ≡ self.old.state.laid) × (self.new.state.stage ≡ self.old.state.stage) × (self.new.state.row.column ≡ self.old.state.row.column) × (self.new.state.row.first ≡ self.old.state.row.first) × (self.new.state.row.begin ≡ self.old.state.row.begin) }
    {
        if self.state.stage == Stage::Begun {
            let column = self.state.row.column;
            let here = preamble.column(column);
            let from = here.template.from + here.template.u;
            self.add_part(&preamble.pieces[from..from + here.template.v]);
            self.state.row.width = self.state.row.width.sum(here.widths.v);
        }
    }

    /// Ends the entry in hand.
    pub(crate) fn finish(&mut self, preamble: &Preamble<E>)
        requires good { Good self.old.state self.old.memory preamble.now }
        requires begun { begun_in self.old.state.stage ≡ true }
        ensures acts { Acts (λ p h. closed (pushed h (decoded_items p (v_of preamble.now self.old.state.stage self.old.state.row.column) [])) self.old.state.row.first self.old.state.row.column) (slice_set self.old.memory.entries.now self.old.state.marks.entries (record { entry = record { first = self.old.state.row.first; last = self.old.state.row.column; width = self.new.state.row.width }; count = self.new.state.marks.items - self.old.state.row.begin })) self.old self.new }
        ensures width { self.old.state.stage ≡ Stage.Begun → (d : Owed E) (k : ℕ) → k < E.count → Near (E.num self.old.state.row.width k) → Near (E.num (slice_index_or (widths_in preamble.now.columns.now) self.old.state.row.column d).v k) → E.num self.new.state.row.width k ≡ E.num self.old.state.row.width k +ℤ E.num (slice_index_or (widths_in preamble.now.columns.now) self.old.state.row.column d).v k }
        ensures still { (self.old.state.stage ≢ Stage.Begun) → self.new.state.row.width ≡ self.old.state.row.width }
        ensures numbers { Finished preamble.now self.old.state self.new.state }
    {
        self.add_v(preamble);
        let last = self.state.row.column;
        self.end_entry(last);
    }
}
