//! While a row is read the fill marks run ahead: a guard puts them back.
ghost use Rattle.std.specs.Prelude.{◌≡◌, cond};
ghost use Rattle.ledger.specs.Calls.{closed_up};
ghost use Rattle.rows.specs.Views.{ledger_at, Stays, StaysSound};

use extent::Extent;
use rows::rows::Rows;

/// Holds rows while a line is read. Its end puts the marks back to what is laid unless the line was accepted.
pub(crate) struct Guard<'g, 'a, 'p, E: Extent> {
    pub(crate) rows: &'g mut Rows<'a, 'p, E>,
    pub(crate) accepted: bool,
}

impl<'g, 'a, 'p, E: Extent> Drop for Guard<'g, 'a, 'p, E> {
    fn drop(self)
        ensures ledger { ledger_at self.exit.0.now ≡ cond self.entry.accepted (ledger_at self.entry.rows.now) (closed_up (ledger_at self.entry.rows.now)) }
        ensures sound { StaysSound E.count E.num self.entry.rows.now self.exit.0.now }
        ensures stays { Stays self.entry.rows.now self.exit.0.now }
    {
        if !self.accepted {
            self.rows.close();
        }
        let Guard {
            rows: _,
            accepted: _,
        } = self;
    }
}
