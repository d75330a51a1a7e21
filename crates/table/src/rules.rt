ghost use Rattle.std.specs.Prelude.{◌≡◌};
ghost use Rattle.ledger.specs.Ledger.{rule, gap};
ghost use Rattle.ledger.specs.Calls.{rule_verdict, gap_verdict, gap_fits, ruled_by};
ghost use Rattle.rows.specs.Answers.{unless, followed};
ghost use Rattle.table.specs.Views.{templates_in, room_of, ledger_in, Kept};

use crate::table::Table;
use extent::Extent;
use faults::{Cause, Fault};
use measure::Measurer;
use rows::state::LineRecord;

// A gap's length is from 0 to 16,777,215. A range of literals over a definition, as `Gap::new` has one over its own.
fn gap_fits(sp: i64) -> bool
    ensures { result ≡ gap_fits sp }
{
    (0..=16_777_215).contains(&sp)
}

impl<'a, 'p, 'm, M: Measurer> Table<'a, 'p, 'm, M> {
    /// Adds a ruled line.
    pub fn rule(&mut self) -> Result<(), Fault>
        ensures answer { result ≡ unless (rule_verdict (templates_in self.old) (room_of self.old) (ledger_in self.old)) tt }
        ensures ledger { ledger_in self.new ≡ followed result (ledger_in self.old) (ruled_by rule (ledger_in self.old)) }
        ensures kept { Kept self.old self.new }
    {
        self.rows.rule(LineRecord::Rule)
    }

    /// Adds a gap of this length.
    pub fn gap(&mut self, sp: i64) -> Result<(), Fault>
        ensures answer { result ≡ unless (gap_verdict (templates_in self.old) (room_of self.old) (ledger_in self.old) sp) tt }
        ensures ledger { ledger_in self.new ≡ followed result (ledger_in self.old) (ruled_by (gap sp) (ledger_in self.old)) }
        ensures kept { Kept self.old self.new }
    {
        self.rows.draft.state.check_closed()?;
        if !gap_fits(sp) {
            return Err(Cause::OutOfRange.at(0));
        }
        self.rows.rule(LineRecord::Gap(sp))
    }
}
