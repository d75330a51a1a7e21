//! The stages of a row's cell.
ghost use Rattle.std.specs.Prelude.{◌≡◌, ◌≤◌, not};
ghost use Rattle.ledger.specs.Calls.{when};
ghost use Rattle.ledger.specs.Refusals.{foreign_cell};
ghost use Rattle.rows.specs.Answers.{unless};
ghost use Rattle.rows.specs.Good.{open_in, fresh_in, begun_in, holding, owed};

use crate::state::{Cell, Stage, State};
use faults::{Cause, Fault};
use ledger::records::Column;

impl Stage {
    pub fn is_open(self) -> bool
        ensures { result ≡ open_in self }
    {
        self != Stage::Closed
    }

    fn is_fresh(self) -> bool
        ensures { result ≡ fresh_in self }
    {
        self == Stage::Fresh
    }

    fn is_begun(self) -> bool
        ensures { result ≡ begun_in self }
    {
        matches!(self, Stage::Begun | Stage::Omitted)
    }

    /// How many items of its template the cell is still to get.
    pub(crate) fn owed(self, template: Column) -> usize
        requires { (template.u ≤ 64) × (template.v ≤ 64) }
        ensures { result ≡ owed self template }
    {
        match self {
            Stage::Fresh => template.u + template.v,
            Stage::Begun => template.v,
            Stage::Closed | Stage::Omitted => 0,
        }
    }
}

impl<E: Copy> State<E> {
    /// Whether a cell is the one in hand.
    pub fn holds(&self, cell: Cell) -> bool
        ensures { result ≡ holding self.now.stage self.now.row.column cell }
    {
        match cell {
            Cell::Fresh(column) => self.stage.is_fresh() && self.row.column == column,
            Cell::Begun(column) => self.stage.is_begun() && self.row.column == column,
        }
    }

    /// Refused where a cell is not the one in hand.
    pub fn check_cell(&self, cell: Cell) -> Result<(), Fault>
        ensures { result ≡ unless (when (not (holding self.now.stage self.now.row.column cell)) foreign_cell) tt }
    {
        if self.holds(cell) {
            Ok(())
        } else {
            Err(Cause::RowInHand.at(0))
        }
    }

    /// Refused where a row is in hand.
    pub fn check_closed(&self) -> Result<(), Fault>
        ensures { result ≡ unless (when (open_in self.now.stage) foreign_cell) tt }
    {
        if self.stage.is_open() {
            Err(Cause::RowInHand.at(0))
        } else {
            Ok(())
        }
    }
}
