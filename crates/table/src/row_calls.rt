ghost use Rattle.std.specs.Prelude.{◌≡◌, ◌+◌};
ghost use Rattle.ledger.specs.Calls.{take_verdict, omit_verdict, lay_verdict, tab_verdict, span_verdict, opened, omits, starts, tabs, carries, lays, on_open, gives_up};
ghost use Rattle.ledger.specs.Naturals.{start_verdict};
ghost use Rattle.rows.specs.Answers.{unless, followed};
ghost use Rattle.rows.specs.Views.{in_hand};
ghost use Rattle.table.specs.Promises.{handing, fresh_cell, begun_cell, place_of};
ghost use Rattle.table.specs.Views.{templates_in, room_of, ledger_in, wide_in, Kept};

use crate::cells::{Begun, Fresh, InHand, Refusal, handed};
use crate::table::Table;
use extent::Extent;
use faults::Fault;
use measure::Measurer;

impl<'a, 'p, 'm, M: Measurer> Table<'a, 'p, 'm, M> {
    /// Opens a row: a fresh cell in the first column.
    pub fn take(&mut self) -> Result<Fresh, Fault>
        ensures answer { result ≡ unless (take_verdict (templates_in self.old) (room_of self.old) (ledger_in self.old)) (fresh_cell 0) }
        ensures ledger { ledger_in self.new ≡ followed result (ledger_in self.old) (opened (ledger_in self.old)) }
        ensures kept { Kept self.old self.new }
    {
        self.rows.take()?;
        Ok(Fresh { column: 0 })
    }

    /// Begins the cell without its template.
    pub fn omit(&mut self, cell: Fresh) -> Result<Begun, Refusal<Fresh>>
        ensures answer { result ≡ handing cell (omit_verdict (ledger_in self.old) cell.column) (begun_cell cell.column) }
        ensures ledger { ledger_in self.new ≡ followed result (ledger_in self.old) (on_open (omits (ledger_in self.old)) (ledger_in self.old) (ledger_in self.old).hand) }
        ensures kept { Kept self.old self.new }
    {
        handed(self.rows.omit(cell.column), cell, Fresh::begun)
    }

    /// Begins the cell with its template's u part.
    pub fn start(&mut self, cell: Fresh) -> Result<Begun, Refusal<Fresh>>
        ensures answer { result ≡ handing cell (start_verdict M.Extent.Extent.count (wide_in self.old) (templates_in self.old) (ledger_in self.old) cell.column) (begun_cell cell.column) }
        ensures ledger { ledger_in self.new ≡ followed result (ledger_in self.old) (on_open (starts (templates_in self.old) (ledger_in self.old)) (ledger_in self.old) (ledger_in self.old).hand) }
        ensures kept { Kept self.old self.new }
    {
        handed(self.rows.start(cell.column), cell, Fresh::begun)
    }

    /// Ends the entry and begins the next one, in the next column.
    pub fn tab(&mut self, cell: Begun) -> Result<Fresh, Refusal<Begun>>
        ensures answer { result ≡ handing cell (tab_verdict (templates_in self.old) (room_of self.old) (ledger_in self.old) cell.column) (fresh_cell (cell.column + 1)) }
        ensures ledger { ledger_in self.new ≡ followed result (ledger_in self.old) (on_open (tabs (templates_in self.old) (ledger_in self.old)) (ledger_in self.old) (ledger_in self.old).hand) }
        ensures kept { Kept self.old self.new }
    {
        handed(self.rows.tab(cell.column), cell, Begun::next)
    }

    /// Carries the same entry on into the next column.
    pub fn span(&mut self, cell: Begun) -> Result<Fresh, Refusal<Begun>>
        ensures answer { result ≡ handing cell (span_verdict (templates_in self.old) (room_of self.old) (ledger_in self.old) cell.column) (fresh_cell (cell.column + 1)) }
        ensures ledger { ledger_in self.new ≡ followed result (ledger_in self.old) (on_open (carries (templates_in self.old) (ledger_in self.old)) (ledger_in self.old) (ledger_in self.old).hand) }
        ensures kept { Kept self.old self.new }
    {
        handed(self.rows.span(cell.column), cell, Begun::next)
    }

    /// Ends the row, which becomes a line.
    pub fn lay(&mut self, cell: Begun) -> Result<(), Refusal<Begun>>
        ensures answer { result ≡ handing cell (lay_verdict (ledger_in self.old) cell.column) tt }
        ensures ledger { ledger_in self.new ≡ followed result (ledger_in self.old) (on_open (lays (templates_in self.old) (ledger_in self.old)) (ledger_in self.old) (ledger_in self.old).hand) }
        ensures kept { Kept self.old self.new }
    {
        handed(self.rows.lay(cell.column), cell, Begun::end)
    }

    /// Gives the row up if this is its cell; else the cell is just spent.
    pub fn give_up(&mut self, cell: InHand)
        ensures ledger { ledger_in self.new ≡ gives_up (in_hand (place_of cell) (ledger_in self.old).hand) (ledger_in self.old) }
        ensures kept { Kept self.old self.new }
    {
        self.rows.give_up(cell.place());
    }
}
