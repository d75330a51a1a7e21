//! The row calls, without the items that are put.
ghost use Rattle.std.specs.Prelude.{◌≡◌, ℕ, ◌≤◌, [], ℤ, Ok};
ghost use Rattle.ledger.specs.Ledger.{Item};
ghost use Rattle.ledger.specs.Naturals.{start_verdict};
ghost use Rattle.ledger.specs.Calls.{closed_up, take_verdict, omit_verdict, lay_verdict, tab_verdict, span_verdict, next_verdict, rule_verdict, opened, omits, on_open, lays, tabs, carries, gives_up, ruled_by, starts};
ghost use Rattle.rows.specs.Held.{rowed, line_of};
ghost use Rattle.rows.specs.Good.{Goes};
ghost use Rattle.rows.specs.Answers.{unless, followed};
ghost use Rattle.rows.specs.Views.{templates_at, room_at, ledger_at, in_hand, SoundAt, Stays, StaysSound};

use crate::rows::Rows;
use crate::state::{Cell, LineRecord, Row, Stage};
use extent::Extent;
use faults::{Cause, Fault};
use ledger::records::Room;
use ledger::sums::outside;

impl<'a, 'p, E: Extent> Rows<'a, 'p, E> {
    /// Opens a row.
    pub fn take(&mut self) -> Result<(), Fault>
        ensures answer { result ≡ unless (take_verdict (templates_at self.old) (room_at self.old) (ledger_at self.old)) tt }
        ensures ledger { ledger_at self.new ≡ followed result (ledger_at self.old) (opened (ledger_at self.old)) }
        ensures sound { StaysSound E.count E.num self.old self.new }
        ensures stays { Stays self.old self.new }
    {
        let state = self.draft.state;
        state.check_closed()?;
        let template = self.column(0).template;
        self.draft.memory.check_room(Room {
            items: state.laid.items + (template.u + template.v),
            entries: state.laid.entries + 1,
            lines: state.lines + 1,
            text: state.laid.text,
        })?;
        self.draft.go_back();
        self.draft.state.row = Row {
            column: 0,
            first: 0,
            begin: self.draft.state.marks.items,
            width: E::zero(),
        };
        self.draft.state.stage = Stage::Fresh;
        Ok(())
    }

    /// Begins a cell without its template.
    pub fn omit(&mut self, column: usize) -> Result<(), Fault>
        ensures answer { result ≡ unless (omit_verdict (ledger_at self.old) column) tt }
        ensures ledger { ledger_at self.new ≡ followed result (ledger_at self.old) (on_open (omits (ledger_at self.old)) (ledger_at self.old) (ledger_at self.old).hand) }
        ensures sound { StaysSound E.count E.num self.old self.new }
        ensures stays { Stays self.old self.new }
    {
        self.draft.state.check_cell(Cell::Fresh(column))?;
        self.draft.state.stage = Stage::Omitted;
        Ok(())
    }

    /// Begins a cell with its template's u.
    pub fn start(&mut self, column: usize) -> Result<(), Fault>
        ensures answer { (wide : Item → ℕ → ℤ) → SoundAt E.count E.num wide self.old → result ≡ unless (start_verdict E.count wide (templates_at self.old) (ledger_at self.old) column) tt }
        ensures ledger { ledger_at self.new ≡ followed result (ledger_at self.old) (on_open (starts (templates_at self.old) (ledger_at self.old)) (ledger_at self.old) (ledger_at self.old).hand) }
        ensures sound { StaysSound E.count E.num self.old self.new }
        ensures stays { Stays self.old self.new }
    {
        let state = self.draft.state;
        state.check_cell(Cell::Fresh(column))?;
        let row = state.row;
        let here = self.column(row.column);
        let widths = here.widths;
        let sum = row.width.sum(widths.u);
        if outside(sum.sum(widths.v)) {
            return Err(Cause::EntryTooWide.at(0));
        }
        let template = here.template;
        let end = template.from + template.u;
        self.draft
            .add_part(&self.preamble.pieces[template.from..end]);
        self.draft.state.row.width = sum;
        self.draft.state.stage = Stage::Begun;
        Ok(())
    }

    /// Whether a begun cell may go on to the next column, with so many entries more.
    fn check_next(&self, column: usize, more: usize) -> Result<(), Fault>
        requires { more ≤ 1 }
        ensures answer { result ≡ unless (next_verdict more (templates_at self.now) (room_at self.now) (ledger_at self.now) column) tt }
        ensures goes { result ≡ Ok tt → Goes more self.now.draft.state self.now.draft.memory self.now.preamble column }
    {
        let state = self.draft.state;
        state.check_cell(Cell::Begun(column))?;
        let next = state.row.column + 1;
        if next >= self.preamble.count() {
            return Err(Cause::TooManyColumns.at(0));
        }
        let there = self.column(next).template;
        let owed = state.stage.owed(self.column(state.row.column).template);
        self.draft.memory.check_room(Room {
            items: state.marks.items + owed + (there.u + there.v),
            entries: state.marks.entries + 1 + more,
            lines: state.lines + 1,
            text: state.marks.text,
        })
    }

    /// Goes on to the next column with a new entry.
    pub fn tab(&mut self, column: usize) -> Result<(), Fault>
        ensures answer { result ≡ unless (tab_verdict (templates_at self.old) (room_at self.old) (ledger_at self.old) column) tt }
        ensures ledger { ledger_at self.new ≡ followed result (ledger_at self.old) (on_open (tabs (templates_at self.old) (ledger_at self.old)) (ledger_at self.old) (ledger_at self.old).hand) }
        ensures sound { StaysSound E.count E.num self.old self.new }
        ensures stays { Stays self.old self.new }
    {
        self.check_next(column, 1)?;
        let next = self.draft.state.row.column + 1;
        self.draft.finish(&self.preamble);
        self.draft.state.row = Row {
            column: next,
            first: next,
            begin: self.draft.state.marks.items,
            width: E::zero(),
        };
        self.draft.state.stage = Stage::Fresh;
        Ok(())
    }

    /// Goes on to the next column with the same entry.
    pub fn span(&mut self, column: usize) -> Result<(), Fault>
        ensures answer { result ≡ unless (span_verdict (templates_at self.old) (room_at self.old) (ledger_at self.old) column) tt }
        ensures ledger { ledger_at self.new ≡ followed result (ledger_at self.old) (on_open (carries (templates_at self.old) (ledger_at self.old)) (ledger_at self.old) (ledger_at self.old).hand) }
        ensures sound { StaysSound E.count E.num self.old self.new }
        ensures stays { Stays self.old self.new }
    {
        self.check_next(column, 0)?;
        let next = self.draft.state.row.column + 1;
        self.draft.add_v(&self.preamble);
        self.draft.state.row.column = next;
        self.draft.state.stage = Stage::Fresh;
        Ok(())
    }

    /// Lays the row.
    pub fn lay(&mut self, column: usize) -> Result<(), Fault>
        ensures answer { result ≡ unless (lay_verdict (ledger_at self.old) column) tt }
        ensures ledger { ledger_at self.new ≡ followed result (ledger_at self.old) (on_open (lays (templates_at self.old) (ledger_at self.old)) (ledger_at self.old) (ledger_at self.old).hand) }
        ensures sound { StaysSound E.count E.num self.old self.new }
        ensures stays { Stays self.old self.new }
    {
        self.draft.state.check_cell(Cell::Begun(column))?;
        self.draft.finish(&self.preamble);
        self.draft.end_row();
        self.draft.state.stage = Stage::Closed;
        Ok(())
    }

    /// Adds a line without entries.
    // Any line that takes no entries: an enum of rule and gap would ask more than this.
    pub fn rule(&mut self, line: LineRecord) -> Result<(), Fault>
        requires { rowed line ≡ 0 }
        ensures answer { result ≡ unless (rule_verdict (templates_at self.old) (room_at self.old) (ledger_at self.old)) tt }
        ensures ledger { ledger_at self.new ≡ followed result (ledger_at self.old) (ruled_by (line_of line []) (ledger_at self.old)) }
        ensures sound { StaysSound E.count E.num self.old self.new }
        ensures stays { Stays self.old self.new }
    {
        self.check_rule()?;
        self.draft.add_bare(line);
        Ok(())
    }

    /// Back to what is laid, with no row in hand.
    pub fn close(&mut self)
        ensures ledger { ledger_at self.new ≡ closed_up (ledger_at self.old) }
        ensures sound { StaysSound E.count E.num self.old self.new }
        ensures stays { Stays self.old self.new }
    {
        self.draft.go_back();
        self.draft.state.stage = Stage::Closed;
    }

    /// Gives the row up if its cell is this one.
    pub fn give_up(&mut self, cell: Cell)
        ensures ledger { ledger_at self.new ≡ gives_up (in_hand cell (ledger_at self.old).hand) (ledger_at self.old) }
        ensures sound { StaysSound E.count E.num self.old self.new }
        ensures stays { Stays self.old self.new }
    {
        if self.draft.state.holds(cell) {
            self.close();
        }
    }
}
