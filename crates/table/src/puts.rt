ghost use Rattle.std.specs.Prelude.{◌≡◌, true};
ghost use Rattle.lengths.specs.Gaps.{natural_fits};
ghost use Rattle.ledger.specs.Ledger.{cell_word, space, kern, hfil};
ghost use Rattle.ledger.specs.Items.{meant};
ghost use Rattle.ledger.specs.Calls.{on_open, puts};
ghost use Rattle.ledger.specs.Naturals.{add_verdict, put_verdict};
ghost use Rattle.ledger.specs.Lawful.{fine};
ghost use Rattle.rows.specs.Good.{begun_in};
ghost use Rattle.rows.specs.Answers.{unless, followed};
ghost use Rattle.table.specs.Promises.{Fitting};
ghost use Rattle.table.specs.Views.{templates_in, room_of, ledger_in, wide_in, Kept};

use crate::cells::Begun;
use crate::table::Table;
use extent::Extent;
use faults::{Cause, Fault};
use ledger::records::ItemRecord;
use measure::{Measurer, measured};
use rows::puts::Put;
use rows::state::Cell;

// A kern is within ±16,777,215. A range of literals over a definition, as `Gap::new` has one over its own.
fn kern_fits(sp: i64) -> bool
    ensures { result ≡ natural_fits sp }
{
    (-16_777_215..=16_777_215).contains(&sp)
}

impl<'a, 'p, 'm, M: Measurer> Table<'a, 'p, 'm, M> {
    // Adds a measured item to the begun cell.
    #[inline(always)]
    fn add(&mut self, put: Put<M::Extent>) -> Result<(), Fault>
        requires begun { begun_in self.old.rows.draft.state.stage ≡ true }
        requires fine { fine (M.Measurer.meaning self.old.measurer.now) (meant self.old.rows.preamble.text.now put.item put.word.now) ≡ true }
        requires fits { Fitting M.Extent.Extent.count M.Extent.Extent.num (wide_in self.old) put.width (meant self.old.rows.preamble.text.now put.item put.word.now) }
        ensures answer { result ≡ unless (add_verdict M.Extent.Extent.count (wide_in self.old) (templates_in self.old) (room_of self.old) (ledger_in self.old) (meant self.old.rows.preamble.text.now put.entry.item put.entry.word.now)) tt }
        ensures ledger { ledger_in self.new ≡ followed result (ledger_in self.old) (on_open (puts (meant self.old.rows.preamble.text.now put.entry.item put.entry.word.now) (ledger_in self.old)) (ledger_in self.old) (ledger_in self.old).hand) }
        ensures kept { Kept self.old self.new }
    {
        self.rows.add(put)
    }

    /// Puts a word into the cell.
    pub fn put_word(&mut self, cell: &Begun, word: &[u8]) -> Result<(), Fault>
        ensures answer { result ≡ unless (put_verdict M.Extent.Extent.count (wide_in self.old) (M.Measurer.meaning self.old.measurer.now) (templates_in self.old) (room_of self.old) (ledger_in self.old) cell.now.column (cell_word word.now)) tt }
        ensures ledger { ledger_in self.new ≡ followed result (ledger_in self.old) (on_open (puts (cell_word word.now) (ledger_in self.old)) (ledger_in self.old) (ledger_in self.old).hand) }
        ensures kept { Kept self.old self.new }
    {
        self.rows.draft.state.check_cell(Cell::Begun(cell.column))?;
        let metrics = measured(self.measurer, word)?;
        self.add(Put {
            item: ItemRecord::CellWord(word.len()),
            width: metrics.width,
            word,
        })
    }

    /// Puts a space into the cell.
    pub fn put_space(&mut self, cell: &Begun) -> Result<(), Fault>
        ensures answer { result ≡ unless (put_verdict M.Extent.Extent.count (wide_in self.old) (M.Measurer.meaning self.old.measurer.now) (templates_in self.old) (room_of self.old) (ledger_in self.old) cell.now.column space) tt }
        ensures ledger { ledger_in self.new ≡ followed result (ledger_in self.old) (on_open (puts space (ledger_in self.old)) (ledger_in self.old) (ledger_in self.old).hand) }
        ensures kept { Kept self.old self.new }
    {
        self.rows.draft.state.check_cell(Cell::Begun(cell.column))?;
        let width = self.measurer.space();
        self.add(Put {
            item: ItemRecord::Space,
            width,
            word: b"",
        })
    }

    /// Puts a kern into the cell.
    pub fn put_kern(&mut self, cell: &Begun, sp: i64) -> Result<(), Fault>
        ensures answer { result ≡ unless (put_verdict M.Extent.Extent.count (wide_in self.old) (M.Measurer.meaning self.old.measurer.now) (templates_in self.old) (room_of self.old) (ledger_in self.old) cell.now.column (kern sp)) tt }
        ensures ledger { ledger_in self.new ≡ followed result (ledger_in self.old) (on_open (puts (kern sp) (ledger_in self.old)) (ledger_in self.old) (ledger_in self.old).hand) }
        ensures kept { Kept self.old self.new }
    {
        self.rows.draft.state.check_cell(Cell::Begun(cell.column))?;
        if !kern_fits(sp) {
            return Err(Cause::OutOfRange.at(0));
        }
        let width = M::Extent::enter(sp);
        self.add(Put {
            item: ItemRecord::Kern(sp),
            width,
            word: b"",
        })
    }

    /// Puts a fill into the cell.
    pub fn put_hfil(&mut self, cell: &Begun) -> Result<(), Fault>
        ensures answer { result ≡ unless (put_verdict M.Extent.Extent.count (wide_in self.old) (M.Measurer.meaning self.old.measurer.now) (templates_in self.old) (room_of self.old) (ledger_in self.old) cell.now.column hfil) tt }
        ensures ledger { ledger_in self.new ≡ followed result (ledger_in self.old) (on_open (puts hfil (ledger_in self.old)) (ledger_in self.old) (ledger_in self.old).hand) }
        ensures kept { Kept self.old self.new }
    {
        self.rows.draft.state.check_cell(Cell::Begun(cell.column))?;
        let width = M::Extent::zero();
        self.add(Put {
            item: ItemRecord::Hfil,
            width,
            word: b"",
        })
    }
}
