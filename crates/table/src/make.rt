ghost use Rattle.std.specs.Prelude.{◌≡◌, ℕ, ◌<◌, ◌≤◌, [], ◌∷◌, length, take, pos, IfOk};
ghost use Rattle.lengths.specs.Gaps.{parts_of};
ghost use Rattle.ledger.specs.Naturals.{wide_of, fault_in};
ghost use Rattle.rows.specs.Good.{room_in};
ghost use Rattle.ledger.specs.declared.records.Owed.{Owed};
ghost use Rattle.templates.specs.Readings.{read_in, empty_with};
ghost use Rattle.templates.specs.Kept.{Widths, WidthsIn};
ghost use Rattle.table.specs.Made.{MadeFrom};
ghost use Rattle.table.specs.Making.{no_gap, lines_kept, start_of, read_with, bytes_read, templates_made, gaps_made, text_made, Lying, Shaped, KeptFrom};
ghost use Rattle.table.specs.Views.{templates_in};

use crate::table::Table;
use extent::Extent;
use faults::{Cause, Fault};
use lengths::gap::Gap;
use measure::Measurer;
use rows::preamble::Preamble;
use rows::rows::Rows;
use rows::state::Memory;
use templates::memory::{Read, Templates, empty_column};
use templates::read::read_preamble;

/// The starting gap as a host gives it, in numbers: what is out of its range is refused by `make`.
#[derive(Clone, Copy, PartialEq, Eq, Debug)]
pub struct Start {
    pub natural: i64,
    pub stretch: i64,
    pub order: i64,
}

// What was read, in the lent memory and the text.
fn view<'p, E: Copy>(read: Read, templates: &'p Templates<E>, text: &'p [u8]) -> Preamble<'p, E>
    requires lying { Lying text.now templates.now read }
    ensures start { result.start ≡ templates.now.start }
    ensures columns { result.columns.now ≡ take read.columns templates.now.columns }
    ensures pieces { result.pieces.now ≡ take read.pieces templates.now.pieces }
    ensures text { result.text.now ≡ take read.bytes text.now }
    ensures sizes { (length result.columns.now ≡ read.columns) × (length result.pieces.now ≡ read.pieces) }
{
    let columns = &templates.columns[..];
    Preamble {
        start: templates.start,
        columns: &columns[0..read.columns],
        pieces: &templates.pieces[0..read.pieces],
        text: &text[0..read.bytes],
    }
}

// What stands for a preamble that is refused: one column with an empty template, and no gaps.
fn blank<E: Extent>(templates: &mut Templates<E>) -> Read
    ensures answer { result ≡ record { columns = 1; pieces = 0; bytes = 0 } }
    ensures column { (w : Owed E) × ((take 1 templates.new.columns ≡ empty_with 0 w templates.new.start ∷ []) × ((k : ℕ) → k < E.count → (E.num w.u k ≡ pos 0) × (E.num w.v k ≡ pos 0))) }
    ensures gap { parts_of templates.new.start ≡ no_gap }
{
    let gap = Gap::none();
    templates.start = gap;
    templates.columns[0] = empty_column(0, gap);
    Read {
        columns: 1,
        pieces: 0,
        bytes: 0,
    }
}

// How many lines there is room for: none where the preamble is refused.
fn lines_kept(made: Result<usize, Fault>, lines: usize) -> usize
    ensures is { result ≡ lines_kept made lines }
    ensures within { result ≤ lines }
{
    made.map_or(0, |_| lines)
}

// Reads the preamble behind the starting gap, which is tested first.
fn read_at<M: Measurer>(
    measurer: &M,
    start: Start,
    text: &[u8],
    templates: &mut Templates<M::Extent>,
) -> Result<Read, Fault>
    ensures answer { read_in text.now templates.new result ≡ (read_with M.Measurer measurer.now text.now start) }
    ensures kept { KeptFrom text.now (start_of start) templates.new result }
    ensures widths { WidthsIn M.Extent.Extent.count M.Extent.Extent.num (wide_of M.Measurer M.Extent.Extent measurer.now) text.now templates.new result }
{
    let gap = Gap::new(start.natural, start.stretch, start.order).ok_or(Cause::OutOfRange.at(0))?;
    read_preamble(measurer, gap, text, templates)
}

// What the table is made of, and the answer: beside one another, since `make` cannot fail. Two values of one reading, which
// are taken apart at once.
#[derive(Clone, Copy)]
struct Prepared {
    read: Read,
    made: Result<usize, Fault>,
}

fn prepare<M: Measurer>(
    measurer: &M,
    start: Start,
    text: &[u8],
    templates: &mut Templates<M::Extent>,
) -> Prepared
    ensures made { result.made ≡ bytes_read (read_with M.Measurer measurer.now text.now start) }
    ensures shaped { Shaped text.now templates.new result.read (templates_made (read_with M.Measurer measurer.now text.now start)) (gaps_made (start_of start) (read_with M.Measurer measurer.now text.now start)) }
    ensures widths { Widths M.Extent.Extent.count M.Extent.Extent.num (wide_of M.Measurer M.Extent.Extent measurer.now) text.now templates.new result.read }
    ensures text { take result.read.bytes text.now ≡ text_made text.now (read_with M.Measurer measurer.now text.now start) }
{
    match read_at(measurer, start, text, templates) {
        Ok(read) => Prepared {
            read,
            made: Ok(read.bytes),
        },
        Err(fault) => Prepared {
            read: blank(templates),
            made: Err(fault),
        },
    }
}

impl<'a, 'p, 'm, M: Measurer> Table<'a, 'p, 'm, M> {
    /// A table with the preamble at the start of a text. Where that is refused, `made` says so, and the table takes no line.
    pub fn make(
        measurer: &'m M,
        memory: Memory<'a, M::Extent>,
        templates: &'p mut Templates<M::Extent>,
        start: Start,
        text: &'p [u8],
    ) -> Table<'a, 'p, 'm, M>
        ensures { MadeFrom (read_with M.Measurer measurer.now text.now start) text.now (start_of start) (room_in memory.entry) measurer.entry result }
    {
        let Prepared { read, made } = prepare(measurer, start, text, templates);
        let Memory {
            items,
            entries,
            lines,
            text: bytes,
        } = memory;
        let kept = lines_kept(made, lines.len());
        let memory = Memory {
            items,
            entries,
            lines: &mut lines[0..kept],
            text: bytes,
        };
        let preamble = view(read, templates, text);
        Table {
            rows: Rows::new(memory, preamble, M::Extent::zero()),
            measurer,
            made,
        }
    }

    /// The same as `make`, or why the preamble is refused.
    pub fn try_make(
        measurer: &'m M,
        memory: Memory<'a, M::Extent>,
        templates: &'p mut Templates<M::Extent>,
        start: Start,
        text: &'p [u8],
    ) -> Result<Table<'a, 'p, 'm, M>, Fault>
        ensures answer { fault_in result ≡ fault_in (read_with M.Measurer measurer.now text.now start) }
        ensures table { IfOk result (MadeFrom (read_with M.Measurer measurer.now text.now start) text.now (start_of start) (room_in memory.entry) measurer.entry) }
    {
        let table = Table::make(measurer, memory, templates, start, text);
        table.made?;
        Ok(table)
    }

    /// How many bytes the preamble has, or why it was refused.
    pub fn made(&self) -> Result<usize, Fault>
        ensures { result ≡ self.now.made }
    {
        self.made
    }

    /// How many columns there are.
    pub fn columns(&self) -> usize
        ensures { result ≡ length (templates_in self.now) }
    {
        self.rows.preamble.count()
    }
}
