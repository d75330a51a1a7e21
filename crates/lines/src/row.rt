//! A row, from its first token to its `\cr`.
ghost use Rattle.std.specs.Prelude.{◌≡◌, ℕ, ◌<◌, ◌≤◌, true, List, length, ℤ, Ok};
ghost use Rattle.reader.specs.Reads.{Reaches};
ghost use Rattle.ledger.specs.Ledger.{Item};
ghost use Rattle.ledger.specs.Refusals.{entry_wide};
ghost use Rattle.ledger.specs.Calls.{opened, take_verdict, when};
ghost use Rattle.ledger.specs.Naturals.{wide_of};
ghost use Rattle.rows.specs.Good.{open_in};
ghost use Rattle.rows.specs.Views.{templates_at, room_at, ledger_at, SoundAt};
ghost use Rattle.lines.specs.Lines.{act_of, crowded_act, crowded_by, first_step as first_stepped, lead_of, row_by, row_of, started, too_wide};
ghost use Rattle.lines.specs.Steps.{act_in, unmeant, Measured, Reads, Turns};

use crate::acts::{Action, Opening, Site, opening_of};
use crate::cells::{step, take_token};
use crate::steps::Step;
use extent::Extent;
use faults::{Cause, Fault};
use measure::Measurer;
use reader::tokens::Lexeme;
use rows::rows::Rows;
use std::ops::ControlFlow;

impl<E: Extent> Action<'_, E> {
    /// Whether an item is too wide for a row's first cell.
    fn exceeds(self, rows: &Rows<E>) -> bool
        ensures { (wide : Item → ℕ → ℤ) (text : List ℕ) → SoundAt E.count E.num wide rows.now → Measured E.count E.num wide self.entry
            → when result entry_wide ≡ too_wide text unmeant (templates_at rows.now) E.count wide (room_at rows.now) (started (templates_at rows.now) (opened (ledger_at rows.now))) (act_in rows.now.preamble.text.now self.entry) }
    {
        match self {
            Action::Add(put) => rows.first_exceeds(put.width),
            Action::Kern | Action::Tab | Action::Span | Action::Lay => false,
        }
    }
}

/// Where a row has no room, a first cell that is too wide goes first.
fn crowded_cell<E: Extent>(rows: &Rows<E>, place: usize, full: Fault, action: Action<E>) -> Fault
    ensures { (wide : Item → ℕ → ℤ) (text : List ℕ) → SoundAt E.count E.num wide rows.now → Measured E.count E.num wide action.entry
        → result ≡ crowded_act text unmeant (templates_at rows.now) E.count wide (room_at rows.now) full (ledger_at rows.now) place (Ok (act_in rows.now.preamble.text.now action.entry)) }
{
    if rows.first_exceeds(E::zero()) {
        return Cause::EntryTooWide.at(place);
    }
    if action.exceeds(rows) {
        Cause::EntryTooWide.at(place)
    } else {
        full.cause.at(place)
    }
}

/// .. and so does what is wrong with the first token.
fn crowded<M: Measurer>(
    measurer: &M,
    rows: &Rows<M::Extent>,
    text: &[u8],
    place: usize,
    lexeme: Lexeme,
    full: Fault,
) -> Fault
    requires { Reaches text.now place lexeme.end lexeme.token }
    ensures { SoundAt M.Extent.Extent.count M.Extent.Extent.num (wide_of M.Measurer M.Extent.Extent measurer.now) rows.now
        → result ≡ crowded_by text.now (M.Measurer.meaning measurer.now) (templates_at rows.now) M.Extent.Extent.count (wide_of M.Measurer M.Extent.Extent measurer.now) (room_at rows.now) (lead_of lexeme.token) full (ledger_at rows.now) place
        (act_of text.now (M.Measurer.meaning measurer.now) (templates_at rows.now) place 0 lexeme.token) }
{
    let site = Site {
        place,
        column: 0,
        columns: rows.preamble.count(),
    };
    match opening_of(lexeme.token) {
        Opening::Omit => full.cause.at(place),
        _ => match site.action(measurer, text, lexeme) {
            Ok(action) => crowded_cell(rows, place, full, action),
            Err(fault) => fault,
        },
    }
}

/// The first token of a row opens it.
fn first_step<M: Measurer>(
    measurer: &M,
    rows: &mut Rows<M::Extent>,
    text: &[u8],
    place: usize,
    lexeme: Lexeme,
) -> Result<Step, Fault>
    requires { Reaches text.now place lexeme.end lexeme.token }
    ensures { Turns M.Extent.Extent.count M.Extent.Extent.num (wide_of M.Measurer M.Extent.Extent measurer.now) text.now place rows.old
        (first_stepped text.now (M.Measurer.meaning measurer.now) (templates_at rows.old) M.Extent.Extent.count (wide_of M.Measurer M.Extent.Extent measurer.now) (room_at rows.old) (take_verdict (templates_at rows.old) (room_at rows.old) (ledger_at rows.old)) (ledger_at rows.old) place lexeme) rows.new result }
{
    match rows.take() {
        Ok(()) => take_token(measurer, rows, text, place, lexeme),
        Err(full) => Err(crowded(measurer, rows, text, place, lexeme, full)),
    }
}

/// The tokens of a row in hand, from a place on.
fn read_rest<M: Measurer>(
    measurer: &M,
    rows: &mut Rows<M::Extent>,
    text: &[u8],
    start: usize,
) -> Result<usize, Fault>
    requires open { open_in rows.old.draft.state.stage ≡ true }
    requires inside { (0 < start) × (start ≤ length text.now) }
    ensures { Reads M.Extent.Extent.count M.Extent.Extent.num (wide_of M.Measurer M.Extent.Extent measurer.now) rows.old
        (row_by text.now (M.Measurer.meaning measurer.now) (templates_at rows.old) M.Extent.Extent.count (wide_of M.Measurer M.Extent.Extent measurer.now) (room_at rows.old) (length text.now) start (ledger_at rows.old)) rows.new result }
{
    let mut place = start;
    loop {
        match step(measurer, rows, text, place)? {
            ControlFlow::Continue(next) => place = next,
            ControlFlow::Break(bytes) => return Ok(bytes),
        }
    }
}

/// A row whose first token stands at a place.
pub(crate) fn read_row<M: Measurer>(
    measurer: &M,
    rows: &mut Rows<M::Extent>,
    text: &[u8],
    place: usize,
    lexeme: Lexeme,
) -> Result<usize, Fault>
    requires { Reaches text.now place lexeme.end lexeme.token }
    ensures { Reads M.Extent.Extent.count M.Extent.Extent.num (wide_of M.Measurer M.Extent.Extent measurer.now) rows.old
        (row_of text.now (M.Measurer.meaning measurer.now) (templates_at rows.old) M.Extent.Extent.count (wide_of M.Measurer M.Extent.Extent measurer.now) (room_at rows.old) (ledger_at rows.old) place lexeme) rows.new result }
{
    match first_step(measurer, rows, text, place, lexeme)? {
        ControlFlow::Continue(next) => read_rest(measurer, rows, text, next),
        ControlFlow::Break(bytes) => Ok(bytes),
    }
}
