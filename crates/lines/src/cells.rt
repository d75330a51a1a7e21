//! One token of a row.
ghost use Rattle.std.specs.Prelude.{◌≡◌, ℕ, ◌<◌, ◌≤◌, true, length, ℤ, Ok};
ghost use Rattle.reader.specs.Reads.{Reaches};
ghost use Rattle.ledger.specs.Ledger.{Item, kern};
ghost use Rattle.ledger.specs.Naturals.{wide_of};
ghost use Rattle.rows.specs.Columns.{columns_in};
ghost use Rattle.rows.specs.Good.{open_in, begun_in};
ghost use Rattle.rows.specs.declared.state.Stage.{Stage as TheStage};
ghost use Rattle.rows.specs.Views.{templates_at, room_at, ledger_at};
ghost use Rattle.lines.specs.Lines.{act_of, begun_step, fresh_by, hand_step, lead_of, row_step, start_step};
ghost use Rattle.lines.specs.Steps.{act_in, unmeant, Measured, Turns};

use crate::acts::{Action, Opening, Site, opening_of};
use crate::steps::{Step, perform, placed, stepped};
use extent::Extent;
use faults::Fault;
use measure::Measurer;
use reader::tokens::{Lexeme, token_at};
use rows::rows::Rows;
use rows::state::Stage;
use std::ops::ControlFlow;

/// A place in the text, at the cell in hand.
fn site_at<E: Extent>(rows: &Rows<E>, place: usize) -> Site
    requires { open_in rows.now.draft.state.stage ≡ true }
    ensures is { result ≡ record { place = place; column = rows.now.draft.state.row.column; columns = length (columns_in rows.now.preamble.columns.now) } }
    ensures within { result.column < result.columns }
{
    Site {
        place,
        column: rows.draft.state.row.column,
        columns: rows.preamble.count(),
    }
}

/// A fresh cell is started at its first token.
fn start_cell<E: Extent>(
    rows: &mut Rows<E>,
    text: &[u8],
    place: usize,
    end: usize,
    action: Action<E>,
) -> Result<Step, Fault>
    requires { open_in rows.old.draft.state.stage ≡ true }
    ensures { (wide : Item → ℕ → ℤ) → ((k : ℕ) (z : ℤ) → wide (kern z) k ≡ E.entered k z) → Measured E.count E.num wide action.entry → place < end → end ≤ length text.now
        → Turns E.count E.num wide text.now place rows.old (start_step text.now unmeant (templates_at rows.old) E.count wide (room_at rows.old) (ledger_at rows.old) place end (Ok (act_in rows.old.preamble.text.now action.entry))) rows.new result }
{
    let column = rows.draft.state.row.column;
    placed(rows.start(column), place)?;
    perform(rows, text, place, end, action)
}

/// What a fresh cell makes of a token.
fn take_first<M: Measurer>(
    measurer: &M,
    rows: &mut Rows<M::Extent>,
    text: &[u8],
    place: usize,
    lexeme: Lexeme,
) -> Result<Step, Fault>
    requires fresh { rows.old.draft.state.stage ≡ TheStage.Fresh }
    requires reach { Reaches text.now place lexeme.end lexeme.token }
    ensures { Turns M.Extent.Extent.count M.Extent.Extent.num (wide_of M.Measurer M.Extent.Extent measurer.now) text.now place rows.old
        (fresh_by text.now (M.Measurer.meaning measurer.now) (templates_at rows.old) M.Extent.Extent.count (wide_of M.Measurer M.Extent.Extent measurer.now) (room_at rows.old) (lead_of lexeme.token) (ledger_at rows.old) place lexeme.end
        (act_of text.now (M.Measurer.meaning measurer.now) (templates_at rows.old) place rows.old.draft.state.row.column lexeme.token)) rows.new result }
{
    let end = lexeme.end;
    let site = site_at(rows, place);
    match opening_of(lexeme.token) {
        Opening::Space => Ok(ControlFlow::Continue(end)),
        Opening::Omit => stepped(rows.omit(site.column), place, ControlFlow::Continue(end)),
        Opening::Other => {
            let action = site.action(measurer, text, lexeme)?;
            start_cell(rows, text, place, end, action)
        }
    }
}

/// What a begun cell makes of a token.
fn take_next<M: Measurer>(
    measurer: &M,
    rows: &mut Rows<M::Extent>,
    text: &[u8],
    place: usize,
    lexeme: Lexeme,
) -> Result<Step, Fault>
    requires begun { begun_in rows.old.draft.state.stage ≡ true }
    requires reach { Reaches text.now place lexeme.end lexeme.token }
    ensures { Turns M.Extent.Extent.count M.Extent.Extent.num (wide_of M.Measurer M.Extent.Extent measurer.now) text.now place rows.old
        (begun_step text.now (M.Measurer.meaning measurer.now) (templates_at rows.old) M.Extent.Extent.count (wide_of M.Measurer M.Extent.Extent measurer.now) (room_at rows.old) (ledger_at rows.old) place lexeme.end
        (act_of text.now (M.Measurer.meaning measurer.now) (templates_at rows.old) place rows.old.draft.state.row.column lexeme.token)) rows.new result }
{
    let site = site_at(rows, place);
    let action = site.action(measurer, text, lexeme)?;
    perform(rows, text, place, lexeme.end, action)
}

/// What the row in hand makes of a token.
pub(crate) fn take_token<M: Measurer>(
    measurer: &M,
    rows: &mut Rows<M::Extent>,
    text: &[u8],
    place: usize,
    lexeme: Lexeme,
) -> Result<Step, Fault>
    requires open { open_in rows.old.draft.state.stage ≡ true }
    requires reach { Reaches text.now place lexeme.end lexeme.token }
    ensures { Turns M.Extent.Extent.count M.Extent.Extent.num (wide_of M.Measurer M.Extent.Extent measurer.now) text.now place rows.old
        (hand_step text.now (M.Measurer.meaning measurer.now) (templates_at rows.old) M.Extent.Extent.count (wide_of M.Measurer M.Extent.Extent measurer.now) (room_at rows.old) (ledger_at rows.old) place lexeme (ledger_at rows.old).hand) rows.new result }
{
    match rows.draft.state.stage {
        Stage::Fresh => take_first(measurer, rows, text, place, lexeme),
        _ => take_next(measurer, rows, text, place, lexeme),
    }
}

/// One token of a row.
pub(crate) fn step<M: Measurer>(
    measurer: &M,
    rows: &mut Rows<M::Extent>,
    text: &[u8],
    place: usize,
) -> Result<Step, Fault>
    requires { open_in rows.old.draft.state.stage ≡ true }
    ensures { Turns M.Extent.Extent.count M.Extent.Extent.num (wide_of M.Measurer M.Extent.Extent measurer.now) text.now place rows.old
        (row_step text.now (M.Measurer.meaning measurer.now) (templates_at rows.old) M.Extent.Extent.count (wide_of M.Measurer M.Extent.Extent measurer.now) (room_at rows.old) (ledger_at rows.old) place) rows.new result }
{
    let lexeme = token_at(text, place)?;
    take_token(measurer, rows, text, place, lexeme)
}
