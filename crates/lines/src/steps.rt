//! What a begun cell makes of a token.
ghost use Rattle.std.specs.Prelude.{◌≡◌, ℕ, ◌<◌, ◌≤◌, true, length, ℤ};
ghost use Rattle.lengths.specs.Lengths.{length_at};
ghost use Rattle.ledger.specs.Ledger.{Item, kern};
ghost use Rattle.rows.specs.Good.{begun_in};
ghost use Rattle.rows.specs.Views.{templates_at, room_at, ledger_at};
ghost use Rattle.lines.specs.Lines.{act_step, kern_step};
ghost use Rattle.lines.specs.Steps.{act_in, placed_at, stepped_by, unmeant, Measured, Turns};

use crate::acts::Action;
use extent::Extent;
use faults::Fault;
use ledger::records::ItemRecord;
use lengths::length::length_at;
use rows::puts::Put;
use rows::rows::Rows;
use std::ops::ControlFlow;

/// What a token makes of a row: it goes on from a place, or the row is laid with so many bytes.
pub(crate) type Step = ControlFlow<usize, usize>;

/// A row call's answer, with its fault at a place of the text.
pub(crate) fn placed(answer: Result<(), Fault>, place: usize) -> Result<(), Fault>
    ensures { result ≡ placed_at place answer }
{
    match answer {
        Ok(()) => Ok(()),
        Err(fault) => Err(fault.cause.at(place)),
    }
}

/// .. and what comes next where it is accepted.
pub(crate) fn stepped(answer: Result<(), Fault>, place: usize, next: Step) -> Result<Step, Fault>
    ensures { result ≡ stepped_by place next answer }
{
    placed(answer, place)?;
    Ok(next)
}

/// The length behind `\kern` is a token of its own.
fn add_kern<E: Extent>(rows: &mut Rows<E>, text: &[u8], at: usize) -> Result<Step, Fault>
    requires { begun_in rows.old.draft.state.stage ≡ true }
    ensures { (wide : Item → ℕ → ℤ) (place : ℕ) → ((k : ℕ) (z : ℤ) → wide (kern z) k ≡ E.entered k z) → place < at
        → Turns E.count E.num wide text.now place rows.old (kern_step text.now unmeant (templates_at rows.old) E.count wide (room_at rows.old) (ledger_at rows.old) at (length_at text.now at)) rows.new result }
{
    let length = length_at(text, at)?;
    let put = Put {
        item: ItemRecord::Kern(length.sp),
        width: E::enter(length.sp),
        word: b"",
    };
    stepped(rows.add(put), at, ControlFlow::Continue(length.end))
}

/// What a begun cell makes of a token at a place that ends behind it.
pub(crate) fn perform<E: Extent>(
    rows: &mut Rows<E>,
    text: &[u8],
    place: usize,
    end: usize,
    action: Action<E>,
) -> Result<Step, Fault>
    requires { begun_in rows.old.draft.state.stage ≡ true }
    ensures { (wide : Item → ℕ → ℤ) → ((k : ℕ) (z : ℤ) → wide (kern z) k ≡ E.entered k z) → Measured E.count E.num wide action.entry → place < end → end ≤ length text.now
        → Turns E.count E.num wide text.now place rows.old (act_step text.now unmeant (templates_at rows.old) E.count wide (room_at rows.old) (ledger_at rows.old) place end (act_in rows.old.preamble.text.now action.entry)) rows.new result }
{
    let column = rows.draft.state.row.column;
    match action {
        Action::Add(put) => stepped(rows.add(put), place, ControlFlow::Continue(end)),
        Action::Kern => add_kern(rows, text, end),
        Action::Tab => stepped(rows.tab(column), place, ControlFlow::Continue(end)),
        Action::Span => stepped(rows.span(column), place, ControlFlow::Continue(end)),
        Action::Lay => stepped(rows.lay(column), place, ControlFlow::Break(end)),
    }
}
