//! A whole line.
ghost use Rattle.std.specs.Prelude.{◌≡◌};
ghost use Rattle.reader.specs.Tokens.{token_at};
ghost use Rattle.ledger.specs.Naturals.{wide_of};
ghost use Rattle.rows.specs.Views.{templates_at, room_at, ledger_at, SoundAt, Stays};
ghost use Rattle.lines.specs.Lines.{bytes_read, is_noalign, ledger_after, line_from, line_of};
ghost use Rattle.lines.specs.Steps.{Reads};

use crate::guard::Guard;
use crate::noalign::read_noalign;
use crate::row::read_row;
use faults::Fault;
use measure::Measurer;
use reader::tokens::{Control, Token, spaces_end, token_at};
use rows::rows::Rows;

fn is_noalign(token: Token) -> bool
    ensures { result ≡ is_noalign token }
{
    matches!(token, Token::Control(Control::Noalign))
}

/// A line whose first token stands at a place.
fn read_from<M: Measurer>(
    measurer: &M,
    rows: &mut Rows<M::Extent>,
    text: &[u8],
    place: usize,
) -> Result<usize, Fault>
    ensures { Reads M.Extent.Extent.count M.Extent.Extent.num (wide_of M.Measurer M.Extent.Extent measurer.now) rows.old
        (line_from text.now (M.Measurer.meaning measurer.now) (templates_at rows.old) M.Extent.Extent.count (wide_of M.Measurer M.Extent.Extent measurer.now) (room_at rows.old) (ledger_at rows.old) place (token_at text.now place)) rows.new result }
{
    let lexeme = token_at(text, place)?;
    if is_noalign(lexeme.token) {
        read_noalign(rows, text, place, lexeme.end)
    } else {
        read_row(measurer, rows, text, place, lexeme)
    }
}

/// Reads the line at the start of a text: a row, a rule or a gap. Nothing where only spaces are left; a refused line adds
/// nothing.
pub fn read_line<M: Measurer>(
    measurer: &M,
    rows: &mut Rows<M::Extent>,
    text: &[u8],
) -> Result<Option<usize>, Fault>
    ensures answer { SoundAt M.Extent.Extent.count M.Extent.Extent.num (wide_of M.Measurer M.Extent.Extent measurer.now) rows.old
        → result ≡ bytes_read (line_of text.now (M.Measurer.meaning measurer.now) (templates_at rows.old) M.Extent.Extent.count (wide_of M.Measurer M.Extent.Extent measurer.now) (room_at rows.old) (ledger_at rows.old)) }
    ensures ledger { SoundAt M.Extent.Extent.count M.Extent.Extent.num (wide_of M.Measurer M.Extent.Extent measurer.now) rows.old
        → ledger_at rows.new ≡ ledger_after (line_of text.now (M.Measurer.meaning measurer.now) (templates_at rows.old) M.Extent.Extent.count (wide_of M.Measurer M.Extent.Extent measurer.now) (room_at rows.old) (ledger_at rows.old)) (ledger_at rows.old) }
    ensures sound { SoundAt M.Extent.Extent.count M.Extent.Extent.num (wide_of M.Measurer M.Extent.Extent measurer.now) rows.old
        → SoundAt M.Extent.Extent.count M.Extent.Extent.num (wide_of M.Measurer M.Extent.Extent measurer.now) rows.new }
    ensures stays { Stays rows.old rows.new }
{
    rows.draft.state.check_closed()?;
    let place = spaces_end(text, 0);
    if place >= text.len() {
        return Ok(None);
    }
    let mut guard = Guard {
        rows,
        accepted: false,
    };
    let bytes = read_from(measurer, guard.rows, text, place)?;
    guard.accepted = true;
    Ok(Some(bytes))
}
