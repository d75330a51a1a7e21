//! A rule or a gap, read from `\noalign`.
ghost use Rattle.std.specs.Prelude.{◌≡◌, ℕ, List, ℤ, Result, IfOk};
ghost use Rattle.measure.specs.declared.measurer.Metrics.{Metrics};
ghost use Rattle.reader.specs.Tokens.{token_at};
ghost use Rattle.lengths.specs.Lengths.{length_at};
ghost use Rattle.ledger.specs.Ledger.{Item};
ghost use Rattle.ledger.specs.Calls.{rule_verdict};
ghost use Rattle.rows.specs.Held.{rowed};
ghost use Rattle.rows.specs.Views.{templates_at, room_at, ledger_at};
ghost use Rattle.lines.specs.Lines.{noalign_by, piece_of};
ghost use Rattle.lines.specs.Bares.{piece_in, fault_amiss, open_end, close_end, gap_bare, lexeme_bare, noalign_of};
ghost use Rattle.lines.specs.Steps.{Reads};

use crate::steps::placed;
use extent::Extent;
use faults::{Cause, Fault};
use lengths::length::length_at;
use reader::tokens::{Control, Token, token_at};
use rows::rows::Rows;
use rows::state::LineRecord;

/// What a token is within `\noalign`.
#[derive(Clone, Copy, PartialEq, Eq, Debug)]
enum Inner {
    Open,
    Close,
    Rule,
    Skip,
    End,
    Other,
}

/// A line without entries, and the place behind what spells it.
#[derive(Clone, Copy)]
struct Bare {
    line: LineRecord,
    end: usize,
}

fn inner_of(token: Token) -> Inner
    ensures { piece_in result ≡ piece_of token }
{
    match token {
        Token::OpenBrace => Inner::Open,
        Token::CloseBrace => Inner::Close,
        Token::Control(Control::Hrule) => Inner::Rule,
        Token::Control(Control::Vskip) => Inner::Skip,
        Token::End => Inner::End,
        _ => Inner::Other,
    }
}

/// Any other token is misplaced, and the text may be over.
fn amiss(text: &[u8], place: usize, inner: Inner) -> Fault
    ensures { result ≡ fault_amiss text.now place (piece_in inner) }
{
    match inner {
        Inner::End => Cause::TextOver.at(text.len()),
        _ => Cause::Misplaced.at(place),
    }
}

/// The place behind the brace that opens.
fn open_at(text: &[u8], place: usize) -> Result<usize, Fault>
    ensures { result ≡ open_end text.now place (token_at text.now place) }
{
    let lexeme = token_at(text, place)?;
    let inner = inner_of(lexeme.token);
    match inner {
        Inner::Open => Ok(lexeme.end),
        _ => Err(amiss(text, place, inner)),
    }
}

/// The place behind the brace that closes.
fn close_at(text: &[u8], place: usize) -> Result<usize, Fault>
    ensures { result ≡ close_end text.now place (token_at text.now place) }
{
    let lexeme = token_at(text, place)?;
    let inner = inner_of(lexeme.token);
    match inner {
        Inner::Close => Ok(lexeme.end),
        _ => Err(amiss(text, place, inner)),
    }
}

/// A gap's length is at least 0.
fn gap_at(text: &[u8], place: usize) -> Result<Bare, Fault>
    ensures is { result ≡ gap_bare place (length_at text.now place) }
    ensures bare { IfOk result (λ b. rowed b.line ≡ 0) }
{
    let length = length_at(text, place)?;
    if length.sp < 0 {
        return Err(Cause::BadLength.at(place));
    }
    Ok(Bare {
        line: LineRecord::Gap(length.sp),
        end: length.end,
    })
}

/// The rule, or the gap.
fn bare_at(text: &[u8], place: usize) -> Result<Bare, Fault>
    ensures is { result ≡ lexeme_bare text.now place (token_at text.now place) }
    ensures bare { IfOk result (λ b. rowed b.line ≡ 0) }
{
    let lexeme = token_at(text, place)?;
    let inner = inner_of(lexeme.token);
    match inner {
        Inner::Rule => Ok(Bare {
            line: LineRecord::Rule,
            end: lexeme.end,
        }),
        Inner::Skip => gap_at(text, lexeme.end),
        _ => Err(amiss(text, place, inner)),
    }
}

/// The line that `\noalign` adds, and the place behind its braces.
fn noalign_at(text: &[u8], place: usize) -> Result<Bare, Fault>
    ensures is { result ≡ noalign_of text.now place }
    ensures bare { IfOk result (λ b. rowed b.line ≡ 0) }
{
    let inside = open_at(text, place)?;
    let bare = bare_at(text, inside)?;
    let end = close_at(text, bare.end)?;
    Ok(Bare { end, ..bare })
}

/// The line of a `\noalign` at a place that ends behind it. Whether there is room is looked at first.
pub(crate) fn read_noalign<E: Extent>(
    rows: &mut Rows<E>,
    text: &[u8],
    place: usize,
    end: usize,
) -> Result<usize, Fault>
    ensures { (wide : Item → ℕ → ℤ) (meaning : List ℕ → Result (Metrics E) ℕ) → Reads E.count E.num wide rows.old
        (noalign_by text.now meaning (templates_at rows.old) E.count wide (room_at rows.old) (rule_verdict (templates_at rows.old) (room_at rows.old) (ledger_at rows.old)) (ledger_at rows.old) place end) rows.new result }
{
    placed(rows.check_rule(), place)?;
    let bare = noalign_at(text, end)?;
    rows.rule(bare.line)?;
    Ok(bare.end)
}
