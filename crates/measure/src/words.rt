ghost use Rattle.std.specs.Prelude.{◌≡◌, ◌≤◌, not, length, position, Ok, MatchResult};
ghost use Rattle.measure.specs.Words.{word_byte, word_long, IsWord, unfit};
ghost use Rattle.measure.specs.Asked.{characterless, unless_unfit, measured_by, Measured};
ghost use Rattle.measure.specs.Bounds.{Bounded};

use crate::measurer::{Measurer, Metrics};
use faults::{Cause, Fault};

// Whether a word may have this byte.
fn is_word_byte(b: u8) -> bool
    ensures { result ≡ word_byte b }
{
    b.is_ascii_graphic()
}

// Whether a word may have so many bytes.
fn is_word_length(n: usize) -> bool
    ensures { result ≡ word_long n }
{
    (1..=255).contains(&n)
}

// The place of the first byte that no word has.
fn first_bad(bytes: &[u8]) -> Option<usize>
    ensures { result ≡ position (λ b. not (word_byte b)) bytes.now }
{
    bytes.iter().position(|b| !is_word_byte(*b))
}

// Refuses bytes that are no word: a bad byte before a bad length.
fn check_word(bytes: &[u8]) -> Result<(), Fault>
    ensures { result ≡ unless_unfit (unfit bytes.now) (Ok tt) }
{
    if let Some(place) = first_bad(bytes) {
        return Err(Cause::BadByte.at(place));
    }
    if !is_word_length(bytes.len()) {
        return Err(Cause::WordLength.at(0));
    }
    Ok(())
}

// The metrics of any bytes: refused where they are no word, or have a byte without a character.
pub fn measured<M: Measurer>(m: &M, word: &[u8]) -> Result<Metrics<M::Extent>, Fault>
    ensures answer { result ≡ measured_by (M.Measurer.meaning m.now) word.now }
    ensures meant { IsWord word.now → result ≡ characterless (M.Measurer.meaning m.now word.now) }
    ensures law { Measured (M.Measurer.meaning m.now) word.now result }
    ensures within { MatchResult result (Bounded M.Extent.Extent.count M.Extent.Extent.num) (λ f. f.place ≤ length word.now) }
{
    check_word(word)?;
    m.word(word).map_err(|place| Cause::NoCharacter.at(place))
}
