//! One token of a preamble.
ghost use Rattle.std.specs.Prelude.{◌≡◌, ℕ, ◌<◌, ◌≤◌, length, ℤ, pos};
ghost use Rattle.reader.specs.Reads.{Reaches};
ghost use Rattle.ledger.specs.Ledger.{Item, kern, hfil};
ghost use Rattle.ledger.specs.Naturals.{wide_of};
ghost use Rattle.ledger.specs.Preambles.{by_control, by_token, step as stepped};
ghost use Rattle.templates.specs.Kept.{Fits, Sized, Turns};
ghost use Rattle.templates.specs.Readings.{reading_of, unmeant};

use crate::memory::{Hand, Step, Templates, Word};
use extent::Extent;
use faults::{Cause, Fault};
use measure::Measurer;
use reader::tokens::{Control, Lexeme, Token, token_at};

impl<E: Extent> Hand<E> {
    /// What a control word makes of the reading: it measures no word.
    fn take_control(
        self,
        into: &mut Templates<E>,
        text: &[u8],
        control: Control,
        end: usize,
    ) -> Result<Step<E>, Fault>
        requires { Fits self into.old }
        ensures { (wide : Item → ℕ → ℤ) → Sized E.count wide text.now → ((k : ℕ) (z : ℤ) → wide (kern z) k ≡ E.entered k z) → ((k : ℕ) → wide hfil k ≡ pos 0) → self.place < end → end ≤ length text.now → Turns E.count E.num wide text.now self into.old (by_control text.now unmeant (reading_of text.now self into.old) end control) into.new result }
    {
        match control {
            Control::Kern => self.add_kern(into, text, end),
            Control::Hfil => self.add_fill(into, end),
            Control::Tabskip => self.take_gap(text, end),
            Control::Cr => self.last_column(into, end),
            _ => Err(Cause::Misplaced.at(self.place)),
        }
    }

    /// What a token makes of the reading.
    fn take_token<M: Measurer<Extent = E>>(
        self,
        measurer: &M,
        into: &mut Templates<E>,
        text: &[u8],
        lexeme: Lexeme,
    ) -> Result<Step<E>, Fault>
        requires fits { Fits self into.old }
        requires reach { Reaches text.now self.place lexeme.end lexeme.token }
        ensures { Turns E.count E.num (wide_of M.Measurer E.Extent measurer.now) text.now self into.old (by_token text.now (M.Measurer.meaning measurer.now) (reading_of text.now self into.old) lexeme.end lexeme.token) into.new result }
    {
        let end = lexeme.end;
        match lexeme.token {
            Token::End => Err(Cause::TextOver.at(text.len())),
            Token::Space => self.add_space(into, measurer.space(), end),
            Token::Word { place, len } => {
                self.add_word(measurer, into, text, Word { place, len, end })
            }
            Token::Control(control) => self.take_control(into, text, control, end),
            Token::Ampersand => self.next_column(into, end),
            Token::Hash => self.mark(end),
            Token::OpenBrace | Token::CloseBrace => Err(Cause::Misplaced.at(self.place)),
        }
    }

    /// One token of the preamble.
    pub(crate) fn step<M: Measurer<Extent = E>>(
        self,
        measurer: &M,
        into: &mut Templates<E>,
        text: &[u8],
    ) -> Result<Step<E>, Fault>
        requires { Fits self into.old }
        ensures { Turns E.count E.num (wide_of M.Measurer E.Extent measurer.now) text.now self into.old (stepped text.now (M.Measurer.meaning measurer.now) (reading_of text.now self into.old)) into.new result }
    {
        let lexeme = token_at(text, self.place)?;
        self.take_token(measurer, into, text, lexeme)
    }
}
