//! What a token is to a cell.
ghost use Rattle.std.specs.Prelude.{◌≡◌, ℕ, ◌+◌, ◌<◌, ◌≤◌, List, length, take, drop, ℤ, pos, IfOk, nat_le};
ghost use Rattle.faults.specs.declared.Cause.TheVariants as cause;
ghost use Rattle.faults.specs.Faults.{fault_at};
ghost use Rattle.reader.specs.Reads.{Reaches, WordWithin};
ghost use Rattle.ledger.specs.Ledger.{Item, hfil};
ghost use Rattle.ledger.specs.Calls.{Template};
ghost use Rattle.ledger.specs.Naturals.{wide_of};
ghost use Rattle.rows.specs.Answers.{unless};
ghost use Rattle.ledger.specs.Calls.{when};
ghost use Rattle.lines.specs.Lines.{act_of, control_act, lead_of, word_act};
ghost use Rattle.lines.specs.Steps.{acts_in, lead_in, Measured, unmeant};

use extent::Extent;
use faults::{Cause, Fault};
use ledger::records::ItemRecord;
use measure::Measurer;
use reader::tokens::{Control, Lexeme, Token};
use rows::puts::Put;

/// What a token is to a cell: an item, a kern whose length comes next, or a mark that ends the cell.
#[derive(Drop)]
pub(crate) enum Action<'t, E> {
    Add(Put<'t, E>),
    Kern,
    Tab,
    Span,
    Lay,
}

/// What a token is at the start of a cell.
#[derive(Clone, Copy, PartialEq, Eq, Debug)]
pub(crate) enum Opening {
    Space,
    Omit,
    Other,
}

/// A space before a cell is dropped, `\omit` bares the cell of its template, all else begins it.
pub(crate) fn opening_of(token: Token) -> Opening
    ensures { lead_in result ≡ lead_of token }
{
    match token {
        Token::Space => Opening::Space,
        Token::Control(Control::Omit) => Opening::Omit,
        _ => Opening::Other,
    }
}

/// A word in the text, and the place behind its token. It stays beside `Token::Word`, a variant, which is no type of its own.
#[derive(Clone, Copy)]
struct Word {
    place: usize,
    len: usize,
    end: usize,
}

/// Where a token stands: its place in the text, the cell's column, and how many columns there are.
#[derive(Clone, Copy)]
pub(crate) struct Site {
    pub(crate) place: usize,
    pub(crate) column: usize,
    pub(crate) columns: usize,
}

impl Site {
    /// A mark goes on to the next column only where there is one.
    fn check_next(self) -> Result<(), Fault>
        requires { self.column < self.columns }
        ensures { result ≡ unless (when (nat_le self.columns (self.column + 1)) (fault_at cause.TooManyColumns self.place)) tt }
    {
        if self.column + 1 >= self.columns {
            return Err(Cause::TooManyColumns.at(self.place));
        }
        Ok(())
    }

    /// What a control word is to a cell.
    fn control<'t, E: Extent>(self, control: Control) -> Result<Action<'t, E>, Fault>
        requires { self.column < self.columns }
        ensures is { (p text : List ℕ) (columns : List Template) → length columns ≡ self.columns → acts_in p result ≡ control_act text unmeant columns self.place self.column control }
        ensures measured { (wide : Item → ℕ → ℤ) → ((k : ℕ) → wide hfil k ≡ pos 0) → IfOk result (λ a. Measured E.count E.num wide a) }
    {
        match control {
            Control::Kern => Ok(Action::Kern),
            Control::Hfil => Ok(Action::Add(Put {
                item: ItemRecord::Hfil,
                width: E::zero(),
                word: b"",
            })),
            Control::Cr => Ok(Action::Lay),
            Control::Span => {
                self.check_next()?;
                Ok(Action::Span)
            }
            _ => Err(Cause::Misplaced.at(self.place)),
        }
    }

    /// A word is measured.
    fn word<'t, M: Measurer>(
        self,
        measurer: &M,
        text: &'t [u8],
        word: Word,
    ) -> Result<Action<'t, M::Extent>, Fault>
        requires { WordWithin text.now self.place word.place word.len word.end }
        ensures is { (p : List ℕ) (columns : List Template) → acts_in p result ≡ word_act text.now (M.Measurer.meaning measurer.now) columns word.place (take word.len (drop word.place text.now)) (M.Measurer.meaning measurer.now (take word.len (drop word.place text.now))) }
        ensures measured { IfOk result (λ a. Measured M.Extent.Extent.count M.Extent.Extent.num (wide_of M.Measurer M.Extent.Extent measurer.now) a) }
    {
        let Word { place, len, .. } = word;
        let bytes = &text[place..place + len];
        match measurer.word(bytes) {
            Ok(metrics) => Ok(Action::Add(Put {
                item: ItemRecord::CellWord(len),
                width: metrics.width,
                word: bytes,
            })),
            Err(missing) => Err(Cause::NoCharacter.at(place + missing)),
        }
    }

    /// What a token is to a cell, or what is wrong with it there.
    pub(crate) fn action<'t, M: Measurer>(
        self,
        measurer: &M,
        text: &'t [u8],
        lexeme: Lexeme,
    ) -> Result<Action<'t, M::Extent>, Fault>
        requires column { self.column < self.columns }
        requires reach { Reaches text.now self.place lexeme.end lexeme.token }
        ensures is { (p : List ℕ) (columns : List Template) → length columns ≡ self.columns → acts_in p result ≡ act_of text.now (M.Measurer.meaning measurer.now) columns self.place self.column lexeme.token }
        ensures measured { IfOk result (λ a. Measured M.Extent.Extent.count M.Extent.Extent.num (wide_of M.Measurer M.Extent.Extent measurer.now) a) }
        ensures further { IfOk result (λ a. (self.place < lexeme.end) × (lexeme.end ≤ length text.now)) }
    {
        match lexeme.token {
            Token::End => Err(Cause::TextOver.at(text.len())),
            Token::Space => Ok(Action::Add(Put {
                item: ItemRecord::Space,
                width: measurer.space(),
                word: b"",
            })),
            Token::Word { place, len } => {
                let end = lexeme.end;
                self.word(measurer, text, Word { place, len, end })
            }
            Token::Control(control) => self.control(control),
            Token::Ampersand => {
                self.check_next()?;
                Ok(Action::Tab)
            }
            Token::Hash | Token::OpenBrace | Token::CloseBrace => {
                Err(Cause::Misplaced.at(self.place))
            }
        }
    }
}
