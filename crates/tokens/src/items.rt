//! What a manuscript is made of, from its start to its end or its first fault.
ghost use Rattle.std.specs.Prelude.{◌+◌, ◌-◌, ◌*◌, ◌<◌, ◌≤◌, length, IfOk, IfSome, OnErr, IsSome, ◌⊎◌, is_some, option_map, unwrap_or, if◌then◌else◌};
ghost use Rattle.std.specs.Iterator.{at_most};

use faults::Fault;
use lengths::gap::Gap;
use lengths::glue::glue_at;
use lengths::length::length_at;
use reader::tokens::{Control, Token, token_at};
use std::fmt;

// A token, or what a control word wants behind it.
#[derive(Clone, Copy)]
pub enum Item {
    Token(Token),
    Length(i64),
    Glue(Gap),
}

impl fmt::Display for Item {
    fn fmt<W: fmt::Write>(&self, f: &mut fmt::Formatter<W>) -> fmt::Result {
        match *self {
            Item::Token(Token::End) => write!(f, "end"),
            Item::Token(Token::Space) => write!(f, "space"),
            Item::Token(Token::Word { place, len }) => write!(f, "word at {place} of {len}"),
            Item::Token(Token::Control(control)) => {
                let name = str::from_utf8(control.spelling()).unwrap_or("");
                write!(f, "\\{name}")
            }
            Item::Token(Token::Ampersand) => write!(f, "&"),
            Item::Token(Token::Hash) => write!(f, "#"),
            Item::Token(Token::OpenBrace) => write!(f, "open brace"),
            Item::Token(Token::CloseBrace) => write!(f, "close brace"),
            Item::Length(sp) => write!(f, "length {sp}"),
            Item::Glue(gap) => {
                let order = i64::from(gap.order());
                write!(
                    f,
                    "glue {} plus {} order {order}",
                    gap.natural(),
                    gap.stretch()
                )
            }
        }
    }
}

#[derive(Clone, Copy)]
enum Operand {
    Length,
    Glue,
}

impl Item {
    // What has to stand behind an item.
    fn operand(self) -> Option<Operand> {
        match self {
            Item::Token(Token::Control(Control::Kern | Control::Vskip)) => Some(Operand::Length),
            Item::Token(Token::Control(Control::Tabskip)) => Some(Operand::Glue),
            _ => None,
        }
    }
}

// The items of a text from a place on, each with its place. Nothing comes behind a fault.
#[derive(Drop)]
pub struct Items<'a> {
    // none once a fault was met
    text: Option<&'a [u8]>,
    place: usize,
    due: Option<Operand>,
}

impl<'a> Items<'a> {
    pub(crate) fn new(text: &'a [u8]) -> Items<'a> {
        Items {
            text: Some(text),
            place: 0,
            due: None,
        }
    }

    // The item at the place of the text, and the place behind it.
    fn read(&self, text: &[u8]) -> Result<Option<(Item, usize)>, Fault>
        ensures onward { IfOk result (λ r. IfSome r (λ i. (self.now.place < i.1) × (i.1 ≤ length text.now))) }
        ensures inside { OnErr result ((self.now.place < length text.now) ⊎ IsSome self.now.due) }
    {
        match self.due {
            None => {
                let lexeme = token_at(text, self.place)?;
                match lexeme.token {
                    Token::End => Ok(None),
                    token => Ok(Some((Item::Token(token), lexeme.end))),
                }
            }
            Some(Operand::Length) => {
                let length = length_at(text, self.place)?;
                Ok(Some((Item::Length(length.sp), length.end)))
            }
            Some(Operand::Glue) => {
                let glue = glue_at(text, self.place)?;
                Ok(Some((Item::Glue(glue.gap), glue.end)))
            }
        }
    }
}

impl<'a> Iterator for Items<'a> {
    type Item = Result<(usize, Item), Fault>;

    ghost remaining = { λ s. at_most (unwrap_or (option_map (λ text. 2 * (length text.now - s.place) + (if is_some s.due then 1 else 0)) s.text) 0) };

    fn next(&mut self) -> Option<Result<(usize, Item), Fault>> {
        let text = self.text?;
        let place = self.place;
        match self.read(text) {
            Ok(None) => None,
            Ok(Some((item, end))) => {
                self.place = end;
                self.due = item.operand();
                Some(Ok((place, item)))
            }
            Err(fault) => {
                self.text = None;
                Some(Err(fault))
            }
        }
    }
}
