//! The token at a place of a text.
ghost use Rattle.std.specs.Prelude.{◌≡◌, ◌∷◌, ◌+◌, ◌^◌, ◌<◌, length, drop, ◌≢◌};
ghost use Rattle.std.specs.List.{prefix_len};
ghost use Rattle.std.specs.Str.{bytes_eq};
ghost use Rattle.reader.specs.Classes.{IsSpecial};
ghost use Rattle.reader.specs.Reads.{Alone, LettersApart, Longest, Onward, Reads};
ghost use Rattle.reader.specs.Tokens.{after_backslash, blank_byte, control_word, escapable, letters_of, mark_of, name_byte, spaces_end, spelled, token_at, token_of, word_byte, word_of};

use crate::classes::{Class, class_of};
use crate::text::{rest_at, run_len};
use faults::{Cause, Fault};

// The control words. Each is a backslash and its letters.
#[derive(Clone, Copy, PartialEq, Eq, Debug)]
pub enum Control {
    Kern,
    Hfil,
    Tabskip,
    Cr,
    Omit,
    Span,
    Noalign,
    Hrule,
    Vskip,
}

// What a text is made of.
#[derive(Clone, Copy, PartialEq, Eq, Debug)]
pub enum Token {
    // the text is over
    End,
    // a longest run of space bytes
    Space,
    // a longest run of word bytes, or the one byte behind a backslash
    Word { place: usize, len: usize },
    // a control word and the spaces behind it
    Control(Control),
    // `&`
    Ampersand,
    // `#`
    Hash,
    // `{`
    OpenBrace,
    // `}`
    CloseBrace,
}

// A token and the place behind it. Hosts, contracts and tests name these fields.
#[derive(Clone, Copy, PartialEq, Eq, Debug)]
pub struct Lexeme {
    pub token: Token,
    pub end: usize,
}

// All control words: one is found by its spelling, so that each is spelled in one place.
static CONTROLS: [Control; 9] = [
    Control::Kern,
    Control::Hfil,
    Control::Tabskip,
    Control::Cr,
    Control::Omit,
    Control::Span,
    Control::Noalign,
    Control::Hrule,
    Control::Vskip,
];

impl Control {
    // The letters of a control word.
    pub fn spelling(self) -> &'static [u8]
        ensures answer { result.now ≡ letters_of self }
        ensures apart { LettersApart }
    {
        match self {
            Control::Kern => b"kern",
            Control::Hfil => b"hfil",
            Control::Tabskip => b"tabskip",
            Control::Cr => b"cr",
            Control::Omit => b"omit",
            Control::Span => b"span",
            Control::Noalign => b"noalign",
            Control::Hrule => b"hrule",
            Control::Vskip => b"vskip",
        }
    }
}

// A word has at most this many bytes.
const LONGEST_WORD: usize = 255;

// A byte of a word: a letter or another.
fn is_word_byte(b: u8) -> bool
    ensures { result ≡ word_byte b }
{
    matches!(class_of(b), Class::Letter | Class::Other)
}

// A byte of a run of spaces.
fn is_blank(b: u8) -> bool
    ensures { result ≡ blank_byte b }
{
    class_of(b) == Class::Space
}

// A byte of a control word.
fn is_letter(b: u8) -> bool
    ensures { result ≡ name_byte b }
{
    class_of(b) == Class::Letter
}

// The bytes that stand for themselves behind a backslash.
fn is_escapable(b: u8) -> bool
    ensures { result ≡ escapable b }
{
    matches!(b, b'&' | b'#' | b'$' | b'%' | b'_' | b'{' | b'}')
}

// Whether the letters `first` and `more` spell a control word. The first one tells most words apart.
fn spells(control: Control, first: u8, more: &[u8]) -> bool
    ensures { result ≡ bytes_eq (first ∷ more.now) (letters_of control) }
{
    match control.spelling() {
        [head, tail @ ..] => first == *head && more == tail,
        [] => false,
    }
}

// The control word that the letters `first` and `more` spell.
fn control_named(first: u8, more: &[u8]) -> Option<Control>
    ensures { result ≡ spelled (first ∷ more.now) }
{
    CONTROLS
        .iter()
        .copied()
        .find(|control| spells(*control, first, more))
}

// The mark of a special byte other than the backslash.
fn mark(b: u8) -> Token
    requires { IsSpecial b × (b ≢ 92) }
    ensures { result ≡ mark_of b }
{
    match b {
        b'&' => Token::Ampersand,
        b'#' => Token::Hash,
        b'{' => Token::OpenBrace,
        b'}' => Token::CloseBrace,
        _ => unreachable(),
    }
}

// What is left of a text at a place.
#[derive(Clone, Copy)]
struct Rest<'a> {
    bytes: &'a [u8],
    place: usize,
    ghost fits: { place + length bytes.now < 2 ^ 64 },
}

impl Rest<'_> {
    // The control word whose backslash stands first. The spaces behind it are skipped.
    fn control_word(self) -> Result<Lexeme, Fault>
        ensures { result ≡ control_word (drop 1 self.entry.bytes.now) self.entry.place }
    {
        let unknown = Cause::UnknownControl.at(self.place);
        let [_, first, rest @ ..] = self.bytes else {
            return Err(unknown);
        };
        if !is_letter(*first) {
            return Err(unknown);
        }
        let (more, behind) = rest.split_at(run_len(rest, is_letter));
        let control = control_named(*first, more).ok_or(unknown)?;
        let spaces = run_len(behind, is_blank);
        Ok(Lexeme {
            token: Token::Control(control),
            end: self.place + 2 + more.len() + spaces,
        })
    }

    // What the backslash that stands first begins.
    fn escape(self) -> Result<Lexeme, Fault>
        ensures { result ≡ after_backslash (drop 1 self.entry.bytes.now) self.entry.place }
    {
        match self.bytes {
            [_, b, ..] if is_escapable(*b) => Ok(Lexeme {
                token: Token::Word {
                    place: self.place + 1,
                    len: 1,
                },
                end: self.place + 2,
            }),
            _ => self.control_word(),
        }
    }

    // The run of word bytes that stands first.
    fn word(self) -> Result<Lexeme, Fault>
        ensures { result ≡ word_of (prefix_len word_byte self.entry.bytes.now) self.entry.place }
    {
        let len = run_len(self.bytes, is_word_byte);
        if len > LONGEST_WORD {
            return Err(Cause::WordLength.at(self.place));
        }
        Ok(Lexeme {
            token: Token::Word {
                place: self.place,
                len,
            },
            end: self.place + len,
        })
    }

    // The token that stands first.
    fn first(self) -> Result<Lexeme, Fault>
        ensures { result ≡ token_of self.entry.bytes.now self.entry.place }
    {
        match self.bytes {
            [] => Ok(Lexeme {
                token: Token::End,
                end: self.place,
            }),
            [b'\\', ..] => self.escape(),
            [b, ..] => match class_of(*b) {
                Class::Bad => Err(Cause::BadByte.at(self.place)),
                Class::Space => Ok(Lexeme {
                    token: Token::Space,
                    end: self.place + run_len(self.bytes, is_blank),
                }),
                Class::Special => Ok(Lexeme {
                    token: mark(*b),
                    end: self.place + 1,
                }),
                Class::Letter | Class::Other => self.word(),
            },
        }
    }
}

// The token at a place of a text, and the place behind it.
pub fn token_at(text: &[u8], place: usize) -> Result<Lexeme, Fault>
    ensures answer { result ≡ token_at text.now place }
    ensures law { Reads text.now place result }
    ensures only { Alone text.now place result }
    ensures onward { Onward text.now place result }
{
    let rest = Rest {
        bytes: rest_at(text, place),
        place,
    };
    rest.first()
}

// The place behind the longest run of space bytes at a place.
pub fn spaces_end(text: &[u8], place: usize) -> usize
    ensures answer { result ≡ spaces_end text.now place }
    ensures law { Longest blank_byte text.now place result }
{
    place + run_len(rest_at(text, place), is_blank)
}
