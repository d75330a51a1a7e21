//! What a line of the script says.
ghost use Rattle.std.specs.Prelude.{◌≤◌, IfOk};

use crate::words::{Unread, count, hex, number, ordinal, words};
use ledger::records::Room;
use sharing::Aim;
use std::alloc::Global;
use table::make;

// As many boxes as the largest table can have.
const MOST_RECORDS: usize = 17_408;

// More bytes than its list can take.
const MOST_BYTES: usize = 1_048_576;

// The numbers of a monospaced measurer.
#[derive(Clone, Copy)]
pub struct MonoNumbers {
    pub pitch: i64,
    pub height: i64,
    pub depth: i64,
    pub last: i64,
}

// What is set before the preamble.
#[derive(Clone, Copy)]
pub enum Setting {
    Room(Room),
    Mono(MonoNumbers),
    Twin {
        strip: MonoNumbers,
        window: MonoNumbers,
    },
    Start(make::Start),
}

// How a fresh cell is begun.
#[derive(Clone, Copy)]
pub enum Beginning {
    Omit,
    Start,
}

// What is put into a begun cell.
#[derive(Drop)]
pub enum Item {
    Word(Vec<u8>),
    Space,
    Kern(i64),
    Hfil,
}

// How a begun cell is ended.
#[derive(Clone, Copy)]
pub enum Ending {
    Tab,
    Span,
    Lay,
}

// A call of the table.
#[derive(Drop)]
pub enum TableCall {
    Take,
    Begin(Beginning),
    Put(Item),
    End(Ending),
    GiveUp,
    Rule,
    Gap(i64),
    Line(Vec<u8>),
    Ask(usize),
}

// What a table is set to: a side, a width, and how many records are lent.
#[derive(Clone, Copy)]
pub struct Request {
    pub side: usize,
    pub aim: Aim,
    pub records: usize,
}

// A call on the list of a table that is set.
#[derive(Clone, Copy)]
pub enum ListCall {
    Set(Request),
    // how many bytes are lent
    Write(usize),
    // the number of a box
    Fetch(usize),
}

// What is called behind the preamble.
#[derive(Drop)]
pub enum Call {
    Table(TableCall),
    List(ListCall),
}

#[derive(Drop)]
pub enum Command {
    Setting(Setting),
    Preamble(Vec<u8>),
    Call(Call),
}

// Lines that are empty, hold only spaces or begin with `;`.
pub(crate) fn is_passed_over(line: &[u8]) -> bool {
    line.starts_with(b";") || line.iter().all(|b| *b == b' ')
}

// The line without the spaces before its first word.
fn behind_spaces(line: &[u8]) -> &[u8] {
    let spaces = line.iter().take_while(|b| **b == b' ').count();
    line.get(spaces..).unwrap_or(&[])
}

impl MonoNumbers {
    fn read(words: &[&[u8]]) -> Result<MonoNumbers, Unread> {
        match words {
            [pitch, height, depth, last] => Ok(MonoNumbers {
                pitch: number(pitch)?,
                height: number(height)?,
                depth: number(depth)?,
                last: number(last)?,
            }),
            _ => Err(Unread::BadInput),
        }
    }
}

impl Setting {
    fn read(words: &[&[u8]]) -> Result<Setting, Unread> {
        match words {
            [b"room", items, entries, lines, text] => Ok(Setting::Room(Room {
                items: count(items)?,
                entries: count(entries)?,
                lines: count(lines)?,
                text: count(text)?,
            })),
            [b"measurer", b"mono", numbers @ ..] => {
                Ok(Setting::Mono(MonoNumbers::read(numbers)?))
            }
            [b"measurer", b"twin", numbers @ ..] => {
                let (strip, window) = numbers.split_at_checked(4).ok_or(Unread::BadInput)?;
                Ok(Setting::Twin {
                    strip: MonoNumbers::read(strip)?,
                    window: MonoNumbers::read(window)?,
                })
            }
            [b"gap0", natural, stretch, order] => Ok(Setting::Start(make::Start {
                natural: number(natural)?,
                stretch: number(stretch)?,
                order: number(order)?,
            })),
            _ => Err(Unread::BadInput),
        }
    }
}

impl TableCall {
    fn read(heap: Global, words: &[&[u8]]) -> Result<TableCall, Unread> {
        match words {
            [b"take"] => Ok(TableCall::Take),
            [b"omit"] => Ok(TableCall::Begin(Beginning::Omit)),
            [b"start"] => Ok(TableCall::Begin(Beginning::Start)),
            [b"word-hex", digits] => Ok(TableCall::Put(Item::Word(hex(heap, digits)?))),
            [b"space"] => Ok(TableCall::Put(Item::Space)),
            [b"kern", sp] => Ok(TableCall::Put(Item::Kern(number(sp)?))),
            [b"hfil"] => Ok(TableCall::Put(Item::Hfil)),
            [b"tab"] => Ok(TableCall::End(Ending::Tab)),
            [b"span"] => Ok(TableCall::End(Ending::Span)),
            [b"lay"] => Ok(TableCall::End(Ending::Lay)),
            [b"giveup"] => Ok(TableCall::GiveUp),
            [b"rule"] => Ok(TableCall::Rule),
            [b"gap", sp] => Ok(TableCall::Gap(number(sp)?)),
            [b"line-hex", digits] => Ok(TableCall::Line(hex(heap, digits)?)),
            [b"ask", column] => Ok(TableCall::Ask(ordinal(column)?)),
            _ => Err(Unread::BadInput),
        }
    }
}

// How much a host lends of what it says, at most as much as is of use.
fn lent(word: &[u8], most: usize) -> Result<usize, Unread>
    ensures { IfOk result (λ n. n ≤ most) }
{
    Ok(count(word)?.min(most))
}

// A width that is asked for, or the natural one.
fn aim(word: &[u8]) -> Result<Aim, Unread> {
    match word {
        b"natural" => Ok(Aim::Natural),
        width => Ok(Aim::To(number(width)?)),
    }
}

impl ListCall {
    fn read(words: &[&[u8]]) -> Result<ListCall, Unread> {
        match words {
            [b"set", side, width, records] => Ok(ListCall::Set(Request {
                side: ordinal(side)?,
                aim: aim(width)?,
                records: lent(records, MOST_RECORDS)?,
            })),
            [b"write", bytes] => Ok(ListCall::Write(lent(bytes, MOST_BYTES)?)),
            [b"fetch", number] => Ok(ListCall::Fetch(ordinal(number)?)),
            _ => Err(Unread::BadInput),
        }
    }
}

impl Call {
    fn read(heap: Global, words: &[&[u8]]) -> Result<Call, Unread> {
        match words {
            [b"set" | b"write" | b"fetch", ..] => Ok(Call::List(ListCall::read(words)?)),
            _ => Ok(Call::Table(TableCall::read(heap, words)?)),
        }
    }
}

impl Command {
    // What a line says that is not passed over. TEXT is all behind the first space behind its word.
    pub(crate) fn read(heap: Global, line: &[u8]) -> Result<Command, Unread> {
        let line = behind_spaces(line);
        if let Some(text) = line.strip_prefix(b"preamble ") {
            return Ok(Command::Preamble(Vec::from_slice(heap, text)?));
        }
        if let Some(word) = line.strip_prefix(b"word ") {
            let word = Item::Word(Vec::from_slice(heap, word)?);
            return Ok(Command::Call(Call::Table(TableCall::Put(word))));
        }
        if let Some(text) = line.strip_prefix(b"line ") {
            let line = TableCall::Line(Vec::from_slice(heap, text)?);
            return Ok(Command::Call(Call::Table(line)));
        }
        let words = words(heap, line)?;
        match words.as_slice() {
            [b"preamble-hex", digits] => Ok(Command::Preamble(hex(heap, digits)?)),
            [b"room" | b"measurer" | b"gap0", ..] => {
                Ok(Command::Setting(Setting::read(words.as_slice())?))
            }
            _ => Ok(Command::Call(Call::read(heap, words.as_slice())?)),
        }
    }
}
