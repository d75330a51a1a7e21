//! A script from its first line on: settings up to the preamble, then calls.
use crate::answer::{Answer, print};
use crate::calls::{Reply, make};
use crate::lists::Lists;
use crate::script::{Call, Command, ListCall, is_passed_over};
use crate::settings::{Chosen, Settings};
use crate::stop::Stop;
use crate::words::Unread;
use extent::{Extent, Plain, Twin};
use ledger::records::ItemRecord;
use measure::Measurer;
use rows::state::{EntryRecord, LineRecord, Memory};
use table::cells::InHand;
use table::table::Table;
use table::work::Workspace;
use templates::Templates;
use widths::Entry;

// The preamble's line, its text, and the lines behind it.
#[derive(Clone, Copy)]
struct Opening<'s> {
    line: &'s [u8],
    text: &'s [u8],
    rest: &'s [&'s [u8]],
}

// What a host lends beside its slices: made where the kind of extent, and with it their size, is known.
#[derive(Drop)]
struct Lent<E> {
    templates: Templates<E>,
    work: Workspace<E>,
    lists: Lists,
}

// What a line says, or nothing where it cannot be read.
fn read(rt: &HostRuntime, line: &[u8]) -> Result<Option<Command>, Stop> {
    match Command::read(rt.alloc(), line) {
        Ok(command) => Ok(Some(command)),
        Err(Unread::BadInput) => Ok(None),
        Err(Unread::NoMemory) => Err(Stop::NoMemory),
    }
}

// Takes settings up to a preamble. A refused measurer ends the run.
pub(crate) fn settle(rt: &HostRuntime, lines: &[&[u8]]) -> Result<(), Stop> {
    let mut settings = Settings::new();
    for (at, line) in lines.iter().copied().enumerate() {
        if is_passed_over(line) {
            continue;
        }
        match read(rt, line)? {
            Some(Command::Setting(setting)) => match settings.set(setting) {
                Ok(()) => print::<Plain>(rt, line, Answer::Done)?,
                Err(fault) => {
                    print::<Plain>(rt, line, Answer::Refused(fault))?;
                    return Ok(());
                }
            },
            Some(Command::Preamble(text)) => {
                let text = text.as_slice();
                let rest = lines.get(at + 1..).unwrap_or(&[]);
                return open(rt, settings, Opening { line, text, rest });
            }
            Some(Command::Call(_)) | None => print::<Plain>(rt, line, Answer::BadInput)?,
        }
    }
    Ok(())
}

// Performs the rest of the script in the measurer's kind of extent.
fn open(rt: &HostRuntime, settings: Settings, opening: Opening<'_>) -> Result<(), Stop> {
    match settings.measurer {
        Chosen::Mono(measurer) => {
            let mut lent = Lent::<Plain> {
                templates: Templates::new(),
                work: Workspace::new(),
                lists: Lists::new(rt.alloc()),
            };
            perform(rt, &measurer, &mut lent, settings, opening)
        }
        Chosen::Twin(measurer) => {
            let mut lent = Lent::<Twin> {
                templates: Templates::new(),
                work: Workspace::new(),
                lists: Lists::new(rt.alloc()),
            };
            perform(rt, &measurer, &mut lent, settings, opening)
        }
    }
}

// Makes the table, and then the calls. A refused preamble ends the run.
fn perform<M: Measurer>(
    rt: &HostRuntime,
    measurer: &M,
    lent: &mut Lent<M::Extent>,
    settings: Settings,
    opening: Opening<'_>,
) -> Result<(), Stop> {
    let Opening { line, text, rest } = opening;
    let heap = rt.alloc();
    let zero = M::Extent::zero();
    let none = EntryRecord {
        entry: Entry {
            first: 0,
            last: 0,
            width: zero,
        },
        count: 0,
    };
    let mut items = vec![in heap; ItemRecord::Space; settings.room.items]?;
    let mut entries = vec![in heap; none; settings.room.entries]?;
    let mut lines = vec![in heap; LineRecord::Rule; settings.room.lines]?;
    let mut bytes = vec![in heap; 0; settings.room.text]?;
    let memory = Memory {
        items: items.as_mut_slice(),
        entries: entries.as_mut_slice(),
        lines: lines.as_mut_slice(),
        text: bytes.as_mut_slice(),
    };
    match Table::try_make(measurer, memory, &mut lent.templates, settings.start, text) {
        Ok(mut table) => {
            let bytes = table.made().unwrap_or(0);
            let columns = table.columns();
            print::<M::Extent>(rt, line, Answer::Made { bytes, columns })?;
            call_all(rt, &mut table, &mut lent.work, &mut lent.lists, rest)
        }
        Err(fault) => {
            print::<M::Extent>(rt, line, Answer::Refused(fault))?;
            Ok(())
        }
    }
}

// The call that a line says: behind the preamble all else is bad input.
fn read_call(rt: &HostRuntime, line: &[u8]) -> Result<Option<Call>, Stop> {
    match read(rt, line)? {
        Some(Command::Call(call)) => Ok(Some(call)),
        Some(Command::Setting(_setting)) => Ok(None),
        Some(Command::Preamble(_text)) => Ok(None),
        None => Ok(None),
    }
}

// Makes a line's call on the list, and answers it.
fn call_list<M: Measurer>(
    rt: &HostRuntime,
    table: &Table<M>,
    work: &mut Workspace<M::Extent>,
    lists: &mut Lists,
    line: &[u8],
    call: ListCall,
) -> Result<(), Stop> {
    let answer = lists.make(rt.alloc(), table, work, call)?;
    print(rt, line, answer)
}

// Makes the calls of the lines behind the preamble. A row in hand at the end is given up.
fn call_all<M: Measurer>(
    rt: &HostRuntime,
    table: &mut Table<M>,
    work: &mut Workspace<M::Extent>,
    lists: &mut Lists,
    lines: &[&[u8]],
) -> Result<(), Stop> {
    let mut hand: Option<InHand> = None;
    let mut outcome = Ok(());
    for line in lines.iter().copied().filter(|line| !is_passed_over(line)) {
        outcome = match read_call(rt, line) {
            Ok(Some(Call::Table(call))) => {
                let Reply { hand: next, answer } = make(table, work, hand, call);
                hand = next;
                print(rt, line, answer)
            }
            Ok(Some(Call::List(call))) => call_list(rt, table, work, lists, line, call),
            Ok(None) => print::<M::Extent>(rt, line, Answer::BadInput),
            Err(stop) => Err(stop),
        };
        if outcome.is_err() {
            break;
        }
    }
    if let Some(cell) = hand {
        table.give_up(cell);
    }
    outcome
}
