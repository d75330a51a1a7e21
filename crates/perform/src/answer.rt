//! What a line is answered.

use crate::stop::Stop;
use boxlist::{BoxList, BoxRecord, Kind, Store};
use extent::Extent;
use faults::Fault;
use std::fmt;

#[derive(Clone, Copy)]
pub enum Answer<'a, E> {
    Done,
    Made { bytes: usize, columns: usize },
    Read(Option<usize>),
    Width(Option<E>),
    Listed(BoxList<'a>),
    Bytes(&'a [u8]),
    Refused(Fault),
    Misuse,
    BadInput,
}

impl<E> From<Result<(), Fault>> for Answer<'_, E> {
    fn from(outcome: Result<(), Fault>) -> Self {
        match outcome {
            Ok(()) => Answer::Done,
            Err(fault) => Answer::Refused(fault),
        }
    }
}

impl<E: Extent> fmt::Display for Answer<'_, E> {
    fn fmt<W: fmt::Write>(&self, f: &mut fmt::Formatter<W>) -> fmt::Result {
        match *self {
            Answer::Done => write!(f, "ok"),
            Answer::Made { bytes, columns } => write!(f, "ok {bytes} {columns}"),
            Answer::Read(None) => write!(f, "ok end"),
            Answer::Read(Some(bytes)) => write!(f, "ok {bytes}"),
            Answer::Width(None) => write!(f, "ok void"),
            Answer::Width(Some(width)) => write_width(f, width),
            Answer::Listed(list) => write_list(f, list),
            Answer::Bytes(bytes) => write_hex(f, bytes),
            Answer::Refused(fault) => write!(f, "{fault}"),
            Answer::Misuse => write!(f, "misuse"),
            Answer::BadInput => write!(f, "bad input"),
        }
    }
}

// The number on each side.
fn write_width<W: fmt::Write, E: Extent>(f: &mut fmt::Formatter<W>, width: E) -> fmt::Result {
    write!(f, "ok")?;
    for number in (0..E::sides()).filter_map(|side| width.number(side)) {
        write!(f, " {number}")?;
    }
    Ok(())
}

// The number of a kind in the list's bytes.
fn kind_number(kind: Kind) -> i64 {
    match kind {
        Kind::Word => 1,
        Kind::Rule => 2,
        Kind::Unlisted(number) => number,
    }
}

// The number of a text in the list's bytes.
fn store_number(store: Store) -> i64 {
    match store {
        Store::Preamble => 0,
        Store::Lines => 1,
        Store::Unlisted(number) => number,
    }
}

// Where a box's bytes are: of a rule there are none.
fn write_part<W: fmt::Write>(f: &mut fmt::Formatter<W>, record: &BoxRecord) -> fmt::Result {
    match record.kind {
        Kind::Rule => write!(f, "0 0 0"),
        _ => {
            let store = store_number(record.store);
            let place = record.place;
            let len = record.len;
            write!(f, "{store} {place} {len}")
        }
    }
}

// A box on a line of its own, with numbers as in the list's bytes.
fn write_box<W: fmt::Write>(f: &mut fmt::Formatter<W>, record: &BoxRecord) -> fmt::Result {
    let kind = kind_number(record.kind);
    let BoxRecord {
        x,
        y,
        width,
        height,
        depth,
        ..
    } = *record;
    write!(f, "\nbox => {kind} {x} {y} {width} {height} {depth} ")?;
    write_part(f, record)
}

// The list's numbers, and its boxes.
fn write_list<W: fmt::Write>(f: &mut fmt::Formatter<W>, list: BoxList<'_>) -> fmt::Result {
    let BoxList {
        width,
        height,
        boxes,
    } = list;
    let count = boxes.len();
    write!(f, "ok {width} {height} {count}")?;
    for record in boxes {
        write_box(f, record)?;
    }
    Ok(())
}

// Two digits for each byte.
fn write_hex<W: fmt::Write>(f: &mut fmt::Formatter<W>, bytes: &[u8]) -> fmt::Result {
    write!(f, "ok ")?;
    for byte in bytes {
        write!(f, "{byte:02x}")?;
    }
    Ok(())
}

// Prints the line's own bytes and its answer.
pub(crate) fn print<E: Extent>(
    rt: &HostRuntime,
    line: &[u8],
    answer: Answer<'_, E>,
) -> Result<(), Stop> {
    rt.write_all(line)?;
    println!(rt; " => {answer}")?;
    Ok(())
}
