ghost use Rattle.std.specs.Prelude.{IfOk, IsTrue};
ghost use Rattle.std.specs.Range.Bound.{bounds_contain};

use crate::stop::Wrong;
use extent::{Extent, Plain, Twin};
use std::alloc::Global;
use std::ops::RangeBounds;
use widths::Entry;

// The largest size of a natural width and of a gap, in scaled points.
const WIDEST: i64 = 1_073_741_823;

const WIDEST_GAP: i64 = 16_777_215;

// The entries, with the sides of the table in their type.
#[derive(Drop)]
pub enum Entries {
    Strip(Vec<Entry<Plain>>),
    StripAndWindow(Vec<Entry<Twin>>),
}

impl Entries {
    // No entries yet, with 1 side or 2.
    fn of_sides(heap: Global, sides: i64) -> Option<Entries> {
        match sides {
            1 => Some(Entries::Strip(Vec::new(heap))),
            2 => Some(Entries::StripAndWindow(Vec::new(heap))),
            _ => None,
        }
    }

    fn is_empty(&self) -> bool {
        match self {
            Entries::Strip(entries) => entries.is_empty(),
            Entries::StripAndWindow(entries) => entries.is_empty(),
        }
    }
}

// What is to be settled: the starting gap and then the gap after each column, and the entries.
#[derive(Drop)]
pub struct Job {
    pub gaps: Vec<i64>,
    pub entries: Entries,
}

// What is read of a job so far. The gaps are there from the line on that gives the columns.
#[derive(Drop)]
pub struct Draft {
    gaps: Option<Vec<i64>>,
    entries: Entries,
}

impl Draft {
    pub(crate) fn new(heap: Global) -> Draft {
        Draft {
            gaps: None,
            entries: Entries::Strip(Vec::new(heap)),
        }
    }

    // The whole job, where the lines have given the columns.
    pub(crate) fn finish(self) -> Result<Job, Wrong> {
        let Draft { gaps, entries } = self;
        let gaps = gaps.ok_or(Wrong::NoColumns)?;
        Ok(Job { gaps, entries })
    }

    // Takes one line of the input. Blank lines and those that begin with `;` are passed over.
    pub(crate) fn read(&mut self, heap: Global, line: &str) -> Result<(), Wrong> {
        if line.starts_with(';') {
            return Ok(());
        }
        let words: Vec<&str> = line.split_whitespace().collect(heap)?;
        match words.as_slice() {
            [] => Ok(()),
            ["columns", count] => self.read_columns(heap, count),
            ["sides", count] => self.read_sides(heap, count),
            ["gap", at, length] => self.read_gap(at, length),
            ["entry", first, last, widths @ ..] => self.read_entry(first, last, widths),
            ["columns" | "sides" | "gap" | "entry", ..] => Err(Wrong::NumberOfWords),
            _ => Err(Wrong::UnknownWord),
        }
    }

    fn read_columns(&mut self, heap: Global, count: &str) -> Result<(), Wrong> {
        let columns: usize = within(count, 1..=32, Wrong::ColumnsRange)?;
        if self.gaps.is_some() {
            return Err(Wrong::ColumnsTwice);
        }
        self.gaps = Some(vec![in heap; 0; columns + 1]?);
        Ok(())
    }

    fn read_sides(&mut self, heap: Global, count: &str) -> Result<(), Wrong> {
        let entries = Entries::of_sides(heap, number(count)?).ok_or(Wrong::SidesRange)?;
        if !self.entries.is_empty() {
            return Err(Wrong::SidesLate);
        }
        self.entries = entries;
        Ok(())
    }

    fn read_gap(&mut self, at: &str, length: &str) -> Result<(), Wrong> {
        let gaps = self.gaps.as_mut().ok_or(Wrong::NoColumns)?;
        let at = within(at, 0..gaps.len(), Wrong::NoSuchGap)?;
        gaps[at] = within(length, -WIDEST_GAP..=WIDEST_GAP, Wrong::GapRange)?;
        Ok(())
    }

    fn read_entry(&mut self, first: &str, last: &str, widths: &[&str]) -> Result<(), Wrong> {
        // the number of words is looked at first, then the run, then the widths
        let run = span(self.gaps.as_ref(), first, last);
        match (&mut self.entries, widths) {
            (Entries::Strip(entries), [strip]) => {
                let run = run?;
                let strip = natural(strip)?;
                push(entries, run, Plain { strip })
            }
            (Entries::StripAndWindow(entries), [strip, window]) => {
                let run = run?;
                let strip = natural(strip)?;
                let window = natural(window)?;
                push(entries, run, Twin { strip, window })
            }
            _ => Err(Wrong::NumberOfWords),
        }
    }
}

// One more entry, over a run of columns.
fn push<E: Extent>(
    entries: &mut Vec<Entry<E>>,
    run: (usize, usize),
    width: E,
) -> Result<(), Wrong> {
    let (first, last) = run;
    entries.push(Entry { first, last, width })?;
    Ok(())
}

// A run of columns, which lines count from 1.
fn span(gaps: Option<&Vec<i64>>, first: &str, last: &str) -> Result<(usize, usize), Wrong> {
    let gaps = gaps.ok_or(Wrong::NoColumns)?;
    let first = within(first, 1..gaps.len(), Wrong::NoSuchSpan)?;
    let last = within(last, first..gaps.len(), Wrong::NoSuchSpan)?;
    Ok((first - 1, last - 1))
}

// A natural width on one side.
fn natural(word: &str) -> Result<i64, Wrong> {
    within(word, -WIDEST..=WIDEST, Wrong::WidthRange)
}

fn number(word: &str) -> Result<i64, Wrong> {
    word.parse().map_err(|_| Wrong::NotANumber)
}

// A number within a range.
fn within<T, R>(word: &str, range: R, wrong: Wrong) -> Result<T, Wrong>
where
    T: TryFrom<i64, Error: Drop> + PartialOrd + Drop,
    R: RangeBounds<T>,
    ensures { IfOk result (λ n. R.has_bounds range → IsTrue (bounds_contain T.partial_cmp (R.start_bound range) (R.end_bound range) n)) }
{
    let n = T::try_from(number(word)?).map_err(|_| wrong)?;
    if range.contains(&n) {
        Ok(n)
    } else {
        Err(wrong)
    }
}
