use spans::table::Misfit;
use std::alloc::{AllocError, AllocFailed};
use std::{fmt, io};

// What is wrong with a line.
#[derive(Clone, Copy, PartialEq, Eq, Debug)]
pub enum Wrong {
    UnknownWord,
    NumberOfWords,
    NotANumber,
    NoColumns,
    ColumnsTwice,
    ColumnsRange,
    SidesRange,
    SidesLate,
    NoSuchGap,
    GapRange,
    NoSuchSpan,
    WidthRange,
    NoMemory,
}

impl From<AllocError> for Wrong {
    fn from(_e: AllocError) -> Wrong {
        Wrong::NoMemory
    }
}

impl<T: Drop> From<AllocFailed<T>> for Wrong {
    fn from(_e: AllocFailed<T>) -> Wrong {
        Wrong::NoMemory
    }
}

impl fmt::Display for Wrong {
    fn fmt<W: fmt::Write>(&self, f: &mut fmt::Formatter<W>) -> fmt::Result {
        f.write_str(match self {
            Wrong::UnknownWord => "unknown word; known are columns, sides, gap and entry",
            Wrong::NumberOfWords => "too few or too many words",
            Wrong::NotANumber => "not a whole number",
            Wrong::NoColumns => "columns must come first",
            Wrong::ColumnsTwice => "columns are given already",
            Wrong::ColumnsRange => "columns are 1 to 32",
            Wrong::SidesRange => "sides are 1 or 2",
            Wrong::SidesLate => "sides must come before the entries",
            Wrong::NoSuchGap => "gaps are 0 to the number of columns",
            Wrong::GapRange => "a gap lies within 16777215 of zero",
            Wrong::NoSuchSpan => {
                "an entry goes from a column to the same or a later one of the table"
            }
            Wrong::WidthRange => "a width lies within 1073741823 of zero",
            Wrong::NoMemory => "out of memory",
        })
    }
}

// A wrong line, counted from 1. What is missing at the end is missing on the line behind the last.
#[derive(Clone, Copy, PartialEq, Eq, Debug)]
pub struct BadLine {
    pub line: usize,
    pub wrong: Wrong,
}

impl fmt::Display for BadLine {
    fn fmt<W: fmt::Write>(&self, f: &mut fmt::Formatter<W>) -> fmt::Result {
        let BadLine { line, wrong } = *self;
        write!(f, "line {line}: {wrong}")
    }
}

// Why a job is not reported to its end.
#[derive(Drop, Debug)]
pub enum Stop {
    Line(BadLine),
    Output(io::Error),
    Table(Misfit),
    NoMemory,
}

impl From<BadLine> for Stop {
    fn from(e: BadLine) -> Stop {
        Stop::Line(e)
    }
}

impl From<io::Error> for Stop {
    fn from(e: io::Error) -> Stop {
        Stop::Output(e)
    }
}

impl From<Misfit> for Stop {
    fn from(e: Misfit) -> Stop {
        Stop::Table(e)
    }
}

impl From<AllocError> for Stop {
    fn from(_e: AllocError) -> Stop {
        Stop::NoMemory
    }
}
