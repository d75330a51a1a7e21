//! What the words of a line spell.
use hex::FromHexError;
use std::alloc::{AllocError, Global};

// Why a line is not read.
#[derive(Clone, Copy, PartialEq, Eq, Debug)]
pub enum Unread {
    BadInput,
    NoMemory,
}

impl From<AllocError> for Unread {
    fn from(_e: AllocError) -> Unread {
        Unread::NoMemory
    }
}

impl From<FromHexError> for Unread {
    fn from(e: FromHexError) -> Unread {
        match e {
            FromHexError::OutOfMemory => Unread::NoMemory,
            _ => Unread::BadInput,
        }
    }
}

// The words of a line, which spaces part.
pub(crate) fn words(heap: Global, line: &[u8]) -> Result<Vec<&[u8]>, AllocError> {
    line.split(|b| *b == b' ')
        .filter(|word| !word.is_empty())
        .collect(heap)
}

// An optional minus, and 1 to 18 digits.
pub(crate) fn number(word: &[u8]) -> Result<i64, Unread> {
    let digits = word.strip_prefix(b"-").unwrap_or(word);
    if !(1..=18).contains(&digits.len()) || !digits.iter().all(|d| d.is_ascii_digit()) {
        return Err(Unread::BadInput);
    }
    let text = std::str::from_utf8(word).map_err(|_| Unread::BadInput)?;
    text.parse().map_err(|_| Unread::BadInput)
}

// A number from zero up.
pub(crate) fn count(word: &[u8]) -> Result<usize, Unread> {
    usize::try_from(number(word)?).map_err(|_| Unread::BadInput)
}

// The number of one among things that are counted from 1. A number below zero is as good as zero: there is none of either.
pub(crate) fn ordinal(word: &[u8]) -> Result<usize, Unread> {
    Ok(usize::try_from(number(word)?).unwrap_or(0))
}

// Two digits for each byte.
pub(crate) fn hex(heap: Global, digits: &[u8]) -> Result<Vec<u8>, Unread> {
    Ok(hex::decode(heap, digits)?)
}
