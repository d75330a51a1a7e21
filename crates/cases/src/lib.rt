//! Vectors for tokens, lengths, glue, measurers, preambles and the bytes of a list, run as tests.
#![tactic(auto)]

#[cfg(test)]
mod lists;
pub mod marked;
#[cfg(test)]
mod reading;
#[cfg(test)]
mod tables;
