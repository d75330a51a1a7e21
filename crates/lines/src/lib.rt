//! Lines of a table, read from text.
#![tactic(auto)]

mod acts;
mod cells;
mod guard;
mod noalign;
pub mod read;
mod row;
mod steps;

pub use read::read_line;
