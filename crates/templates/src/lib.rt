//! Preambles: a text with a template for each column, read into memory that the host lends.
#![tactic(auto)]

mod columns;
mod items;
mod kinds;
pub mod memory;
pub mod read;
mod steps;
mod writes;

pub use memory::{Read, Templates};
pub use read::read_preamble;
