//! Rows in lent memory: what lies below the fill marks, and the calls that move them.
#![tactic(auto)]

mod acts;
pub mod ahead;
mod asks;
mod begin;
mod calls;
mod columns;
pub mod draft;
mod parts;
pub mod preamble;
pub mod puts;
mod room;
pub mod rows;
pub mod spanned;
mod stages;
pub mod state;
