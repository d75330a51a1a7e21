//! Lengths and stretches as a manuscript spells them, in 65,536ths of a point.
#![tactic(auto)]

mod amount;
mod digits;
mod dimen;
mod fraction;
pub mod gap;
pub mod glue;
pub mod length;
pub mod order;
pub mod samples;
mod spelled;
