//! Measurers: the width, height and depth of a word, and the width of a space.
#![tactic(auto)]

pub mod measurer;
pub mod mono;
pub mod twin;
pub mod words;

pub use measurer::{Measurer, Metrics};
pub use mono::Mono;
pub use twin::TwinMeasurer;
pub use words::measured;
