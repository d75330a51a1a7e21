//! A table set to a width: its lines one below the other, and the boxes of its words and rules.
#![tactic(auto)]

mod entry;
pub mod laws;
mod lines;
mod pen;
mod row;
pub mod set;
mod source;

/// What set answers: the width, the total height and the number of boxes.
#[derive(Clone, Copy, PartialEq, Eq, Debug)]
pub struct Laid {
    pub width: i64,
    pub height: i64,
    pub boxes: usize,
}
