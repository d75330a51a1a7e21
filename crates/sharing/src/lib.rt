//! How a surplus is shared: the gaps as they are set, and the columns between them.
#![tactic(auto)]

pub mod columns;
pub mod gaps;
pub mod laws;
pub mod rule;

use lengths::order::Order;

/// A gap on one side: its natural length as it enters there, and its stretch.
#[derive(Clone, Copy, PartialEq, Eq, Debug)]
pub struct SideGap {
    pub natural: i64,
    pub stretch: i64,
    pub order: Order,
}

/// The width that a table is set to: the natural one, or one that is asked for.
#[derive(Clone, Copy, PartialEq, Eq, Debug)]
pub enum Aim {
    Natural,
    To(i64),
}

/// A column as it is set.
#[derive(Clone, Copy, PartialEq, Eq, Debug)]
pub struct Edges {
    pub left: i64,
    pub right: i64,
}
