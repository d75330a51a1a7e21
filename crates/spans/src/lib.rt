//! The span table in lent memory, its rightward merge, and the natural edges of the columns.
#![tactic(auto)]

pub mod edges;
pub mod merge;
pub mod settle;
pub mod table;
