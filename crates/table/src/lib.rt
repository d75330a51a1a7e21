//! The table: a preamble, rows by calls, rules, gaps, and the widths of the columns.
#![tactic(auto)]

pub mod asks;
pub mod cells;
pub mod line;
pub mod make;
pub mod puts;
pub mod row_calls;
pub mod rules;
pub mod set;
pub mod table;
pub mod texts;
pub mod work;
