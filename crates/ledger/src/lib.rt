//! What a table is: its templates, its room and its ledger, and what each call makes of them.
#![tactic(auto)]

pub mod records;
pub mod sums;
