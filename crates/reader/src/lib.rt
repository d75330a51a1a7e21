//! Reading: the classes of the bytes and the tokens of a text.
#![tactic(auto)]

pub mod classes;
pub mod text;
pub mod tokens;
