// How symbols, words and command lines are written.
#![tactic(auto)]

pub mod command;
pub mod symbol;
pub mod word;
