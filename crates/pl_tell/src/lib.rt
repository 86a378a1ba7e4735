//! What a person at a terminal is told: what is wrong in plain words, where, and what to do about it.
#![tactic(auto)]

pub mod fault_line;
pub mod found;
pub mod reason;
pub mod records;
pub mod sentences;
pub mod telling;
mod types;
pub mod wording;
