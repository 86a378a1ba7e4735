//! Texts cut into tables of fields, 64 bytes at a time.
#![tactic(auto)]

mod block;
mod index;
pub mod laws;
pub mod table;
