//! Many files read as one: under one schema, one behind the other, numbered over all, and cut to a slice.
#![tactic(auto)]

mod beside;
mod cells;
mod checking;
mod groups;
pub mod hive;
mod joining;
mod lines;
mod multi_words;
pub mod part;
mod paths;
mod printing;
mod rooms;
pub mod run;
pub mod scan;
mod settling;
mod telling;
mod values;
