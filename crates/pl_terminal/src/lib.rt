//! What goes to a terminal: texts into which nothing comes that could steer it, the word that is nearest to another, and how far a run has come.
#![tactic(auto)]

pub mod adapters;
pub mod message;
pub mod nearest;
pub mod progress;
pub mod watch;
