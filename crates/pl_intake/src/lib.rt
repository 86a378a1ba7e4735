//! What a source gives, text by text, in cells that are each written once.
#![tactic(auto)]

pub mod cuts;
pub mod handed;
pub mod intake;
pub mod pending;
pub mod queue;
pub mod rooms;
pub mod texts;
