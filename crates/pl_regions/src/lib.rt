//! Data cut into regions whose rows are read and printed apart from one another, and the front of the data that comes of them.
#![tactic(auto)]

pub mod arriving;
mod beside;
mod cutting;
pub mod first_rows;
pub mod front;
mod in_line;
mod in_turn;
mod kept;
mod limits;
mod line;
pub mod printing;
mod ranges;
mod region;
mod rounds;
mod taken;
mod taking;
pub mod texts;
