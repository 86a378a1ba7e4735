//! Records as the bytes come: a reader that keeps no more of an input than the record that is not whole yet, and writes each record as soon as its line
//! end came.
#![tactic(auto)]

mod checking;
mod cuts;
mod ending;
pub mod fault;
pub mod feeding;
mod finishing;
mod head;
mod heading;
pub mod laws;
pub mod place;
mod printing;
mod reading;
pub mod run;
mod settling;
pub mod state;
mod stepping;
pub mod streaming;
mod telling;
mod whole;
