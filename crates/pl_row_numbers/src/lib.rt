//! A number in front of each line of a text that was printed before.
#![tactic(auto)]

mod fronts;
mod line_ends;
mod numbering;
mod options;
mod writing;

pub use options::can_number;
pub use writing::write_numbered;
