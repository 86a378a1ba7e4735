//! What C, Python and Rust can call: each export calls proved code and states its clauses again. What its caller has to keep, which
//! nothing proves, stands in the header `c/pl_csv.h`.
#![tactic(auto)]

pub mod alone;
pub mod arrays;
pub mod bytes;
mod codes;
pub mod counting;
mod fault;
mod frame_text;
pub mod given;
pub mod growing;
mod handing;
mod host_cells;
pub mod host_column;
mod host_made;
mod host_type;
pub mod kept;
pub mod kinds;
pub mod part;
pub mod pieces;
mod put_cells;
mod put_texts;
pub mod reading;
pub mod schema;
mod schema_text;
pub mod starting;
pub mod straight;
pub mod summarizing;
pub mod type_numbers;
pub mod views;
pub mod writing;
