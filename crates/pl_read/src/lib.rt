//! Readers: the frame that an input means under the options of a read, or the first cause against it.
#![tactic(auto)]

mod ahead;
mod arriving;
mod batch_parts;
mod batch_ranges;
pub mod batched_reader;
pub mod bytes_reader;
pub mod checks;
pub mod chunk;
pub mod csv_reader;
mod in_turn;
pub mod indexing;
pub mod laws;
mod line;
mod linked;
pub mod named_columns;
mod next_frames;
mod nulls;
pub mod options;
pub mod preparing;
mod projecting;
pub mod reader_makers;
pub mod reading;
mod rounds;
pub mod row_test;
pub mod settle_given;
mod settling;
pub mod slices;
pub mod workers;
