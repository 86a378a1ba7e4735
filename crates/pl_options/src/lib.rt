//! How an input is read: the options of a reader, and the bytes that it reads.
#![tactic(auto)]

pub mod column_lists;
pub mod hive_options;
pub mod parse_options;
pub mod put;
pub mod read_options;
pub mod reader_bytes;
pub mod row_index;
mod try_clone;
