//! The words of the command line: what they mean for the reading of an input and for the writing of its frame.
#![tactic(auto)]

mod arguments;
mod column_words;
mod from_text;
pub mod job;
mod make_words;
mod null_words;
mod option_values;
mod parts;
mod read_words;
pub mod schema_text;
pub mod splitting;
mod type_text;
pub mod words;
mod write_words;
