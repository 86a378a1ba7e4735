//! What the CSV reader and writer share: types, schemas, columns and frames, the error type, and the outside as
//! sources and sinks of bytes.
#![tactic(auto)]

pub mod cast;
pub mod codes;
pub mod column;
mod column_parts;
pub mod compression;
pub mod constructors;
pub mod data_type;
mod ends;
pub mod equal;
pub mod error;
pub mod frame;
pub mod frame_columns;
pub mod frame_rows;
mod gathered;
pub mod laws;
pub mod name;
pub mod numbers;
pub mod opener;
pub mod packed;
mod packed_numbers;
mod packed_texts;
mod part;
mod parts;
pub mod places;
pub mod plain;
pub mod range;
pub mod read_all;
mod rechunk;
pub mod row_index;
mod runs;
pub mod schema;
pub mod sink;
pub mod source;
pub mod stack;
pub mod texts;
mod whole;
