//! What a column that is being read is called, and how its texts are read.

use crate::utf8::CsvEncoding;
use pl_frame::name::PlSmallStr;

/// The name of a column, and how its texts are read.
#[derive(Drop)]
pub struct ColumnSettings {
    pub name: PlSmallStr,
    /// The quote, if there is one.
    pub quote_char: Option<u8>,
    pub encoding: CsvEncoding,
}
