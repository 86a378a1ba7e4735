//! The options of a read, offered again from the crates that define them, so that who reads names no other crate for them.
pub use pl_cells::null_values::{NamedTexts, NullTexts, NullValues};
pub use pl_cells::utf8::CsvEncoding;
pub use pl_options::column_lists::{ColumnNames, ColumnPlaces, DataTypes, Fields};
pub use pl_options::hive_options::HiveOptions;
pub use pl_options::parse_options::CsvParseOptions;
pub use pl_options::read_options::CsvReadOptions;
pub use pl_options::reader_bytes::ReaderBytes;
pub use pl_options::row_index::RowIndex;
pub use pl_scan::comment::CommentPrefix;
