//! The options of a read, offered again from the crate that defines them.
pub use pl_options::column_lists::{ColumnNames, ColumnPlaces, DataTypes, Fields};
pub use pl_options::hive_options::HiveOptions;
pub use pl_options::parse_options::CsvParseOptions;
pub use pl_options::read_options::CsvReadOptions;
pub use pl_options::reader_bytes::ReaderBytes;
pub use pl_options::row_index::RowIndex;
