//! What the words of a run over an index ask for.
use pl_frame::name::PlSmallStr;
use pl_options::read_options::CsvReadOptions;
use pl_write::options::CsvWriterOptions;

/// What is asked for.
#[derive(Debug, Drop)]
pub enum SeekJob {
    /// The bytes of the index of the input at a path, whose groups are of so many records.
    Build {
        every: usize,
        path: PlSmallStr,
        read: CsvReadOptions,
    },
    /// The text of at most so many records from one on, of the input at a path, which the index at another path is bound to.
    Slice {
        start: usize,
        count: usize,
        path: PlSmallStr,
        index_path: PlSmallStr,
        read: CsvReadOptions,
        write: CsvWriterOptions,
    },
}
