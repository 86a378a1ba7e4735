//! What the program is to do.
use pl_options::read_options::CsvReadOptions;
use pl_write::options::CsvWriterOptions;

/// What words ask for.
#[derive(Debug, Drop)]
pub enum Job {
    /// An input is read so, and its frame is written so.
    Convert(CsvReadOptions, CsvWriterOptions),
    /// An input of so many rows is made, and read by so many workers in pieces of about so many bytes.
    Make {
        rows: u64,
        workers: usize,
        piece: usize,
    },
}
