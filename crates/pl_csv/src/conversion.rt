//! How an input becomes an output.

use pl_options::read_options::CsvReadOptions;
use pl_write::options::CsvWriterOptions;

/// How an input is read, and how its frame is written.
pub(crate) struct Conversion {
    pub read: CsvReadOptions,
    pub write: CsvWriterOptions,
}

impl Drop for Conversion {
    fn drop(self) {
        let Conversion { read: _, write: _ } = self;
    }
}
