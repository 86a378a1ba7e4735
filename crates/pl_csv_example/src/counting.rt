//! Rows that are counted.

use pl_csv::adapters::FsOpener;
use pl_csv::counting::count_rows;
use pl_frame::error::PolarsResult;
use std::alloc::Global;
use std::fs::Files;

/// The number of rows of a file.
pub fn count_the_rows(files: &impl Files, alloc: Global, path: &str) -> PolarsResult<usize> {
    let mut opener = FsOpener::new(files);
    let quote = Some(b'"');
    count_rows(alloc, &mut opener, path, b',', quote, None, b'\n', true)
}
