//! Frames that are written.

use pl_frame::error::PolarsResult;
use pl_frame::frame::DataFrame;
use pl_frame::sink::Sink;
use pl_write::csv_writer::{CsvWriter, SerWriter};
use std::alloc::Global;
use std::thread::Threads;

/// Writes a frame with semicolons.
pub fn write_a_frame<W: Threads + Sync, S: Sink>(
    rt: &W,
    alloc: Global,
    frame: &DataFrame,
    sink: &mut S,
) -> PolarsResult<()> {
    let mut writer = CsvWriter::new(alloc, sink)?.with_separator(b';');
    let written = writer.finish(rt, frame);
    drop(writer);
    written
}
