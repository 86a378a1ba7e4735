//! Text to text: an input is read and written under other options.

use crate::reading::orders;
use pl_csv::convert_source::convert_source;
use pl_csv::transcode::transcode;
use pl_frame::error::PolarsResult;
use pl_frame::frame::DataFrame;
use pl_frame::sink::Sink;
use pl_frame::source::Source;
use pl_write::options::CsvWriterOptions;
use std::alloc::Global;
use std::sync::Wait;
use std::thread::Threads;

/// Writes the orders that a source gives with semicolons. Nothing is written of an input that is refused.
pub fn with_semicolons<W: Threads + Wait + Sync, So: Source, S: Sink>(
    rt: &W,
    alloc: Global,
    source: &mut So,
    sink: &mut S,
) -> PolarsResult<()> {
    let mut write = CsvWriterOptions::new(alloc)?;
    write.serialize_options.separator = b';';
    let read = orders(alloc)?;
    let answer = convert_source(rt, alloc, source, &read, &write, sink);
    drop(read);
    drop(write);
    answer?;
    Ok(())
}

/// Writes the orders in a text as they are, and answers their frame.
pub fn with_frame<W: Threads + Wait + Sync, S: Sink>(
    rt: &W,
    alloc: Global,
    text: &[u8],
    sink: &mut S,
) -> PolarsResult<DataFrame> {
    let write = CsvWriterOptions::new(alloc)?;
    let read = orders(alloc)?;
    let frame = transcode(rt, alloc, text, &read, &write, sink);
    drop(read);
    drop(write);
    frame
}
