//! Frames that are read and written batch by batch.

use crate::reading::orders;
use pl_frame::error::PolarsResult;
use pl_frame::frame::DataFrame;
use pl_frame::schema::Schema;
use pl_frame::sink::Sink;
use pl_frame::source::MemSource;
use pl_read::batched_reader::OwnedBatchedCsvReader;
use pl_read::reader_makers::ReaderMakers;
use pl_write::batched_writer::BatchedWriter;
use pl_write::csv_writer::{CsvWriter, SerWriter};
use std::alloc::Global;
use std::sync::Wait;
use std::thread::Threads;

/// A reader of the orders of a text in batches.
pub fn orders_in_batches(alloc: Global, text: &[u8]) -> PolarsResult<OwnedBatchedCsvReader> {
    let options = orders(alloc)?.with_chunk_size(65536);
    let mut reader = options.into_reader_with_file_handle(alloc, MemSource::new(text));
    let batches = reader.batched(None);
    drop(reader);
    batches
}

/// The number of rows in all batches that are left.
pub fn count_in_batches<W: Threads + Wait + Sync>(
    rt: &W,
    batches: &mut OwnedBatchedCsvReader,
) -> PolarsResult<usize> {
    let mut rows: usize = 0;
    while let Some(frames) = batches.next_batches(rt, 8)? {
        let heights = frames.iter().map(|frame| frame.height());
        rows = heights.fold(rows, |rows, height| rows.saturating_add(height));
    }
    Ok(rows)
}

/// The number of rows in all batches of the orders of a text.
pub fn count_orders<W: Threads + Wait + Sync>(
    rt: &W,
    alloc: Global,
    text: &[u8],
) -> PolarsResult<usize> {
    let mut batches = orders_in_batches(alloc, text)?;
    let rows = count_in_batches(rt, &mut batches);
    drop(batches);
    rows
}

// Writes each of the frames that has the names and types of the writer, and finishes.
fn write_each<W: Threads + Sync, S: Sink + Drop>(
    rt: &W,
    writer: &mut BatchedWriter<S>,
    batches: &[DataFrame],
) -> PolarsResult<()> {
    for batch in batches {
        if writer.fits(batch) {
            writer.write_batch(rt, batch)?;
        }
    }
    writer.finish()
}

/// Writes frames of one schema one after the other.
pub fn write_in_batches<W: Threads + Sync, S: Sink + Drop>(
    rt: &W,
    alloc: Global,
    schema: &Schema,
    batches: &[DataFrame],
    sink: S,
) -> PolarsResult<()> {
    let mut writer = CsvWriter::new(alloc, sink)?.batched(schema)?;
    let written = write_each(rt, &mut writer, batches);
    drop(writer);
    written
}
