//! Tests of `pl_write::batched_writer`.
ghost use Rattle.std.specs.Prelude.{◌≡◌};
ghost use Rattle.pl_frame.specs.FrameParts.{stacked};

use crate::given::{frame_of, name};
use pl_frame::column::Column;
use pl_frame::data_type::DataType;
use pl_frame::error::{PolarsError, PolarsResult};
use pl_frame::frame::DataFrame;
use pl_frame::schema::Schema;
use pl_frame::sink::{MemSink, PipeSink};
use pl_write::csv_writer::{CsvWriter, SerWriter};
use pl_write::laws::batches_are_one_text;
use std::alloc::Global;
use std::process::Abort;
use std::thread::Threads;

// The schema of a column `a` of whole numbers.
fn schema(rt: &impl Abort, alloc: Global) -> Schema {
    let mut schema = Schema::new(alloc);
    let added = schema.with_column(name(rt, alloc, "a"), DataType::Int64);
    drop(added.expect(rt, "a schema"));
    schema
}

// A frame of that column with one number.
fn batch(rt: &impl Abort, alloc: Global, number: i128) -> DataFrame {
    let mut values = Vec::new(alloc);
    values.push(Some(number)).expect(rt, "a number");
    let column = Column::whole(alloc, name(rt, alloc, "a"), DataType::Int64, values);
    frame_of(rt, alloc, column.expect(rt, "a column"))
}

// Writes a batch of a number behind the head, and finishes.
fn write<W: Abort + Threads + Sync>(rt: &W, alloc: Global, sink: &mut MemSink) {
    let writer = CsvWriter::new(alloc, sink).expect(rt, "a writer");
    let batched = writer.include_bom(true).batched(&schema(rt, alloc));
    let mut writer = batched.expect(rt, "a writer");
    let batch = batch(rt, alloc, 1);
    assert!(rt; writer.fits(&batch));
    writer.write_batch(rt, &batch).expect(rt, "a batch");
    writer.finish().expect(rt, "a text");
    drop(writer);
}

#[test]
fn a_batch_stands_behind_the_head(rt: HostRuntime) {
    let mut sink = MemSink::new(rt.alloc());
    write(&rt, rt.alloc(), &mut sink);
    assert!(rt; sink.received() == "\u{FEFF}a\n1\n".as_bytes());
}

// Writes two batches, of which the sink refuses the first one.
fn write_again<W: Abort + Threads + Sync>(rt: &W, alloc: Global, sink: &mut PipeSink<'_>) {
    let writer = CsvWriter::new(alloc, sink).expect(rt, "a writer");
    let batched = writer.batched(&schema(rt, alloc));
    let mut writer = batched.expect(rt, "a writer");
    let batches = [batch(rt, alloc, 1), batch(rt, alloc, 2)];
    assert!(rt; writer.fits(&batches[0]));
    let failed = writer.write_batch(rt, &batches[0]);
    assert!(rt; matches!(&failed, Err(PolarsError::IO)));
    drop(failed);
    assert!(rt; writer.fits(&batches[1]));
    writer.write_batch(rt, &batches[1]).expect(rt, "a batch");
    drop(writer);
}

#[test]
fn a_batch_stands_behind_one_that_failed(rt: HostRuntime) {
    let mut sink = PipeSink::new(rt.alloc(), 1, &[0]);
    write_again(&rt, rt.alloc(), &mut sink);
    assert!(rt; sink.received() == b"2\n".as_slice());
}

// Puts the rows of a batch behind those of a frame.
fn stack(rt: &impl Abort, frame: &mut DataFrame, batch: &DataFrame)
    ensures { frame.new ≡ stacked frame.old batch.now }
{
    assert!(rt; frame.has_same_columns(batch));
    frame.vstack(batch).expect(rt, "a frame");
}

// Writes two batches, and their frame.
fn write_both_ways<W: Abort + Threads + Sync>(rt: &W, alloc: Global) -> PolarsResult<()> {
    let mut one = CsvWriter::new(alloc, MemSink::new(alloc)).expect(rt, "a writer");
    let writer = CsvWriter::new(alloc, MemSink::new(alloc)).expect(rt, "a writer");
    let schema = schema(rt, alloc);
    let mut batched = writer.batched(&schema).expect(rt, "a writer");
    let batches = [batch(rt, alloc, 1), batch(rt, alloc, 2)];
    let mut whole = DataFrame::empty_with_schema(alloc, &schema).expect(rt, "a frame");
    stack(rt, &mut whole, &batches[0]);
    stack(rt, &mut whole, &batches[1]);
    assert!(rt; batched.fits(&batches[0]) && batched.fits(&batches[1]));
    let written = batches_are_one_text(rt, &mut one, &mut batched, &whole, &batches);
    drop(one);
    drop(batched);
    written
}

#[test]
fn batches_and_their_frame_are_written(rt: HostRuntime) {
    write_both_ways(&rt, rt.alloc()).expect(&rt, "both texts");
}
