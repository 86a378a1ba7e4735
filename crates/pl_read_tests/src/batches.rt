//! Tests of `pl_read::batched_reader`. Readers go to `drop`: one that is dropped where it stands makes the proof of its test long.
use crate::given::add;
use pl_frame::column::Value;
use pl_frame::data_type::DataType;
use pl_frame::error::{ComputeFault, FaultKind, PolarsError, PolarsResult};
use pl_frame::frame::DataFrame;
use pl_frame::schema::Schema;
use pl_frame::source::{MemSource, PipeSource};
use pl_options::read_options::CsvReadOptions;
use pl_read::batched_reader::OwnedBatchedCsvReader;
use pl_read::bytes_reader::MmapBytesReader;
use pl_read::csv_reader::{CsvReader, to_batched_owned};
use std::alloc::Global;
use std::process::Abort;
use std::sync::Wait;
use std::thread::Threads;

// A column `a` of whole numbers and a column `b` of strings.
fn two_names(rt: &impl Abort, alloc: Global) -> Schema {
    let mut schema = Schema::new(alloc);
    add(rt, alloc, &mut schema, "a", DataType::Int64);
    add(rt, alloc, &mut schema, "b", DataType::String);
    schema
}

// A reader of these columns, in pieces of one line.
fn reader_of<R: MmapBytesReader>(rt: &impl Abort, alloc: Global, source: R) -> CsvReader<R> {
    let options = CsvReadOptions::new(alloc).with_schema(Some(two_names(rt, alloc)));
    CsvReader::with_options(alloc, source, options.with_chunk_size(1))
}

const TWO_ROWS: &[u8] = b"a,b\n1,x\n2,\n";

// Whether a frame is a row of this number and this text.
fn is_row(frame: &DataFrame, number: i128, text: Value<'_>) -> bool {
    match frame.columns() {
        [a, b] if a.len() == 1 && b.len() == 1 => {
            a.get(0) == Value::Whole(number) && b.get(0) == text
        }
        _ => false,
    }
}

// Whether these are the rows 1, x and 2 with a null.
fn are_two_rows(frames: &[DataFrame]) -> bool {
    match frames {
        [first, second] => is_row(first, 1, Value::Text("x")) && is_row(second, 2, Value::Null),
        _ => false,
    }
}

// Whether no batch is given where none is asked for, then two rows, and then no more.
fn gives_two_rows<W: Abort + Threads + Wait + Sync>(
    rt: &W,
    reader: &mut OwnedBatchedCsvReader,
) -> bool {
    let none = reader.next_batches(rt, 0).expect(rt, "an answer");
    let given = reader.next_batches(rt, 9).expect(rt, "an answer");
    let frames = given.expect(rt, "batches");
    let end = reader.next_batches(rt, 9).expect(rt, "an answer");
    none.is_none() && end.is_none() && are_two_rows(&frames)
}

// Whether both readers that own the bytes of a source give all rows: one that is asked for with a schema, and one without.
fn owned_give_two_rows<W: Abort + Threads + Wait + Sync, R: MmapBytesReader + Drop>(
    rt: &W,
    alloc: Global,
    source: R,
    again: R,
) -> bool {
    let mut reader = reader_of(rt, alloc, source);
    let schema = Some(two_names(rt, alloc));
    let mut batches = reader.batched(schema).expect(rt, "a reader");
    drop(reader);
    let first = gives_two_rows(rt, &mut batches);
    drop(batches);
    let mut reader = reader_of(rt, alloc, again);
    let mut batches = to_batched_owned(&mut reader).expect(rt, "a reader");
    drop(reader);
    let second = gives_two_rows(rt, &mut batches);
    drop(batches);
    first && second
}

#[test]
fn owned_readers_give_all_rows(rt: HostRuntime) {
    let (source, again) = (MemSource::new(TWO_ROWS), MemSource::new(TWO_ROWS));
    assert!(rt; owned_give_two_rows(&rt, rt.alloc(), source, again));
    let (source, again) = (
        PipeSource::new(TWO_ROWS, 3, &[]),
        PipeSource::new(TWO_ROWS, 3, &[]),
    );
    assert!(rt; owned_give_two_rows(&rt, rt.alloc(), source, again));
}

// Whether a reader that borrows its bytes gives all rows.
fn borrowing_gives_two_rows<W: Abort + Threads + Wait + Sync, R: MmapBytesReader + Drop>(
    rt: &W,
    alloc: Global,
    source: R,
) -> bool {
    let mut reader = reader_of(rt, alloc, source);
    let mut batches = reader.batched_borrowed().expect(rt, "a reader");
    let none = batches.next_batches(rt, 0).expect(rt, "an answer");
    let given = batches.next_batches(rt, 9).expect(rt, "an answer");
    let frames = given.expect(rt, "batches");
    let end = batches.next_batches(rt, 9).expect(rt, "an answer");
    drop(batches);
    drop(reader);
    none.is_none() && end.is_none() && are_two_rows(&frames)
}

#[test]
fn borrowing_readers_give_all_rows(rt: HostRuntime) {
    assert!(rt; borrowing_gives_two_rows(&rt, rt.alloc(), MemSource::new(TWO_ROWS)));
    assert!(rt; borrowing_gives_two_rows(&rt, rt.alloc(), PipeSource::new(TWO_ROWS, 3, &[])));
}

// Whether there are so many frames, of which the last one is this row.
fn end_with(frames: &[DataFrame], count: usize, number: i128, text: Value<'_>) -> bool {
    match frames {
        [.., last] => frames.len() == count && is_row(last, number, text),
        [] => false,
    }
}

// A quote in a plain field, and then a line end within quotes.
const ODD_QUOTE: &[u8] = b"a,b\n1,x\n2,y\"z\n3,\"c\nd\"\n";

#[test]
fn a_quote_in_a_plain_field_leaves_batches_short(rt: HostRuntime) {
    let mut reader = reader_of(&rt, rt.alloc(), MemSource::new(ODD_QUOTE));
    let mut batches = reader.batched_borrowed().expect(&rt, "a reader");
    let given = batches.next_batches(&rt, 2).expect(&rt, "an answer");
    let frames = given.expect(&rt, "batches");
    assert!(rt; end_with(&frames, 2, 2, Value::Text("y\"z")));
    let given = batches.next_batches(&rt, 2).expect(&rt, "an answer");
    let frames = given.expect(&rt, "batches");
    assert!(rt; end_with(&frames, 1, 3, Value::Text("c\nd")));
    drop(batches);
    drop(reader);
}

#[test]
fn a_source_that_fails_has_no_batches(rt: HostRuntime) {
    let mut reader = reader_of(&rt, rt.alloc(), PipeSource::new(TWO_ROWS, 1, &[0]));
    let failed = reader.batched_borrowed();
    assert!(rt; matches!(failed, Err(PolarsError::IO)));
    drop(failed);
    drop(reader);
}

// Whether this is the fault of the first cell of the second row.
fn is_misfit(answer: PolarsResult<Option<Vec<DataFrame>>>) -> bool {
    let is_misfit = matches!(
        &answer,
        Err(PolarsError::ComputeError(ComputeFault::Record {
            row: 1,
            column: 0,
            kind: FaultKind::Value,
        }))
    );
    drop(answer);
    is_misfit
}

#[test]
fn a_fault_is_answered_again_and_again(rt: HostRuntime) {
    let mut reader = reader_of(&rt, rt.alloc(), MemSource::new(b"a,b\n5,x\ny,z\n"));
    let mut batches = reader.batched_borrowed().expect(&rt, "a reader");
    let given = batches.next_batches(&rt, 1).expect(&rt, "an answer");
    let frames = given.expect(&rt, "batches");
    assert!(rt; end_with(&frames, 1, 5, Value::Text("x")));
    assert!(rt; is_misfit(batches.next_batches(&rt, 1)));
    for _ in 0..3 {
        assert!(rt; is_misfit(batches.next_batches(&rt, 0)));
        assert!(rt; is_misfit(batches.next_batches(&rt, 1)));
    }
    drop(batches);
    drop(reader);
}
