//! Tests of the slices of `pl_seek::bind`.

use crate::bind::options;
use crate::frames::{column, frame, name};
use crate::part::read;
use pl_frame::column::Column;
use pl_frame::error::{ComputeFault, FaultKind, PolarsError};
use pl_frame::frame::DataFrame;
use pl_options::read_options::CsvReadOptions;
use pl_options::row_index::RowIndex;
use pl_seek::bind::bind;
use pl_seek::build::build_index;
use pl_seek::fault::SeekFault;
use std::alloc::Global;
use std::process::Abort;

// A header and three records, and the same with a first one that is no number.
const NUMBERS: &[u8; 8] = b"a\n1\n2\n3\n";

const FAULTY: &[u8; 8] = b"a\nx\n2\n3\n";

// Slices of three records, by where they begin and how many records they have at most.
const SLICES: [(usize, usize); 8] = [
    (0, 1),
    (0, 2),
    (0, 3),
    (1, 1),
    (1, 2),
    (2, 1),
    (2, usize::MAX),
    (9, 1),
];

// A slice of an input under an index of groups of two records.
fn slice(
    rt: &impl Abort,
    alloc: Global,
    input: &[u8],
    read: &CsvReadOptions,
    start: usize,
    count: usize,
) -> Result<DataFrame, SeekFault> {
    let index = build_index(alloc, input, read, 2).expect(rt, "an index");
    let bound = bind(alloc, input, read, index).expect(rt, "a bound input");
    let found = bound.slice(alloc, start, count);
    drop(bound);
    found
}

#[test]
fn a_slice_is_its_records(rt: HostRuntime) {
    let read = options(&rt, rt.alloc());
    let found = slice(&rt, rt.alloc(), NUMBERS, &read, 2, 1).expect(&rt, "a frame");
    let wanted = frame(&rt, rt.alloc(), &[3]);
    assert!(rt; found == wanted);
    let found = slice(&rt, rt.alloc(), NUMBERS, &read, 9, 1).expect(&rt, "a frame");
    let wanted = frame(&rt, rt.alloc(), &[]);
    assert!(rt; found == wanted);
    drop(read);
}

#[test]
fn a_slice_judges_its_records_alone(rt: HostRuntime) {
    let read = options(&rt, rt.alloc());
    let found = slice(&rt, rt.alloc(), FAULTY, &read, 1, 2).expect(&rt, "a frame");
    let wanted = frame(&rt, rt.alloc(), &[2, 3]);
    assert!(rt; found == wanted);
    let fault = slice(&rt, rt.alloc(), FAULTY, &read, 0, 1);
    assert!(rt;
        matches!(
            fault,
            Err(SeekFault::Polars(PolarsError::ComputeError(ComputeFault::Record {
                row: 0,
                column: 0,
                kind: FaultKind::Value
            })))
        )
    );
    drop(read);
}

#[test]
fn a_slice_is_numbered_as_the_whole_input_is(rt: HostRuntime) {
    let index = RowIndex {
        name: name(&rt, rt.alloc(), "n"),
        offset: 5,
    };
    let read = options(&rt, rt.alloc()).with_row_index(Some(index));
    let found = slice(&rt, rt.alloc(), NUMBERS, &read, 1, 2).expect(&rt, "a frame");
    let mut columns = Vec::new(rt.alloc());
    let numbers = Column::row_numbers(rt.alloc(), name(&rt, rt.alloc(), "n"), 6, 2);
    let pushed = columns.push(numbers.expect(&rt, "a row index"));
    pushed.expect(&rt, "a column");
    let pushed = columns.push(column(&rt, rt.alloc(), &[2, 3]));
    pushed.expect(&rt, "a column");
    assert!(rt; DataFrame::have_one_height(&columns));
    let wanted = DataFrame::new(rt.alloc(), columns).expect(&rt, "a frame");
    assert!(rt; found == wanted);
    drop(read);
}

#[test]
fn a_slice_is_read_from_its_range_alone(rt: HostRuntime) {
    let options = options(&rt, rt.alloc());
    let index = build_index(rt.alloc(), NUMBERS, &options, 2).expect(&rt, "an index");
    let bound = bind(rt.alloc(), NUMBERS, &options, index).expect(&rt, "a bound input");
    for (start, count) in &SLICES {
        let (begin, end) = bound.range(*start, *count);
        let part = NUMBERS.get(begin..end).expect(&rt, "a part");
        let wanted = read(&rt, rt.alloc(), part, *start % 2, *count).expect(&rt, "a frame");
        let found = bound
            .slice(rt.alloc(), *start, *count)
            .expect(&rt, "a frame");
        assert!(rt; found == wanted);
    }
    drop(bound);
    drop(options);
}
