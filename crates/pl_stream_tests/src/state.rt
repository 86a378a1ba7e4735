//! Tests of `pl_stream::state`.

use crate::words::words_of;
use pl_frame::error::{ComputeFault, OpFault, PolarsError};
use pl_frame::schema::Schema;
use pl_options::read_options::CsvReadOptions;
use pl_stream::fault::StreamFault;
use pl_stream::state::StreamState;
use pl_words::job::Job;
use pl_words::words::parse_words;
use pl_write::options::CsvWriterOptions;
use std::alloc::Global;
use std::process::Abort;

// Words, with blanks between them, and what a state under their options is.
const ROWS: [(&str, &str); 15] = [
    ("--schema a:int64,b:string --no-header", "made"),
    ("--sep x22", "no schema"),
    ("--schema a:int64 --sep x22 --workers 0", "dialect"),
    ("--schema a:int64 --workers 0 --out-quote xFF", "option"),
    ("--schema a:int64 --columns b --out-quote xFF", "quote"),
    ("--schema a:null,b:category --columns c", "type of column 0"),
    (
        "--schema a:int64,b:category --columns c",
        "column not found",
    ),
    (
        "--schema a:int64,b:category --null-of c=x",
        "column not found",
    ),
    (
        "--schema a:int64,b:category --projection 2,1,1",
        "out of bounds",
    ),
    ("--schema a:int64,b:category --projection 1,1", "duplicate"),
    ("--schema a:int64,b:category --row-index b", "duplicate"),
    (
        "--schema a:int64,b:category,c:category",
        "categories in column 1",
    ),
    ("--schema a:int64,b:category --projection 0", "made"),
    (
        "--schema a:category,b:category --columns b",
        "categories in column 1",
    ),
    ("--schema a:category,b:int64 --columns b", "made"),
];

// What a cause against options is called.
fn name_of_error(fault: &PolarsError) -> &'static str {
    match fault {
        PolarsError::InvalidOperation(OpFault::Dialect) => "dialect",
        PolarsError::InvalidOperation(OpFault::Option) => "option",
        PolarsError::ComputeError(ComputeFault::Quote) => "quote",
        PolarsError::ComputeError(ComputeFault::Dtype { column: 0 }) => "type of column 0",
        PolarsError::ColumnNotFound(_) => "column not found",
        PolarsError::OutOfBounds { .. } => "out of bounds",
        PolarsError::Duplicate { .. } => "duplicate",
        _ => "another error",
    }
}

// What came of making a state.
fn name_of(made: &Result<StreamState, StreamFault>) -> &'static str {
    match made {
        Ok(state) if state.held() == 0 && !state.finished() => "made",
        Err(StreamFault::NoSchema) => "no schema",
        Err(StreamFault::Polars(fault)) => name_of_error(fault),
        Err(StreamFault::Category { column: 1 }) => "categories in column 1",
        Err(StreamFault::NoColumn) => "no column",
        _ => "another answer",
    }
}

// What a state under these words is.
fn name_under(rt: &impl Abort, alloc: Global, text: &str) -> &'static str {
    let words = words_of(rt, alloc, text);
    match parse_words(alloc, &words) {
        Ok(Job::Convert(read, write)) => {
            let made = StreamState::new(alloc, &read, &write);
            let name = name_of(&made);
            drop(made);
            drop(read);
            drop(write);
            name
        }
        _ => "no options",
    }
}

#[test]
fn each_state_is_made_or_refused(rt: HostRuntime) {
    for (words, name) in &ROWS {
        assert!(rt; name_under(&rt, rt.alloc(), words) == *name);
    }
}

#[test]
fn a_schema_of_no_columns_is_refused(rt: HostRuntime) {
    let read = CsvReadOptions::new(rt.alloc()).with_schema(Some(Schema::new(rt.alloc())));
    let write = CsvWriterOptions::new(rt.alloc()).expect(&rt, "options");
    let made = StreamState::new(rt.alloc(), &read, &write);
    assert!(rt; name_of(&made) == "no column");
    drop(made);
    drop(read);
    drop(write);
}
