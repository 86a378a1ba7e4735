//! Tests of `pl_multi::scan`.

use pl_frame::column::Column;
use pl_frame::data_type::DataType;
use pl_frame::error::{ComputeFault, FaultKind, PolarsError};
use pl_frame::frame::DataFrame;
use pl_frame::name::PlSmallStr;
use pl_frame::opener::MemOpener;
use pl_frame::schema::Schema;
use pl_multi::hive::hive_values;
use pl_multi::part::Part;
use pl_multi::scan::{MultiFault, scan_multi};
use pl_options::read_options::CsvReadOptions;
use std::alloc::Global;
use std::process::Abort;
use std::sync::Wait;
use std::thread::Threads;

const FILES: [(&str, &[u8]); 5] = [
    ("f0", b"a\n1\n"),
    ("f1", b"a\n2\n"),
    ("f2", b"a\n3\n"),
    ("bad", b"a\nx\n"),
    ("y=2024/m=1/f0", b"a\n1\n"),
];

fn name(rt: &impl Abort, alloc: Global, text: &str) -> PlSmallStr {
    PlSmallStr::from_str(alloc, text).expect(rt, "a name")
}

// The parts at these paths.
fn parts(rt: &impl Abort, alloc: Global, paths: &[&str]) -> Vec<Part> {
    let mut parts = Vec::new(alloc);
    for path in paths {
        let values = hive_values(alloc, path).expect(rt, "values");
        let path = name(rt, alloc, path);
        parts.push(Part { path, values }).expect(rt, "a part");
    }
    parts
}

// What the files at these paths mean under a schema of one column `a` of whole numbers.
fn scan<W: Threads + Wait + Sync + Abort>(
    rt: &W,
    alloc: Global,
    paths: &[&str],
    slice: Option<(usize, usize)>,
) -> Result<DataFrame, MultiFault> {
    let mut schema = Schema::new(alloc);
    let added = schema.with_column(name(rt, alloc, "a"), DataType::Int64);
    drop(added.expect(rt, "a column"));
    let read = CsvReadOptions::new(alloc).with_schema(Some(schema));
    let mut opener = MemOpener::new(&FILES);
    let parts = parts(rt, alloc, paths);
    let scanned = scan_multi(rt, alloc, &mut opener, &parts, &read, slice);
    drop(read);
    scanned
}

// A frame of these columns.
fn frame(rt: &impl Abort, alloc: Global, columns: Vec<Column>) -> DataFrame {
    assert!(rt; DataFrame::have_one_height(&columns));
    DataFrame::new(alloc, columns).expect(rt, "a frame")
}

// The column `a` of these numbers, as the only one of a list.
fn numbers(rt: &impl Abort, alloc: Global, given: &[i128]) -> Vec<Column> {
    let mut values = Vec::new(alloc);
    for number in given {
        values.push(Some(*number)).expect(rt, "a number");
    }
    let column = Column::whole(alloc, name(rt, alloc, "a"), DataType::Int64, values);
    let mut columns = Vec::new(alloc);
    let pushed = columns.push(column.expect(rt, "a column"));
    pushed.expect(rt, "a column");
    columns
}

// Puts a column of one text at the end.
fn add_text(rt: &impl Abort, alloc: Global, columns: &mut Vec<Column>, title: &str, text: &str) {
    let mut values = Vec::new(alloc);
    let text = name(rt, alloc, text);
    values.push(Some(text)).expect(rt, "a text");
    let column = Column::text(alloc, name(rt, alloc, title), DataType::String, values);
    columns
        .push(column.expect(rt, "a column"))
        .expect(rt, "a column");
}

#[test]
fn rows_stand_in_the_order_of_the_files(rt: HostRuntime) {
    let alloc = rt.alloc();
    let read = scan(&rt, alloc, &["f0", "f1", "f2"], Some((1, 3))).expect(&rt, "a frame");
    assert!(rt; read == frame(&rt, alloc, numbers(&rt, alloc, &[2, 3])));
}

#[test]
fn a_file_behind_the_slice_is_not_judged(rt: HostRuntime) {
    let alloc = rt.alloc();
    let read = scan(&rt, alloc, &["f0", "bad"], Some((0, 1))).expect(&rt, "a frame");
    assert!(rt; read == frame(&rt, alloc, numbers(&rt, alloc, &[1])));
    let refused = scan(&rt, alloc, &["f0", "bad"], Some((1, 2)));
    assert!(rt;
        matches!(
            &refused,
            Err(MultiFault::Part {
                part: 1,
                fault: PolarsError::ComputeError(ComputeFault::Record {
                    row: 0,
                    column: 0,
                    kind: FaultKind::Value
                })
            })
        )
    );
    drop(refused);
}

#[test]
fn values_of_the_path_stand_behind_each_row(rt: HostRuntime) {
    let alloc = rt.alloc();
    let read = scan(&rt, alloc, &["y=2024/m=1/f0"], None).expect(&rt, "a frame");
    let mut columns = numbers(&rt, alloc, &[1]);
    add_text(&rt, alloc, &mut columns, "y", "2024");
    add_text(&rt, alloc, &mut columns, "m", "1");
    assert!(rt; read == frame(&rt, alloc, columns));
}

#[test]
fn without_files_there_are_columns_and_no_rows(rt: HostRuntime) {
    let alloc = rt.alloc();
    let read = scan(&rt, alloc, &[], None).expect(&rt, "a frame");
    assert!(rt; read == frame(&rt, alloc, numbers(&rt, alloc, &[])));
}
