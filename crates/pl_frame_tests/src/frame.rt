//! Each call of a frame, with ample memory.
ghost use Rattle.std.specs.Prelude.{◌≡◌, ◌∷◌, []};

use crate::given::{name, numbers};
use pl_frame::codes::CodesBuilder;
use pl_frame::column::{Column, Value};
use pl_frame::data_type::DataType;
use pl_frame::frame::DataFrame;
use pl_frame::schema::Schema;
use std::alloc::Global;
use std::process::Abort;

// A frame of a column.
fn frame(rt: &impl Abort, alloc: Global, column: Column) -> DataFrame
    ensures { result ≡ column ∷ [] }
{
    let mut columns = Vec::new(alloc);
    columns.push(column).expect(rt, "a column");
    DataFrame::new(alloc, columns).expect(rt, "a frame")
}

// A frame of a column of categories.
fn categories(rt: &impl Abort, alloc: Global, texts: &[&str]) -> DataFrame {
    let mut codes = CodesBuilder::new(alloc);
    for text in texts {
        codes.push(text).expect(rt, "a text");
    }
    let column = Column::from_categories(name(rt, alloc, "c"), codes.into_codes());
    frame(rt, alloc, column)
}

// Whether the one column of a frame has these two texts as its dictionary.
fn has_dictionary(frame: &DataFrame, first: &str, second: &str) -> bool {
    match frame.columns() {
        [column] if column.dtype().is_coded() => match column.categories() {
            [a, b] => a.as_str() == first && b.as_str() == second,
            _ => false,
        },
        _ => false,
    }
}

#[test]
fn a_number_out_of_range_is_cast_to_a_null(rt: HostRuntime) {
    let alloc = rt.alloc();
    let mut rows = frame(&rt, alloc, numbers(&rt, alloc, "a", &[300]));
    rows.cast(0, &DataType::UInt8).expect(&rt, "a cast");
    assert!(rt;
        matches!(rows.columns(), [column] if column.len() == 1 && column.null_count() == 1)
    );
}

#[test]
fn dictionaries_follow_the_rows(rt: HostRuntime) {
    let alloc = rt.alloc();
    let mut stacked = categories(&rt, alloc, &["q"]);
    let other = categories(&rt, alloc, &["p", "q"]);
    assert!(rt; stacked.has_same_columns(&other));
    stacked.vstack(&other).expect(&rt, "three rows");
    assert!(rt; has_dictionary(&stacked, "q", "p"));
    let part = stacked.slice(1, 5).expect(&rt, "two rows");
    assert!(rt; has_dictionary(&part, "p", "q"));
}

#[test]
fn rows_are_chosen_by_flags(rt: HostRuntime) {
    let alloc = rt.alloc();
    let rows = frame(&rt, alloc, numbers(&rt, alloc, "a", &[1, 2]));
    assert!(rt; rows.height() == 2);
    let kept = rows.filter_rows(&[false, true]).expect(&rt, "a row");
    assert!(rt; kept.equals(&frame(&rt, alloc, numbers(&rt, alloc, "a", &[2]))));
    assert!(rt; kept.into_columns().len() == 1);
}

// Whether these are a column `a` and behind it a column `n` of 7 and 8.
fn is_swapped(columns: &[Column]) -> bool {
    match columns {
        [first, second] if second.len() == 2 => {
            let names = first.name() == "a" && second.name() == "n";
            names && second.get(0) == Value::Whole(7) && second.get(1) == Value::Whole(8)
        }
        _ => false,
    }
}

#[test]
fn rows_are_numbered_and_columns_swapped(rt: HostRuntime) {
    let alloc = rt.alloc();
    let mut rows = frame(&rt, alloc, numbers(&rt, alloc, "a", &[1, 2]));
    let numbered = rows.with_row_index(name(&rt, alloc, "n"), 7);
    numbered.expect(&rt, "a row index");
    assert!(rt; rows.width() == 2 && rows.height() == 2);
    let swapped = rows.select(&[1, 0]).expect(&rt, "both columns");
    assert!(rt; is_swapped(swapped.columns()));
}

#[test]
fn a_schema_has_columns_without_rows(rt: HostRuntime) {
    let alloc = rt.alloc();
    let mut schema = Schema::new(alloc);
    let added = schema.with_column(name(&rt, alloc, "a"), DataType::Int64);
    drop(added.expect(&rt, "a column"));
    let empty = DataFrame::empty_with_schema(alloc, &schema).expect(&rt, "a frame");
    assert!(rt; empty.width() == 1 && empty.height() == 0);
}
