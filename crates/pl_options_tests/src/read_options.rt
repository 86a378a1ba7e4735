//! Tests of `pl_options::read_options`. Options go to `drop`: those that are dropped where they stand make the proof of their function long.

use crate::given::{name, one, one_column};
use pl_frame::data_type::DataType;
use pl_options::column_lists::{ColumnNames, ColumnPlaces, DataTypes};
use pl_options::parse_options::CsvParseOptions;
use pl_options::read_options::CsvReadOptions;
use pl_options::row_index::RowIndex;
use std::alloc::Global;
use std::process::Abort;

// Whether options are equal to others, which are used up.
fn are_equal(options: &CsvReadOptions, others: CsvReadOptions) -> bool {
    let are_equal = *options == others;
    drop(others);
    are_equal
}

#[test]
fn a_function_changes_the_options_of_the_parse(rt: HostRuntime) {
    let options = CsvReadOptions::new(rt.alloc());
    let options = options.map_parse_options(|options| options.with_separator(b';'));
    assert!(rt; options.get_parse_options().separator == b';');
    let options = options.with_parse_options(CsvParseOptions::new());
    assert!(rt; are_equal(&options, CsvReadOptions::new(rt.alloc())));
    drop(options);
}

// Options with a value of each type of their own.
fn selective(rt: &impl Abort, alloc: Global) -> CsvReadOptions {
    let index = RowIndex {
        name: name(rt, alloc, "row"),
        offset: 7,
    };
    CsvReadOptions::new(alloc)
        .with_path(Some(name(rt, alloc, "f")))
        .with_row_index(Some(index))
        .with_columns(Some(ColumnNames::new(one(rt, alloc, name(rt, alloc, "a")))))
        .with_projection(Some(ColumnPlaces::new(one(rt, alloc, 0))))
        .with_schema(Some(one_column(rt, alloc)))
        .with_schema_overwrite(Some(one_column(rt, alloc)))
        .with_dtype_overwrite(Some(DataTypes::new(one(rt, alloc, DataType::Date))))
}

#[test]
fn a_copy_has_what_was_set(rt: HostRuntime) {
    let options = selective(&rt, rt.alloc());
    let copy = options.try_clone().expect(&rt, "a copy");
    assert!(rt; are_equal(&options, copy));
    drop(options);
}
