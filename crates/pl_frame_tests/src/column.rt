//! Columns of each kind with ample memory: they are copied, and cast to another type and back. Columns go to `drop`: one that is dropped where
//! it stands makes the proof of its function long.

use crate::given::{name, names};
use pl_frame::codes::CodesBuilder;
use pl_frame::column::Column;
use pl_frame::data_type::{Categories, DataType};
use pl_frame::numbers::Numbers;
use pl_frame::texts::Texts;
use std::alloc::Global;
use std::process::Abort;

// The number 7 and a null.
fn numbers(rt: &impl Abort, alloc: Global) -> Column {
    let mut numbers = Numbers::new(alloc);
    numbers.push(7).expect(rt, "a number");
    numbers.push_null().expect(rt, "a null");
    numbers.push(9).expect(rt, "a number");
    numbers.truncate(2);
    Column::from_int64(name(rt, alloc, "n"), numbers)
}

// The texts n and a null.
fn texts(rt: &impl Abort, alloc: Global) -> Column {
    let mut texts = Texts::new(alloc);
    texts.push("n").expect(rt, "a text");
    texts.push_null().expect(rt, "a null");
    Column::from_string(name(rt, alloc, "n"), texts)
}

// The same as codes.
fn categories(rt: &impl Abort, alloc: Global) -> Column {
    let mut texts = CodesBuilder::new(alloc);
    texts.push("n").expect(rt, "a text");
    texts.push_null().expect(rt, "a null");
    texts.push("x").expect(rt, "a text");
    texts.truncate(2);
    Column::from_categories(name(rt, alloc, "n"), texts.into_codes())
}

// An enum of one category.
fn enumeration(rt: &impl Abort, alloc: Global) -> DataType {
    DataType::Enum(Some(Categories::new(names(rt, alloc, &["n"]))))
}

// A column under another type.
fn cast(rt: &impl Abort, alloc: Global, column: Column, to: &DataType) -> Column {
    assert!(rt; column.dtype().casts_to(to));
    let cast = column.cast(alloc, to).expect(rt, "a cast");
    drop(column);
    cast
}

// A column that is its copy, and that another type and its own again leave as it is.
fn goes_and_comes(rt: &impl Abort, alloc: Global, column: Column, to: DataType) {
    let copy = column.try_clone().expect(rt, "a copy");
    let there = cast(rt, alloc, copy, &to);
    let back = cast(rt, alloc, there, column.dtype());
    assert!(rt; back == column);
    drop(back);
    drop(column);
    drop(to);
}

#[test]
fn columns_are_copied_and_cast(rt: HostRuntime) {
    let alloc = rt.alloc();
    goes_and_comes(&rt, alloc, numbers(&rt, alloc), DataType::Int128);
    goes_and_comes(&rt, alloc, categories(&rt, alloc), DataType::String);
    goes_and_comes(&rt, alloc, texts(&rt, alloc), enumeration(&rt, alloc));
}
