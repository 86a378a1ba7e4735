//! Tests of `pl_write::serializer`.

use crate::given::{name, numbers};
use pl_frame::column::Column;
use pl_frame::data_type::DataType;
use pl_write::options::{QuoteStyle, SerializeOptions};
use pl_write::serializer::Serializer;
use std::process::Abort;

// Puts two cells behind a text, the second one under another style.
fn serialize_two(
    rt: &impl Abort,
    column: &Column,
    text: &mut Vec<u8>,
    options: &mut SerializeOptions,
) {
    let mut cells = Serializer::new(column);
    assert!(rt; cells.len() == 2);
    cells.serialize(text, options).expect(rt, "a cell");
    options.quote_style = QuoteStyle::Always;
    assert!(rt; cells.len() == 1);
    cells.serialize(text, options).expect(rt, "a cell");
    assert!(rt; cells.len() == 0);
}

#[test]
fn cells_come_one_by_one(rt: HostRuntime) {
    let alloc = rt.alloc();
    let column = numbers(&rt, alloc, DataType::Int8, &[Some(-1), None]);
    let mut options = SerializeOptions::new(alloc).expect(&rt, "options");
    options.null = name(&rt, alloc, "NA");
    let mut text = Vec::from_slice(alloc, b"x").expect(&rt, "a text");
    serialize_two(&rt, &column, &mut text, &mut options);
    drop(column);
    assert!(rt; text.as_slice() == b"x-1\"NA\"".as_slice());
}
