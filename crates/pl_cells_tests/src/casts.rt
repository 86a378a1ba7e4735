//! Tests of `pl_cells::casts`.

use crate::given::name;
use pl_cells::casts::cast_columns;
use pl_frame::column::Column;
use pl_frame::data_type::DataType;
use pl_frame::frame::DataFrame;
use pl_frame::numbers::Numbers;
use pl_frame::schema::Field;
use pl_frame::texts::Texts;
use std::alloc::Global;
use std::process::Abort;
use std::thread::Threads;

// A frame of a column.
fn frame_of(rt: &impl Abort, alloc: Global, column: Column) -> DataFrame {
    let mut columns = Vec::new(alloc);
    columns.push(column).expect(rt, "a column");
    DataFrame::new(alloc, columns).expect(rt, "a frame")
}

// A frame of one column `a` of two texts.
fn texts(rt: &impl Abort, alloc: Global) -> DataFrame {
    let mut texts = Texts::new(alloc);
    texts.push("1").expect(rt, "a text");
    texts.push("x").expect(rt, "a text");
    frame_of(rt, alloc, Column::from_string(name(rt, alloc, "a"), texts))
}

// A frame of one column `a` of a number and a null.
fn numbers(rt: &impl Abort, alloc: Global) -> DataFrame {
    let mut numbers = Numbers::new(alloc);
    numbers.push(1).expect(rt, "a number");
    numbers.push_null().expect(rt, "a null");
    frame_of(rt, alloc, Column::from_int64(name(rt, alloc, "a"), numbers))
}

// Whether the texts are cast to the numbers.
fn are_cast<W: Abort + Threads + Sync>(rt: &W, alloc: Global, parallel: bool) -> bool {
    let mut df = texts(rt, alloc);
    let field = [Field {
        name: name(rt, alloc, "a"),
        dtype: DataType::Int64,
    }];
    cast_columns(rt, alloc, &mut df, &field, parallel, true).expect(rt, "a cast");
    drop(field);
    df.equals(&numbers(rt, alloc))
}

#[test]
fn a_text_without_a_value_becomes_null(rt: HostRuntime) {
    assert!(rt; are_cast(&rt, rt.alloc(), false));
    assert!(rt; are_cast(&rt, rt.alloc(), true));
}
