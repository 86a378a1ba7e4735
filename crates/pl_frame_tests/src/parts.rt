//! Columns in parts, with ample memory: packed columns are stacked, compared with the same in one piece, and put into one.
ghost use Rattle.pl_frame.specs.declared.data_type.DataType.TheVariants.{Int64, String};
ghost use Rattle.std.specs.List.{AllByRecursion};
ghost use Rattle.std.specs.Prelude.{◌≡◌};

use crate::given::{name, numbers};
use pl_frame::column::{Column, Value};
use pl_frame::data_type::DataType;
use pl_frame::frame::DataFrame;
use pl_frame::stack::Stack;
use pl_frame::texts::Texts;
use std::alloc::Global;
use std::process::Abort;

// A column of these numbers, packed.
fn packed_numbers(rt: &impl Abort, alloc: Global, values: &[i64]) -> Column
    ensures { result.dtype ≡ Int64 }
{
    let column = numbers(rt, alloc, "c", values);
    // `dtype` is called for its clause that the values are of the type.
    let _dtype = column.dtype();
    let kept = column.narrow_numbers().expect(rt, "numbers");
    let packed = Column::packed_narrow(alloc, name(rt, alloc, "c"), DataType::Int64, kept);
    let packed = packed.expect(rt, "a column");
    drop(column);
    packed
}

// Texts, with a null for each that is empty.
fn texts(rt: &impl Abort, alloc: Global, values: &[&str]) -> Texts {
    let mut texts = Texts::new(alloc);
    for value in values {
        let pushed = match value.is_empty() {
            true => texts.push_null(),
            false => texts.push(value),
        };
        pushed.expect(rt, "a text");
    }
    texts
}

// A column of such texts, packed.
fn packed_texts(rt: &impl Abort, alloc: Global, values: &[&str]) -> Column
    ensures { result.dtype ≡ String }
{
    let texts = texts(rt, alloc, values);
    let packed = Column::packed_string(alloc, name(rt, alloc, "c"), &texts);
    packed.expect(rt, "a column")
}

// Columns of one type, one behind the other.
fn stacked(rt: &impl Abort, alloc: Global, dtype: DataType, parts: [Column; 3]) -> Column
    requires { AllByRecursion (λ column. column.dtype ≡ dtype) parts }
{
    let [first, second, third] = parts;
    let mut stack = Stack::new(alloc, name(rt, alloc, "c"), dtype);
    stack.push(first).expect(rt, "room");
    stack.push(second).expect(rt, "room");
    stack.push(third).expect(rt, "room");
    stack.into_column()
}

// Whether a column in parts is the same as one in a single piece, also when it is put into one.
fn is_same(rt: &impl Abort, alloc: Global, parts: &Column, whole: &Column) -> bool {
    let plain = parts.plain(alloc, 0, parts.len()).expect(rt, "a column");
    let is_same = !parts.is_plain() && *parts == *whole && plain.is_plain() && plain == *whole;
    drop(plain);
    is_same
}

#[test]
fn numbers_in_parts_are_those_in_one_piece(rt: HostRuntime) {
    let alloc = rt.alloc();
    let first = packed_numbers(&rt, alloc, &[7, -300]);
    let last = packed_numbers(&rt, alloc, &[i64::MAX]);
    let none = packed_numbers(&rt, alloc, &[]);
    let parts = stacked(&rt, alloc, DataType::Int64, [first, none, last]);
    let whole = numbers(&rt, alloc, "c", &[7, -300, i64::MAX]);
    assert!(rt; is_same(&rt, alloc, &parts, &whole));
    assert!(rt; parts.len() == 3 && parts.get(1) == Value::Whole(-300));
    drop(parts);
    drop(whole);
}

// A frame of a column.
fn frame(rt: &impl Abort, alloc: Global, column: Column) -> DataFrame {
    let columns = vec![in alloc; column].expect(rt, "columns");
    DataFrame::new(alloc, columns).expect(rt, "a frame")
}

// Whether a frame has one column, which is in one piece and ends with this text.
fn ends_with(frame: &DataFrame, text: &str) -> bool {
    match frame.columns() {
        [column] if column.len() > 0 => {
            column.is_plain() && column.get(column.len() - 1) == Value::Text(text)
        }
        _ => false,
    }
}

#[test]
fn texts_in_parts_are_cut_and_put_into_one_piece(rt: HostRuntime) {
    let alloc = rt.alloc();
    let first = packed_texts(&rt, alloc, &["a", ""]);
    let last = packed_texts(&rt, alloc, &["é"]);
    let none = packed_texts(&rt, alloc, &[]);
    let parts = stacked(&rt, alloc, DataType::String, [first, none, last]);
    let parts = frame(&rt, alloc, parts);
    let rows = parts.slice(0, 1).expect(&rt, "a row");
    assert!(rt; ends_with(&rows, "a"));
    let whole = parts.rechunk(alloc).expect(&rt, "a frame");
    assert!(rt; ends_with(&whole, "é"));
}
