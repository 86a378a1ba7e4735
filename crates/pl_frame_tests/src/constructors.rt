//! Tests of `pl_frame::constructors`: a column of each kind. Columns go to `drop`, as in `column.rt`.

use crate::given::{name, names};
use pl_frame::column::{Column, ColumnFault, Value};
use pl_frame::data_type::{Categories, DataType};
use pl_frame::name::PlSmallStr;
use std::alloc::Global;
use std::process::Abort;

// The text `y` and a null.
fn given(rt: &impl Abort, alloc: Global) -> Vec<Option<PlSmallStr>> {
    let mut given = Vec::new(alloc);
    given.push(Some(name(rt, alloc, "y"))).expect(rt, "a text");
    given.push(None).expect(rt, "a null");
    given
}

// Whether a column is made of a text `y` and a null.
fn is_given(made: Result<Column, ColumnFault>) -> bool {
    let is_given = match &made {
        Ok(column) if column.len() == 2 => {
            column.get(0) == Value::Text("y") && column.get(1) == Value::Null
        }
        _ => false,
    };
    drop(made);
    is_given
}

#[test]
fn columns_of_texts_are_made(rt: HostRuntime) {
    let alloc = rt.alloc();
    let (name, dtype) = (name(&rt, alloc, "c"), DataType::Categorical);
    assert!(rt; is_given(Column::text(alloc, name, dtype, given(&rt, alloc))));
}

#[test]
fn columns_of_an_enum_are_made(rt: HostRuntime) {
    let alloc = rt.alloc();
    let dtype = DataType::Enum(Some(Categories::new(names(&rt, alloc, &["x", "y"]))));
    assert!(rt; dtype.readable());
    let name = name(&rt, alloc, "e");
    assert!(rt; is_given(Column::text(alloc, name, dtype, given(&rt, alloc))));
}

// Whether a column was made.
fn is_made(made: Result<Column, ColumnFault>) -> bool {
    let is_made = made.is_ok();
    drop(made);
    is_made
}

#[test]
fn columns_of_other_values_are_made(rt: HostRuntime) {
    let alloc = rt.alloc();
    let mut given = Vec::new(alloc);
    given.push(Some(true)).expect(&rt, "a truth value");
    assert!(rt; is_made(Column::boolean(alloc, name(&rt, alloc, "b"), given)));
    let mut given = Vec::new(alloc);
    given.push(Some(255)).expect(&rt, "a number");
    let name = name(&rt, alloc, "n");
    assert!(rt; is_made(Column::whole(alloc, name, DataType::UInt8, given)));
}
