//! Frames that tests want.

use pl_frame::column::Column;
use pl_frame::data_type::DataType;
use pl_frame::frame::DataFrame;
use pl_frame::name::PlSmallStr;
use std::alloc::Global;
use std::process::Abort;

pub(crate) fn name(rt: &impl Abort, alloc: Global, text: &str) -> PlSmallStr {
    PlSmallStr::from_str(alloc, text).expect(rt, "a name")
}

// The column `a` of these numbers.
pub(crate) fn column(rt: &impl Abort, alloc: Global, numbers: &[i128]) -> Column {
    let mut values = Vec::new(alloc);
    for number in numbers {
        values.push(Some(*number)).expect(rt, "a number");
    }
    let column = Column::whole(alloc, name(rt, alloc, "a"), DataType::Int64, values);
    column.expect(rt, "a column")
}

// The frame of that column alone.
pub(crate) fn frame(rt: &impl Abort, alloc: Global, numbers: &[i128]) -> DataFrame {
    let mut columns = Vec::new(alloc);
    let pushed = columns.push(column(rt, alloc, numbers));
    pushed.expect(rt, "a column");
    assert!(rt; DataFrame::have_one_height(&columns));
    DataFrame::new(alloc, columns).expect(rt, "a frame")
}
