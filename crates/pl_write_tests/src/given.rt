//! What several tests are given: names, columns and frames.
ghost use Rattle.std.specs.Prelude.{◌≡◌, true};
ghost use Rattle.pl_frame.specs.Columns.{is_number};
ghost use Rattle.pl_frame.specs.Types.{is_readable};

use pl_frame::column::Column;
use pl_frame::data_type::DataType;
use pl_frame::frame::DataFrame;
use pl_frame::name::PlSmallStr;
use std::alloc::Global;
use std::process::Abort;

// The name of a text.
pub fn name(rt: &impl Abort, alloc: Global, text: &str) -> PlSmallStr {
    PlSmallStr::from_str(alloc, text).expect(rt, "a name")
}

// A column `n` of these numbers or nulls, which are of the type.
pub fn numbers(rt: &impl Abort, alloc: Global, dtype: DataType, given: &[Option<i128>]) -> Column
    requires number { is_number dtype ≡ true }
    requires readable { is_readable dtype ≡ true }
{
    let mut values = Vec::new(alloc);
    for number in given {
        values.push(*number).expect(rt, "a number");
    }
    let column = Column::whole(alloc, name(rt, alloc, "n"), dtype, values);
    column.expect(rt, "a column")
}

// A frame of a column.
pub fn frame_of(rt: &impl Abort, alloc: Global, column: Column) -> DataFrame {
    let mut columns = Vec::new(alloc);
    columns.push(column).expect(rt, "a column");
    DataFrame::new(alloc, columns).expect(rt, "a frame")
}
