//! What several tests are given: names, options and frames.
ghost use Rattle.std.specs.Prelude.{◌≡◌, None};

use pl_frame::column::Column;
use pl_frame::data_type::DataType;
use pl_frame::frame::DataFrame;
use pl_frame::name::PlSmallStr;
use pl_frame::schema::Schema;
use pl_options::read_options::CsvReadOptions;
use std::alloc::Global;
use std::process::Abort;

// The name of a text.
pub fn name(rt: &impl Abort, alloc: Global, text: &str) -> PlSmallStr {
    PlSmallStr::from_str(alloc, text).expect(rt, "a name")
}

// Puts a column at the end of a schema.
pub fn add(rt: &impl Abort, alloc: Global, schema: &mut Schema, text: &str, dtype: DataType) {
    let added = schema.with_column(name(rt, alloc, text), dtype);
    drop(added.expect(rt, "a column"));
}

// A read of one column `a` of whole numbers, at no path.
pub fn one_column(rt: &impl Abort, alloc: Global) -> CsvReadOptions
    ensures { result.path ≡ None }
{
    let mut schema = Schema::new(alloc);
    add(rt, alloc, &mut schema, "a", DataType::Int64);
    CsvReadOptions::new(alloc).with_schema(Some(schema))
}

// The column `a` of 1.
pub fn one(rt: &impl Abort, alloc: Global) -> DataFrame {
    let mut values = Vec::new(alloc);
    values.push(Some(1)).expect(rt, "a number");
    let column = Column::whole(alloc, name(rt, alloc, "a"), DataType::Int64, values);
    let mut columns = Vec::new(alloc);
    let pushed = columns.push(column.expect(rt, "a column"));
    pushed.expect(rt, "a column");
    DataFrame::new(alloc, columns).expect(rt, "a frame")
}
