//! Tests of `pl_infer::schemas`.

use crate::given::one_column;
use pl_frame::data_type::DataType;
use pl_infer::schemas::{overwrite_schema, prepare_csv_schema};
use pl_options::column_lists::Fields;

#[test]
fn a_known_name_is_overwritten(rt: HostRuntime) {
    let mut schema = one_column(&rt, rt.alloc(), "a", DataType::Int64);
    let strings = one_column(&rt, rt.alloc(), "a", DataType::String);
    overwrite_schema(&mut schema, &strings).expect(&rt, "a known name");
    assert!(rt; schema == strings);
}

#[test]
fn a_categorical_column_is_told(rt: HostRuntime) {
    let mut casts = Fields::new(Vec::new(rt.alloc()));
    let mut schema = one_column(&rt, rt.alloc(), "a", DataType::Categorical);
    assert!(rt; matches!(prepare_csv_schema(&mut schema, &mut casts), Ok(true)));
}
