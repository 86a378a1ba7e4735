//! Tests of `pl_options::column_lists`.

use crate::given::{name, one};
use pl_frame::data_type::DataType;
use pl_frame::schema::Field;
use pl_options::column_lists::Fields;

#[test]
fn fields_equal_their_copy(rt: HostRuntime) {
    let name = name(&rt, rt.alloc(), "a");
    let dtype = DataType::Int64;
    let fields = Fields::new(one(&rt, rt.alloc(), Field { name, dtype }));
    let copy = fields.try_clone().expect(&rt, "a copy");
    assert!(rt; copy == fields);
    drop(copy);
    drop(fields);
}
