//! Tests of `pl_options::hive_options`.

use crate::given::one_column;
use pl_frame::schema::Schema;
use pl_options::hive_options::HiveOptions;
use std::process::Abort;

// Whether options are equal to their copy.
fn have_equal_copy(rt: &impl Abort, options: &HiveOptions) -> bool {
    let copy = options.try_clone().expect(rt, "a copy");
    let are_equal = copy == *options;
    drop(copy);
    are_equal
}

#[test]
fn copies_are_equal(rt: HostRuntime) {
    let mut options = HiveOptions::new();
    options.schema = Some(Schema::new(rt.alloc()));
    assert!(rt; have_equal_copy(&rt, &options));
    options.schema = Some(one_column(&rt, rt.alloc()));
    assert!(rt; have_equal_copy(&rt, &options));
    drop(options);
}
