//! Tests of `pl_options::parse_options`. Options go to `drop`, as in `read_options.rt`.

use crate::given::name;
use pl_cells::null_values::NullValues;
use pl_options::parse_options::CsvParseOptions;
use pl_scan::comment::CommentPrefix;
use std::alloc::Global;
use std::process::Abort;

// Options with what takes memory in a copy: null values and a comment prefix.
fn selective(rt: &impl Abort, alloc: Global) -> CsvParseOptions {
    let text = NullValues::AllColumnsSingle(name(rt, alloc, "NA"));
    let prefix = CommentPrefix::new_from_str(alloc, "//");
    let prefix = prefix.expect(rt, "a prefix");
    CsvParseOptions::new()
        .with_null_values(Some(text))
        .with_comment_prefix(Some(prefix))
}

#[test]
fn a_copy_has_what_was_set(rt: HostRuntime) {
    let options = selective(&rt, rt.alloc());
    let copy = options.try_clone().expect(&rt, "a copy");
    assert!(rt; copy == options);
    drop(copy);
    drop(options);
}
