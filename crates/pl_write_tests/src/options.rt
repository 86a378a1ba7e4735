//! Tests of `pl_write::options`.

use crate::given::name;
use pl_write::options::{CsvWriterOptions, QuoteStyle};
use std::process::Abort;

// Whether options are equal to their copy until a separator is set in it.
fn differ_by_separator(rt: &impl Abort, options: &CsvWriterOptions) -> bool {
    let mut copy = options.try_clone().expect(rt, "a copy");
    let equal = copy == *options;
    copy.serialize_options.separator = b';';
    equal && copy != *options
}

#[test]
fn copies_are_equal(rt: HostRuntime) {
    let mut options = CsvWriterOptions::new(rt.alloc()).expect(&rt, "options");
    options.include_bom = true;
    options.serialize_options.null = name(&rt, rt.alloc(), "NA");
    options.serialize_options.quote_style = QuoteStyle::Always;
    assert!(rt; differ_by_separator(&rt, &options));
}
