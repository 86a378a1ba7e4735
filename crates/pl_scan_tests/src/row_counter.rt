//! Tests of `pl_scan::row_counter`.

use pl_scan::row_counter::RowCounter;

#[test]
fn goes_on_in_a_quoted_field(rt: HostRuntime) {
    let mut counter = RowCounter::new(b',', Some(b'"'), b'\n');
    counter.add(b"\na,b\n1,\"x");
    counter.add(b"\ny\"");
    counter.add(b"\"\n\"\n\n");
    assert!(rt; counter.rows(false) == 3);
    assert!(rt; counter.rows(true) == 2);
}
