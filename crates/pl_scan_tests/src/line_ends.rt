//! Tests of `pl_scan::line_ends`.

use pl_scan::line_ends::CountLines;

#[test]
fn counts_line_ends_outside_quotes(rt: HostRuntime) {
    let lines = CountLines::new(Some(b'"'), b'\n');
    assert!(rt;
        lines.count(b"x\"y\n\"c\nd\"\n") == (1, 6),
        "the parity is a guess"
    );
    let mut size = 1;
    assert!(rt; lines.find_next(b"ab\ncd", &mut size) == (1, 2));
    assert!(rt; size == 4);
}
