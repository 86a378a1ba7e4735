//! Tests of `pl_scan::lines`.

use pl_scan::lines::SplitLines;

#[test]
fn keeps_line_ends_between_quotes(rt: HostRuntime) {
    let mut lines = SplitLines::new(b"1,'foo\n'\n2", Some(b'\''), b'\n', None);
    assert!(rt; lines.next() == Some(b"1,'foo\n'".as_slice()));
    assert!(rt; lines.next() == Some(b"2".as_slice()));
    assert!(rt; lines.next() == None);
}
