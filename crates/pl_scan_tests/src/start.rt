//! Tests of `pl_scan::start` and `pl_scan::dialect`.

use pl_scan::comment::CommentPrefix;
use pl_scan::dialect::dialect_ok;
use pl_scan::start::{find_starting_point, skip_bom, skip_lines_naive};

#[test]
fn skips_a_byte_order_mark_and_lines(rt: HostRuntime) {
    assert!(rt; skip_bom(b"\xEF\xBB\xBFa") == b"a".as_slice());
    assert!(rt; skip_lines_naive(b"a\nb\n", b'\n', 5) == b"b\n".as_slice());
}

#[test]
fn finds_the_data_behind_skips_and_header(rt: HostRuntime) {
    let prefix = CommentPrefix::new_single(b'#');
    let quote = Some(b'"');
    assert!(rt; dialect_ok(b',', quote, b'\n', Some(&prefix)));
    assert!(rt; !dialect_ok(b',', Some(b'\r'), b'\n', None));
    let text = b"a\n#\n2\n3\n";
    let place = find_starting_point(text, b',', quote, b'\n', 2, 0, 0, 2, Some(&prefix), true);
    assert!(rt; matches!(place, Ok(6)));
}
