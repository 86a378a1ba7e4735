//! Tests of `pl_scan::items`, and of the measures of a text that rest on its items.

use pl_scan::closes::closes;
use pl_scan::comment::CommentPrefix;
use pl_scan::items::{Item, Items, record_len};

#[test]
fn gives_comments_records_and_blank_lines(rt: HostRuntime) {
    let prefix = CommentPrefix::new_single(b'#');
    let mut items = Items::new(b"#a\n1,2\n\n", b',', Some(b'"'), b'\n', Some(&prefix));
    assert!(rt; items.next() == Some(Item::Comment(b"#a")));
    assert!(rt; items.next() == Some(Item::Record(b"1,2")));
    assert!(rt; items.next() == Some(Item::Record(b"")));
    assert!(rt; items.next() == None);
}

#[test]
fn a_quote_within_a_field_joins_no_lines(rt: HostRuntime) {
    assert!(rt; record_len(b"x\"y\n\"c\nd\"", b',', Some(b'"'), b'\n') == 3);
    assert!(rt; record_len(b"\"c\nd\",e\n", b',', Some(b'"'), b'\n') == 7);
    assert!(rt; closes(b"x\"y\n", b',', Some(b'"'), b'\n', None));
    assert!(rt; !closes(b"\"c\n", b',', Some(b'"'), b'\n', None));
}
