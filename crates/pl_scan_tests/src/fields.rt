//! Tests of `pl_scan::fields`.

use pl_scan::fields::{SplitFields, field_len};

#[test]
fn splits_fields(rt: HostRuntime) {
    let text = b"\"foo\n bar\";12345";
    assert!(rt; field_len(text, b';', Some(b'"'), b'\n') == 10);
    let mut fields = SplitFields::new(text, b';', Some(b'"'), b'\n');
    assert!(rt; fields.next() == Some((b"\"foo\n bar\"".as_slice(), true)));
    assert!(rt; fields.next() == Some((b"12345".as_slice(), false)));
    assert!(rt; fields.next() == None);
}
