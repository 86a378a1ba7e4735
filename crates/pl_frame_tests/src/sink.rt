//! Tests of `pl_frame::sink`.

use pl_frame::sink::{MemSink, Sink, write_all};

#[test]
fn memory_takes_whole_pieces(rt: HostRuntime) {
    let boxed = Box::new(rt.alloc(), MemSink::new(rt.alloc()));
    let mut sink = boxed.expect(&rt, "a box");
    assert!(rt; sink.write(b"ab") == Ok(2));
    assert!(rt; write_all(&mut sink, b"cde") == Ok(()));
    assert!(rt; sink.received() == b"abcde".as_slice());
}
