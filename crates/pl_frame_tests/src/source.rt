//! Tests of `pl_frame::source`.

use pl_frame::source::{Failed, PipeSource, Source};

#[test]
fn a_pipe_fails_at_the_numbered_calls_and_loses_nothing(rt: HostRuntime) {
    let pipe = Box::new(rt.alloc(), PipeSource::new(b"abc", 2, &[0]));
    let mut pipe = pipe.expect(&rt, "a box");
    let mut buf = [0u8; 3];
    assert!(rt; pipe.read(&mut buf) == Err(Failed));
    assert!(rt; pipe.read(&mut buf) == Ok(2));
}
