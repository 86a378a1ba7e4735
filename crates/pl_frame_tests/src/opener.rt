//! Tests of `pl_frame::opener`.

use pl_frame::opener::{MemOpener, Opener, PipeOpener};
use pl_frame::source::{Failed, Source};

// Through the bound: what the first read of at most three bytes of a path gives, where the path opens.
fn first_read<O: Opener>(opener: &mut O, path: &str) -> Result<Result<usize, Failed>, Failed> {
    let mut source = opener.open_path(path)?;
    let mut buf = [0u8; 3];
    let read = source.read(&mut buf);
    opener.close(source);
    Ok(read)
}

#[test]
fn paths_are_opened(rt: HostRuntime) {
    let entries: [(&str, &[u8]); 2] = [("f", b"ab"), ("", b"cde")];
    let mut opener = MemOpener::new(&entries);
    assert!(rt; first_read(&mut opener, "") == Ok(Ok(3)));
    let mut opener = PipeOpener::new(&entries, 1, &[1]);
    assert!(rt; first_read(&mut opener, "f") == Ok(Ok(1)));
    assert!(rt; first_read(&mut opener, "g") == Err(Failed));
}
