//! Tests of `pl_read::bytes_reader`.

use pl_frame::error::PolarsResult;
use pl_frame::source::{MemSource, PipeSource};
use pl_options::reader_bytes::ReaderBytes;
use pl_read::bytes_reader::{MmapBytesReader, get_reader_bytes};

// Through the bound: whether a reader lends its bytes.
fn lends<R: MmapBytesReader + Drop>(reader: R) -> bool {
    reader.to_bytes().is_some()
}

#[test]
fn what_stands_for_a_reader_lends_as_it_does(rt: HostRuntime) {
    assert!(rt; lends(&mut MemSource::new(b"ab")));
    let boxed = Box::new(rt.alloc(), MemSource::new(b"ab"));
    assert!(rt; lends(boxed.expect(&rt, "a box")));
    assert!(rt; !lends(&mut PipeSource::new(b"ab", 1, &[])));
}

// Whether these bytes are lent, if they are the ones that were read.
fn are_lent(read: PolarsResult<ReaderBytes<'_>>, bytes: &[u8]) -> Option<bool> {
    let are_lent = match &read {
        Ok(read) if read.bytes() == bytes => Some(matches!(read, ReaderBytes::Borrowed(_))),
        _ => None,
    };
    drop(read);
    are_lent
}

#[test]
fn memory_lends_its_bytes_and_a_pipe_is_read(rt: HostRuntime) {
    let mut source = MemSource::new(b"ab");
    let read = get_reader_bytes(rt.alloc(), &mut source);
    assert!(rt; are_lent(read, b"ab") == Some(true));
    let mut pipe = PipeSource::new(b"ab", 1, &[]);
    let read = get_reader_bytes(rt.alloc(), &mut pipe);
    assert!(rt; are_lent(read, b"ab") == Some(false));
}
