//! Tests of `pl_seek::index`.

use pl_seek::fault::SeekFault;
use pl_seek::index::SeekIndex;
use std::alloc::Global;
use std::process::Abort;

// Of a header and three records of two bytes each, the places of each second record, under a schema of one column: magic,
// digest, settings, what is skipped, the comment prefix, how many records are a group, how many there are, where groups begin.
const INDEX: &[u8; 110] =
    b"PLSEEK1\n0123456789abcdefghijklmnopqrstuv,\x01\"\n\x01\x01\0\0\0\0\0\0\0\0\0\0\0\0\0\0\0\0\0\0\0\0\0\0\0\0\0\0\0\0\0\0\0\0\0\0\0\0\0\0\0\x02\0\0\0\0\0\0\0\x03\0\0\0\0\0\0\0\x02\0\0\0\0\0\0\0\x06";

// A place in it, and a byte that no index has there when all others stay.
const CHANGES: [(usize, u8); 14] = [
    (0, b'p'),
    (7, b'\r'),
    (41, 0),
    (41, 2),
    (44, 2),
    (45, 2),
    (77, 1),
    (70, 255),
    (85, 0),
    (85, 1),
    (85, 3),
    (93, 5),
    (101, 6),
    (109, 2),
];

// The index with another byte at a place.
fn changed(rt: &impl Abort, alloc: Global, place: usize, byte: u8) -> Vec<u8> {
    let mut bytes = Vec::from_slice(alloc, INDEX).expect(rt, "the bytes");
    if let Some(old) = bytes.get_mut(place) {
        *old = byte;
    }
    bytes
}

// Whether the bytes are refused as those of no index.
fn is_refused(alloc: Global, bytes: &[u8]) -> bool {
    matches!(SeekIndex::from_bytes(alloc, bytes), Err(SeekFault::Format))
}

#[test]
fn an_index_is_read_and_written_again(rt: HostRuntime) {
    let index = SeekIndex::from_bytes(rt.alloc(), INDEX).expect(&rt, "an index");
    let bytes = index.to_bytes().expect(&rt, "its bytes");
    assert!(rt; bytes.as_slice() == INDEX.as_slice());
}

#[test]
fn other_bytes_are_refused(rt: HostRuntime) {
    for (place, byte) in &CHANGES {
        let bytes = changed(&rt, rt.alloc(), *place, *byte);
        assert!(rt; is_refused(rt.alloc(), &bytes));
    }
    assert!(rt; is_refused(rt.alloc(), &INDEX[..109]));
    assert!(rt; is_refused(rt.alloc(), &INDEX[..102]));
    assert!(rt; is_refused(rt.alloc(), b""));
}

#[test]
fn a_place_that_the_input_does_not_have_is_read(rt: HostRuntime) {
    let bytes = changed(&rt, rt.alloc(), 109, 7);
    assert!(rt; !is_refused(rt.alloc(), &bytes));
}
