//! Memory to read parts into: what parts took that need it no more, and what workers make ready ahead.
use std::alloc::Global;
use std::sync::{Mutex, Wait};

// A part of so many bytes is long: its memory is not used again, and none is made for one.
pub(crate) const LARGE: usize = 1 << 22;

// A part of fewer bytes is short: memory for one is not made ahead.
const SHORT: usize = 1 << 14;

// So many rooms are ready at most where they are made ahead.
const READY: usize = 8;

/// Memory to read parts into, how long the last part was, and how many parts are to come.
#[derive(Drop)]
pub(crate) struct Rooms {
    ready: Vec<Vec<u8>>,
    last: usize,
    left: usize,
}

impl Rooms {
    /// None, before the first part.
    pub(crate) fn new(alloc: Global) -> Rooms {
        Rooms {
            ready: Vec::new(alloc),
            last: 0,
            left: 0,
        }
    }

    // A little more than the last part took, where that was not long.
    fn usual(&self) -> usize {
        if self.last < LARGE {
            self.last + self.last / 32
        } else {
            0
        }
    }

    /// Memory that is ready, or else as much as is usual.
    pub(crate) fn take(&mut self, alloc: Global) -> Vec<u8> {
        match self.ready.pop() {
            Some(room) => room,
            None => {
                let mut room = Vec::new(alloc);
                let _ = room.reserve(self.usual());
                room
            }
        }
    }

    /// Keeps how long a part was, and how many are to come.
    pub(crate) fn keep_len(&mut self, len: usize, left: usize) {
        self.last = len;
        self.left = left;
    }

    /// Keeps memory to read another part into, where it is not long. Where there is no memory to keep it, it goes.
    pub(crate) fn give(&mut self, room: Vec<u8>) {
        if room.len() < LARGE {
            let _ = self.ready.push(room);
        }
    }

    // How long the next room is that is to be made; none where enough are ready, or parts are short.
    fn wanted(&self) -> usize {
        if self.ready.len() >= self.left.min(READY) || self.last < SHORT {
            0
        } else {
            self.usual()
        }
    }
}

/// Makes memory for a part ready, and answers whether it did: where there is enough it does not. Its pages are written before, so that who reads
/// into it does not wait for them.
pub(crate) fn make_room<W: Wait>(rt: &W, alloc: Global, rooms: &Mutex<Rooms>) -> bool {
    let size = rooms.lock(rt).wanted();
    if size == 0 {
        return false;
    }
    let mut room = Vec::new(alloc);
    if room.resize(size, 0).is_err() {
        return false;
    }
    rooms.lock(rt).give(room);
    true
}

/// Makes memory for parts ready until there is enough.
pub(crate) fn make_rooms<W: Wait>(rt: &W, alloc: Global, rooms: &Mutex<Rooms>) {
    for _ in 0..READY {
        if !make_room(rt, alloc, rooms) {
            return;
        }
    }
}
