//! Memory for the texts of a source, made ready by workers that wait.
use std::alloc::Global;
use std::sync::{Mutex, Wait};

// So much memory is ready at a time, each for one text.
const READY: usize = 2;

// Where the last text was longer than twice the usual size, the next one is thought to be as long and a little longer, but no longer than so
// many times that size.
const LONGER: usize = 4;

/// Memory for texts to come, and how long the last one was.
#[derive(Drop)]
pub struct Rooms {
    ready: Vec<Vec<u8>>,
    last: usize,
}

impl Rooms {
    /// None, before the first text.
    pub fn new(alloc: Global) -> Rooms {
        Rooms {
            ready: Vec::new(alloc),
            last: 0,
        }
    }

    /// Memory that is ready, if any is.
    pub fn take(&mut self, alloc: Global) -> Vec<u8> {
        match self.ready.pop() {
            Some(room) => room,
            None => Vec::new(alloc),
        }
    }

    /// Keeps memory of a text that is not needed any more for one that comes. Where there is no memory to keep it, it goes.
    pub fn give(&mut self, room: Vec<u8>) {
        let _ = self.ready.push(room);
    }

    /// Keeps how long a text was.
    pub fn keep_len(&mut self, len: usize) {
        self.last = len;
    }

    // How much memory is to be made for a text of about this size; none where enough is ready.
    fn wanted(&self, size: usize) -> usize {
        if self.ready.len() >= READY {
            0
        } else if self.last / 2 > size {
            size.saturating_mul(LONGER)
                .min(self.last.saturating_add(self.last / 8))
        } else {
            size
        }
    }
}

/// Makes memory for a text of about this size ready, where there is not enough. Its pages are written before, so that who reads into it does
/// not wait for them.
pub fn make_ahead<W: Wait>(rt: &W, alloc: Global, rooms: &Mutex<Rooms>, size: usize) {
    let wanted = rooms.lock(rt).wanted(size);
    if wanted == 0 {
        return;
    }
    let mut room = Vec::new(alloc);
    if room.resize(wanted, 0).is_ok() {
        let _ = rooms.lock(rt).ready.push(room);
    }
}
