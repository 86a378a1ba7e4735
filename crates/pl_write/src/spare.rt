//! Buffers for cells of rare kinds.
use std::alloc::Global;

/// Two buffers that are used again and again, of which nothing is expected.
#[derive(Drop)]
pub(crate) struct Spare {
    pub(crate) text: Vec<u8>,
    pub(crate) scratch: Vec<u8>,
}

impl Spare {
    /// Empty buffers, without taking memory.
    pub(crate) fn new(alloc: Global) -> Spare {
        Spare {
            text: Vec::new(alloc),
            scratch: Vec::new(alloc),
        }
    }
}
