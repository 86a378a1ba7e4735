//! How many workers there is address space for.
ghost use Rattle.std.specs.Prelude.{◌<◌};

use std::alloc::Global;

// So much address space a worker may take beside what it uses: for its stack, and what the allocator of the C library sets apart for each thread.
// It stays taken when the worker is done.
const TAKEN: usize = 72 << 20;

// What the workers beside the caller take is at most such a part of all. Where all is not to be had at once, these parts are asked for one after
// another: a system may refuse more than there is memory.
const PARTS: usize = 16;

// Fewer bytes or rows than these need so little memory that nothing is asked for.
const FEW: usize = 1 << 16;

// Whether there is so much address space. It is given back at once, and no page of it is used.
fn has_space(alloc: Global, size: usize) -> bool {
    let mut space: Vec<u8> = Vec::new(alloc);
    space.reserve(size).is_ok()
}

/// How many workers there is address space for, up to so many, where there are so many bytes or rows. So where that is limited, an input that one
/// worker can convert is not refused because there are more.
pub(crate) fn count_with_space(alloc: Global, most: usize, amount: usize) -> usize
    requires { 0 < most }
    ensures { 0 < result }
{
    let others = most - 1;
    let part = others.saturating_mul(TAKEN);
    if amount < FEW || has_space(alloc, part.saturating_mul(PARTS)) {
        return most;
    }
    let mut spaces: Vec<Vec<u8>> = Vec::new(alloc);
    for count in 0..PARTS {
        let mut space = Vec::new(alloc);
        if space.reserve(part).is_err() || spaces.push(space).is_err() {
            return others.saturating_mul(count) / PARTS + 1;
        }
    }
    most
}
