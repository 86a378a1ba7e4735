//! The bytes at a path, read to their end.
ghost use Rattle.std.specs.Prelude.{◌≡◌, ◌≤◌, ℕ, List, Option, true, length, take, IfOk, OnOk, OnErr, IfSome, IsErrOf};
ghost use Rattle.std.specs.Io.KnownBytes.{Consumes, IsAtEnd};
ghost use Rattle.pl_frame.specs.Causes.{Rose};

use pl_frame::opener::Opener;
use pl_frame::read_all::BLOCK_SIZE;
use pl_frame::source::{Failed, Source};
use thiserror::Error;

/// Why the bytes at a path were not read.
#[derive(Clone, Copy, Debug, PartialEq, Eq, Error)]
pub(crate) enum Unread {
    /// The path was not opened, or a read failed.
    #[error("the path was not opened, or a read failed")]
    Failed,
    #[error("out of memory")]
    OutOfMemory,
}

// What was read of a source into bytes: so many, and whether it ended.
#[derive(Drop)]
struct Filled {
    to: usize,
    is_ended: bool,
}

// Reads bytes in the place of others, until there are as many or the source ends. Refuses only where the source's count of faults rose.
fn fill<So: Source>(source: &mut So, bytes: &mut [u8]) -> Result<Filled, Failed>
    ensures inside { IfOk result (λ filled. filled.to ≤ length bytes.new) }
    ensures len { length bytes.new ≡ length bytes.old }
    ensures bytes { IfOk result (λ filled. Consumes (So.left source.old) (So.left source.new) (take filled.to bytes.new)) }
    ensures ended { IfOk result (λ filled. filled.is_ended ≡ true → IsAtEnd (So.left source.new)) }
    ensures failed { OnErr result (Rose (So.faults source.old) (So.faults source.new)) }
    ensures later { So.faults source.old ≤ So.faults source.new }
{
    let mut to = 0;
    while to < bytes.len() {
        let count = match source.read(&mut bytes[to..]) {
            Ok(count) => count,
            Err(fault) => return Err(fault),
        };
        if count == 0 {
            return Ok(Filled { to, is_ended: true });
        }
        to += count;
    }
    Ok(Filled {
        to,
        is_ended: false,
    })
}

// Puts all the bytes that are left of a source behind those that came of it. Refuses `Failed` only where the source's count of faults rose, and
// want of memory.
fn read_behind<So: Source>(source: &mut So, bytes: &mut Vec<u8>) -> Result<(), Unread>
    ensures all { (first : Option (List ℕ)) → Consumes first (So.left source.old) bytes.old.items → OnOk result (Consumes first (So.left source.new) bytes.new.items) }
    ensures end { OnOk result (IsAtEnd (So.left source.new)) }
    ensures failed { IsErrOf result Unread.Failed → Rose (So.faults source.old) (So.faults source.new) }
    ensures later { So.faults source.old ≤ So.faults source.new }
{
    let mut block = [0u8; BLOCK_SIZE];
    while bytes.len() < usize::MAX {
        let count = match source.read(&mut block) {
            Ok(count) => count,
            Err(_) => return Err(Unread::Failed),
        };
        if count == 0 {
            return Ok(());
        }
        if bytes.extend_from_slice(&block[..count]).is_err() {
            return Err(Unread::OutOfMemory);
        }
    }
    Err(Unread::OutOfMemory)
}

// Puts all the bytes that are left of a source in the place of others, in their memory where that suffices. Refuses `Failed` only where the
// source's count of faults rose, and want of memory.
fn read_into<So: Source>(source: &mut So, bytes: &mut Vec<u8>) -> Result<(), Unread>
    ensures all { OnOk result (Consumes (So.left source.old) (So.left source.new) bytes.new.items) }
    ensures end { OnOk result (IsAtEnd (So.left source.new)) }
    ensures failed { IsErrOf result Unread.Failed → Rose (So.faults source.old) (So.faults source.new) }
    ensures later { So.faults source.old ≤ So.faults source.new }
{
    let filled = match fill(source, bytes) {
        Ok(filled) => filled,
        Err(_) => return Err(Unread::Failed),
    };
    bytes.truncate(filled.to);
    if filled.is_ended {
        return Ok(());
    }
    read_behind(source, bytes)
}

/// The bytes at a path, in the memory that is given where that suffices. Refuses `Failed` only where the opener's count of faults rose, and
/// want of memory, in which a source without end ends.
pub(crate) fn read_path<O: Opener>(
    opener: &mut O,
    path: &str,
    room: Vec<u8>,
) -> Result<Vec<u8>, Unread>
    ensures bytes { IfOk result (λ bytes. IfSome (O.holds opener.old path.now) (λ told. bytes.items ≡ told)) }
    ensures failed { IsErrOf result Unread.Failed → Rose (O.faults opener.old) (O.faults opener.new) }
    ensures later { O.faults opener.old ≤ O.faults opener.new }
    ensures stays { (other : List ℕ) → O.holds opener.new other ≡ O.holds opener.old other }
{
    let Ok(mut opened) = opener.open_path(path) else {
        drop(room);
        return Err(Unread::Failed);
    };
    let mut bytes = room;
    let read = read_into(&mut opened, &mut bytes);
    opener.close(opened);
    match read {
        Ok(()) => Ok(bytes),
        Err(fault) => {
            drop(bytes);
            Err(fault)
        }
    }
}
