//! How far a run has come, as one line.
ghost use Rattle.std.specs.Prelude.{◌/◌, max};

use crate::message::Message;
use std::alloc::{AllocError, Global};

// So many bytes are a megabyte.
const MEGABYTE: u64 = 1_000_000;

// So many characters of a path stand in the line.
const PATH_SHOWN: usize = 30;

/// How much was read so far, and in how many milliseconds.
#[derive(Clone, Copy, Debug)]
pub struct Progress {
    pub bytes: u64,
    pub lines: u64,
    pub milliseconds: u64,
}

// How many megabytes were read in a second.
fn rate(progress: &Progress) -> u64 {
    progress.bytes / 1000 / progress.milliseconds.max(1)
}

/// The line that tells how far a run has come, of many files with the path of the one that is read. Refuses only want of memory.
pub fn progress_line(
    alloc: Global,
    progress: &Progress,
    path: Option<&str>,
) -> Result<Message, AllocError> {
    let mut message = Message::new(alloc);
    message.add_number((progress.bytes / MEGABYTE) as usize)?;
    message.add(" MB, ")?;
    message.add_number(progress.lines as usize)?;
    message.add(" lines, ")?;
    message.add_number(rate(progress) as usize)?;
    message.add(" MB/s")?;
    if let Some(path) = path {
        message.add(", ")?;
        message.add_shown(path.as_bytes(), PATH_SHOWN)?;
    }
    Ok(message)
}
