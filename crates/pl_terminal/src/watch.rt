//! A watch over a run: it counts what is read, and tells on a terminal how far the run has come.

use crate::progress::{Progress, progress_line};
use std::alloc::Global;
use std::cell::Cell;
use std::time::{Clock, Instant};

// The line is first told when a run has taken so many milliseconds.
const FIRST: u64 = 1000;

// So many milliseconds at least lie between two lines.
const BETWEEN: u64 = 100;

/// What wipes a line out: the cursor goes back, and blanks stand in its place.
pub const WIPE: &str =
    "\r                                                                                \r";

/// A watch over a run. Without a start nothing is counted or told.
#[derive(Drop)]
pub struct Watch<'a, R: Clock + Eprint> {
    rt: &'a R,
    alloc: Global,
    start: Option<Instant>,
    due: Cell<u64>,
    bytes: Cell<u64>,
    lines: Cell<u64>,
    is_shown: Cell<bool>,
}

// How many line feeds bytes have.
fn line_feeds(bytes: &[u8]) -> usize {
    bytes.iter().filter(|byte| **byte == b'\n').count()
}

impl<'a, R: Clock + Eprint> Watch<'a, R> {
    /// Nothing was read yet. Where nobody is to be told, nothing is counted.
    pub fn new(rt: &'a R, alloc: Global, is_told: bool) -> Self {
        let start = if is_told { Instant::now(rt).ok() } else { None };
        Watch {
            rt,
            alloc,
            start,
            due: Cell::new(FIRST),
            bytes: Cell::new(0),
            lines: Cell::new(0),
            is_shown: Cell::new(false),
        }
    }

    /// How many bytes were read so far, as far as they are counted.
    pub fn bytes(&self) -> u64 {
        self.bytes.get()
    }

    /// Counts what was read, of many files of the one at the path, and tells how far the run has come where it is time.
    pub fn count(&self, read: &[u8], path: Option<&str>) {
        let Some(start) = self.start else {
            return;
        };
        let bytes = self.bytes.get().saturating_add(read.len() as u64);
        self.bytes.set(bytes);
        let lines = self.lines.get().saturating_add(line_feeds(read) as u64);
        self.lines.set(lines);
        let Ok(gone) = start.elapsed(self.rt) else {
            return;
        };
        let milliseconds = u64::try_from(gone.as_millis()).unwrap_or(0);
        if milliseconds >= self.due.get() {
            self.due.set(milliseconds.saturating_add(BETWEEN));
            let progress = Progress {
                bytes,
                lines,
                milliseconds,
            };
            self.tell(&progress, path);
        }
    }

    // Writes the line anew.
    fn tell(&self, progress: &Progress, path: Option<&str>) {
        if let Ok(line) = progress_line(self.alloc, progress, path) {
            self.wipe();
            self.is_shown.set(true);
            let _ = self.rt.eprint(line.as_str());
        }
    }

    /// Wipes the line out, if one stands there.
    pub fn wipe(&self) {
        if self.is_shown.replace(false) {
            let _ = self.rt.eprint(WIPE);
        }
    }
}
