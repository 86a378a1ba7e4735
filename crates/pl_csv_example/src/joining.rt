//! A source of one's own: two sources, one after the other.

use crate::reading::frame_of;
use pl_frame::error::PolarsResult;
use pl_frame::frame::DataFrame;
use pl_frame::source::{Failed, MemSource, Source};
use pl_read::bytes_reader::MmapBytesReader;
use pl_read::csv_reader::{CsvReader, SerReader};
use std::alloc::Global;
use std::sync::Wait;
use std::thread::Threads;

/// The bytes of one source, and then those of another.
#[derive(Drop)]
pub struct Joined<A: Source, B: Source> {
    first: A,
    second: B,
    faults: u64,
}

impl<A: Source, B: Source> Source for Joined<A, B> {
    ghost use Rattle.std.specs.Prelude.{None};

    // It tells no bytes to contracts, so nothing has to be proved of them.
    ghost left = { λ _. None };

    ghost faults = { λ source. source.faults };

    fn read(&mut self, buf: &mut [u8]) -> Result<usize, Failed> {
        let answer = match self.first.read(buf) {
            Ok(0) => self.second.read(buf),
            answer => answer,
        };
        if answer.is_err() {
            self.faults = self.faults.saturating_add(1);
        }
        answer
    }
}

impl<A: Source, B: Source> MmapBytesReader for Joined<A, B> {
    ghost use Rattle.std.specs.Prelude.{None};

    ghost lent = { λ _. None };

    fn to_bytes(&self) -> Option<&[u8]> {
        None
    }
}

/// The frame of two texts, one after the other.
pub fn read_joined<W: Threads + Wait + Sync>(
    rt: &W,
    alloc: Global,
    first: &[u8],
    second: &[u8],
) -> PolarsResult<DataFrame> {
    let source = Joined {
        first: MemSource::new(first),
        second: MemSource::new(second),
        faults: 0,
    };
    frame_of(rt, CsvReader::new(alloc, source))
}
