//! Readers, writers and files of the standard library as sources, sinks and an opener.
//!
//! They tell no content to callers that see a source, a sink or an opener: what passes here is the trusted edge of the
//! program.
ghost use Rattle.std.specs.Prelude.{◌≡◌, ℕ, ◌<◌, ◌≤◌, List, length, take, None, IfOk, OnOk, IsErrOf, IsOkUnless};
ghost use Rattle.std.specs.Io.{ReadsAtMost};
ghost use Rattle.std.specs.Io.KnownBytes.{Appends, ReadConsumes, WriteAppends};
ghost use Rattle.pl_frame.specs.Causes.{Rose, HasCause, TakesSome, raised};
ghost use Rattle.pl_frame.specs.Opening.{IsOpened, Closes};
ghost use Rattle.pl_frame.specs.Outside.{RisesAtErr};

use pl_frame::opener::Opener;
use pl_frame::sink::{Sink, SinkFault};
use pl_frame::source::{Failed, Source};
use pl_read::bytes_reader::MmapBytesReader;
use std::fs;
use std::fs::Files;
use std::io::{Read, Write};
use std::marker::Model;

/// A reader as a source, which counts each error of the reader. Contracts see it as the reader and the count.
#[derive(Drop)]
pub struct ReadSource<R: Read> {
    reader: R,
    faults: u64,
}

impl<R: Read> Model for ReadSource<R> {
    ghost use Rattle.std.specs.Prelude.{ℕ};

    ghost Value = { R × ℕ };

    ghost view = { λ source. (source.reader, source.faults) };
}

impl<R: Read> ReadSource<R> {
    /// A source of what the reader gives from here on.
    pub fn new(reader: R) -> Self
        ensures { result ≡ (reader, 0) }
    {
        ReadSource { reader, faults: 0 }
    }
}

impl<R: Read> Source for ReadSource<R> {
    ghost left = { λ _. None };

    ghost faults = { λ source. source.1 };

    fn read(&mut self, buf: &mut [u8]) -> Result<usize, Failed>
        requires { 0 < length buf.old }
        ensures bound { ReadsAtMost result buf.new }
        ensures bytes { ReadConsumes (R.remaining self.old.0) (R.remaining self.new.0) result buf.new }
        ensures cause { HasCause self.old.1 self.new.1 result }

        // Each error of the reader is counted once.
        ensures counted { RisesAtErr self.old.1 self.new.1 result }
    {
        match self.reader.read(buf) {
            Ok(count) => Ok(count),
            Err(_) => {
                self.faults = self.faults.saturating_add(1);
                Err(Failed)
            }
        }
    }
}

impl<R: Read> MmapBytesReader for ReadSource<R> {
    ghost lent = { λ _. None };

    fn to_bytes(&self) -> Option<&[u8]> {
        None
    }
}

/// The files of a file system as an opener, which counts each error and each source that failed. Contracts see it as the
/// file system and the count.
#[derive(Drop)]
pub struct FsOpener<F: Files> {
    files: F,
    faults: u64,
}

impl<F: Files> Model for FsOpener<F> {
    ghost use Rattle.std.specs.Prelude.{ℕ};

    ghost Value = { F × ℕ };

    ghost view = { λ opener. (opener.files, opener.faults) };
}

impl<F: Files> FsOpener<F> {
    /// An opener of the files of this file system.
    pub fn new(files: F) -> Self
        ensures { result ≡ (files, 0) }
    {
        FsOpener { files, faults: 0 }
    }
}

impl<F: Files> Opener for FsOpener<F> {
    type Opened = ReadSource<F::File>;

    ghost holds = { λ _ _. None };

    ghost faults = { λ opener. opener.1 };

    fn open_path(&mut self, path: &str) -> Result<ReadSource<F::File>, Failed>
        ensures opened { IfOk result (λ opened. IsOpened None None opened.1) }
        ensures cause { HasCause self.old.1 self.new.1 result }

        // Each error of the file system is counted once.
        ensures counted { RisesAtErr self.old.1 self.new.1 result }
    {
        let Ok(file) = fs::open(&self.files, path) else {
            self.faults = self.faults.saturating_add(1);
            return Err(Failed);
        };
        Ok(ReadSource::new(file))
    }

    fn close(&mut self, opened: ReadSource<F::File>)
        ensures counted { Closes opened.1 self.old.1 self.new.1 }

        // A source that has failed is counted once.
        ensures failed { 0 < opened.1 → self.new.1 ≡ raised self.old.1 }
    {
        if opened.faults > 0 {
            self.faults = self.faults.saturating_add(1);
        }
    }
}

/// A writer as a sink, which flushes after each write and counts each error of the writer. Contracts see it as the writer
/// and the count.
#[derive(Drop)]
pub struct WriteSink<W: Write> {
    writer: W,
    faults: u64,
}

impl<W: Write> Model for WriteSink<W> {
    ghost use Rattle.std.specs.Prelude.{ℕ};

    ghost Value = { W × ℕ };

    ghost view = { λ sink. (sink.writer, sink.faults) };
}

impl<W: Write> WriteSink<W> {
    /// A sink that writes behind what the writer already holds.
    pub fn new(writer: W) -> Self
        ensures { result ≡ (writer, 0) }
    {
        WriteSink { writer, faults: 0 }
    }
}

impl<W: Write> Sink for WriteSink<W> {
    ghost received = { λ _. None };

    ghost faults = { λ sink. sink.1 };

    ghost wants = { λ _. 0 };

    /// Writes once and flushes. A write that fails, that takes nothing, or whose flush fails is a failed call.
    ///
    /// Where the flush fails the writer has taken bytes, and no count of them can be promised to have arrived: the answer is
    /// `Device`, and a prefix of the piece was taken. A sink that tells what it received could not answer so; this one
    /// tells nothing.
    fn write(&mut self, piece: &[u8]) -> Result<usize, SinkFault>
        requires { 0 < length piece.now }
        ensures some { TakesSome result piece.now }
        ensures later { self.old.1 ≤ self.new.1 }
        ensures device { IsErrOf result SinkFault.Device → Rose self.old.1 self.new.1 }

        // Each failed call is counted once; the writer never wants memory by its own word.
        ensures counted { RisesAtErr self.old.1 self.new.1 result }
        ensures refused { IsOkUnless result SinkFault.Device }

        // The writer took the bytes that the answer counts, and after a failed call a prefix of the piece.
        ensures taken { IfOk result (λ n. Appends (W.contents self.old.0) (W.contents self.new.0) (take n piece.now)) }
        ensures prefix { (n : ℕ) × Appends (W.contents self.old.0) (W.contents self.new.0) (take n piece.now) }
    {
        let count = self.writer.write(piece).unwrap_or(0);
        if count > 0 && self.writer.flush().is_ok() {
            return Ok(count);
        }
        self.faults = self.faults.saturating_add(1);
        Err(SinkFault::Device)
    }
}
