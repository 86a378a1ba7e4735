//! The lines of the rows of a part: as far as they are bytes of the part, they stay where these were read.
ghost use Rattle.std.specs.Prelude.{◌≡◌, ◌≤◌, ◌+◌, ◌++◌, ℕ, List, Some, false, length, take, IfOk};
ghost use Rattle.std.specs.Bool.{OnTrue};
ghost use Rattle.pl_multi.specs.Lines.{found_text, line_text};

use pl_frame::sink::{Sink, SinkFault};
use std::alloc::{AllocError, Global};
use std::marker::Model;

/// Where the lines of a part stand: the first ones are so many of its bytes from a place on, the others were copied.
#[derive(Drop)]
pub(crate) struct FoundLines {
    from: usize,
    len: usize,
    copied: Vec<u8>,
}

impl FoundLines {
    /// Whether bytes of the part stand among them.
    pub(crate) fn are_lent(&self) -> bool
        ensures { result ≡ false → self.now.len ≡ 0 }
    {
        self.len > 0
    }
}

/// A sink of lines that a text may begin with: as long as it does, the sink keeps how many bytes of it were written, and copies what comes
/// then. The text counts as received before.
#[derive(Drop)]
pub(crate) struct LineSink<'a> {
    text: &'a [u8],
    len: usize,
    copied: Vec<u8>,
    wants: u64,
}

// Whether texts are the same.
fn are_same(text: &[u8], other: &[u8]) -> bool
    ensures { OnTrue result (text.now ≡ other.now) }
{
    text == other
}

// Whether these bytes stand in a text at a place.
fn stand_at(text: &[u8], at: usize, piece: &[u8]) -> bool
    ensures within { OnTrue result (at + length piece.now ≤ length text.now) }
    ensures more { OnTrue result (take (at + length piece.now) text.now ≡ take at text.now ++ piece.now) }
{
    if text.len() < at || text.len() - at < piece.len() {
        return false;
    }
    are_same(&text[at..at + piece.len()], piece)
}

impl<'a> LineSink<'a> {
    /// One that has received no lines.
    pub(crate) fn new(alloc: Global, text: &'a [u8]) -> LineSink<'a>
        ensures { line_text result ≡ text.now }
    {
        LineSink {
            text,
            len: 0,
            copied: Vec::new(alloc),
            wants: 0,
        }
    }

    /// Where the lines stand that it received, given its text, which is that of a part from a place on. A text of another length counts as out
    /// of memory.
    pub(crate) fn found(self, text: &[u8], from: usize) -> Result<FoundLines, AllocError>
        ensures from { IfOk result (λ found. found.from ≡ from) }
        ensures lines { (lines : List ℕ) → line_text self.entry ≡ text.now ++ lines → IfOk result (λ found. take found.len text.now ++ found.copied.items ≡ lines) }
    {
        let LineSink {
            text: mine,
            len,
            copied,
            wants: _,
        } = self;
        if mine.len() != text.len() {
            drop(copied);
            return Err(AllocError);
        }
        Ok(FoundLines { from, len, copied })
    }
}

impl<'a> Sink for LineSink<'a> {
    ghost received = { λ sink. Some (line_text sink) };

    ghost faults = { λ _. 0 };

    ghost wants = { λ sink. sink.wants };

    fn write(&mut self, piece: &[u8]) -> Result<usize, SinkFault> {
        if self.copied.is_empty() {
            if stand_at(self.text, self.len, piece) {
                self.len += piece.len();
                return Ok(piece.len());
            }
            let _ = self
                .copied
                .reserve(self.text.len().saturating_sub(self.len));
        }
        match self.copied.extend_from_slice(piece) {
            Ok(()) => Ok(piece.len()),
            Err(_) => {
                self.wants = self.wants.saturating_add(1);
                Err(SinkFault::OutOfMemory)
            }
        }
    }
}

/// The lines of a part. Its bytes are kept where they stand among these.
#[derive(Drop)]
pub(crate) struct KeptLines {
    bytes: Vec<u8>,
    from: usize,
    len: usize,
    copied: Vec<u8>,
}

impl Model for KeptLines {
    ghost use Rattle.std.specs.Prelude.{ℕ, List, ◌++◌, take, drop};

    ghost Value = { List ℕ };

    ghost view = { λ kept. take kept.len (drop kept.from kept.bytes.items) ++ kept.copied.items };
}

impl KeptLines {
    /// The lines that were found of a part with these bytes.
    pub(crate) fn new(bytes: Vec<u8>, found: FoundLines) -> KeptLines
        ensures { result ≡ found_text bytes.items found }
    {
        let FoundLines { from, len, copied } = found;
        KeptLines {
            bytes,
            from,
            len,
            copied,
        }
    }

    /// The lines, as two texts.
    pub(crate) fn texts(&self) -> (&[u8], &[u8])
        ensures { result.0.now ++ result.1.now ≡ self.now }
    {
        let from = self.from.min(self.bytes.len());
        let left = &self.bytes[from..];
        let len = self.len.min(left.len());
        (&left[..len], &self.copied)
    }
}
