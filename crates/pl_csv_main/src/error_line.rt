//! Standard error during a run: passed on as it comes, or kept until the run has ended, where a person is to read it.
use std::alloc::Global;
use std::io;
use std::io::Write;

// So many bytes of a fault line are kept.
const MOST: usize = 4096;

/// A writer of fault lines.
#[derive(Drop)]
pub(crate) struct ErrorLine<W: Write> {
    writer: W,
    is_kept: bool,
    kept: Vec<u8>,
}

impl<W: Write> ErrorLine<W> {
    /// What is written is passed on, or kept.
    pub(crate) fn new(alloc: Global, writer: W, is_kept: bool) -> Self {
        ErrorLine {
            writer,
            is_kept,
            kept: Vec::new(alloc),
        }
    }

    /// What was kept, without the line feed at its end.
    pub(crate) fn line(&self) -> &[u8] {
        match self.kept.as_slice() {
            [front @ .., b'\n'] => front,
            kept => kept,
        }
    }

    /// Writes a text, whatever is kept. A fault is passed over.
    pub(crate) fn tell(&mut self, text: &str) {
        let _ = self.writer.write_all(text.as_bytes());
    }
}

impl<W: Write> Write for ErrorLine<W> {
    fn write(&mut self, buf: &[u8]) -> io::Result<usize> {
        if !self.is_kept {
            return self.writer.write(buf);
        }
        let room = MOST - self.kept.len().min(MOST);
        let _ = self.kept.extend_from_slice(&buf[..room.min(buf.len())]);
        Ok(buf.len())
    }

    fn flush(&mut self) -> io::Result<()> {
        self.writer.flush()
    }
}
