//! A share of the rows of a frame, printed by one worker.
ghost use Rattle.std.specs.Prelude.{◌≡◌, ◌-◌, [], false, IfOk};
ghost use Rattle.pl_text.specs.FrameText.{row_lines};
ghost use Rattle.pl_write.specs.Lines.{HaveRows};
ghost use Rattle.pl_write.specs.Options.{cell_options};

use crate::options::SerializeOptions;
use crate::row_printer::RowPrinter;
use pl_frame::column::Column;
use std::alloc::{AllocError, Global};
use std::marker::Model;

/// Rows of a frame that one worker prints: those from one on up to another, and their lines once they are printed.
#[derive(Drop)]
pub(crate) struct Share {
    alloc: Global,
    printer: RowPrinter,
    first: usize,
    end: usize,
    wanting: bool,
}

impl Model for Share {
    ghost use Rattle.pl_write.specs.Printing.{ShareValue};

    ghost Value = { ShareValue };

    ghost view = { λ s. record { text = s.printer; first = s.first; end = s.end; wanting = s.wanting } };
}

impl Share {
    /// A share of no rows. Refuses only want of memory.
    pub(crate) fn new(alloc: Global) -> Result<Share, AllocError>
        ensures { IfOk result (λ share. share.text ≡ []) }
    {
        Ok(Share {
            alloc,
            printer: RowPrinter::new(alloc)?,
            first: 0,
            end: 0,
            wanting: false,
        })
    }

    /// Sets the rows: those from one on up to another.
    pub(crate) fn set_rows(&mut self, first: usize, end: usize)
        ensures first { self.new.first ≡ first }
        ensures end { self.new.end ≡ end }
    {
        self.first = first;
        self.end = end;
    }

    /// Whether memory was wanting when the rows were printed.
    pub(crate) fn is_wanting(&self) -> bool
        ensures { result ≡ self.now.wanting }
    {
        self.wanting
    }

    /// The lines that were printed.
    pub(crate) fn as_slice(&self) -> &[u8]
        ensures { result.now ≡ self.now.text }
    {
        self.printer.as_slice()
    }

    /// Prints the lines of its rows, in place of what it had printed before, whose memory is used again.
    pub(crate) fn print(&mut self, columns: &[Column], options: &SerializeOptions)
        requires { HaveRows self.old.end columns.now }
        ensures { self.new.wanting ≡ false → self.new.text ≡ row_lines (cell_options options.now) columns.now self.old.first (self.old.end - self.old.first) }
    {
        let printed = self
            .printer
            .print_between(self.alloc, columns, self.first, self.end, options);
        self.wanting = printed.is_err();
    }
}
