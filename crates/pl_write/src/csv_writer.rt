//! The writer of frames.
ghost use Rattle.std.specs.Prelude.{◌≡◌, ◌≤◌, true, false, IfOk, IfErr, OnOk, IsOkUnless};
ghost use Rattle.std.specs.Io.KnownBytes.{Appends};
ghost use Rattle.std.specs.Thread.{IsSync};
ghost use Rattle.pl_frame.specs.declared.error.PolarsError.TheVariants as error;
ghost use Rattle.pl_frame.specs.Columns.{is_number};
ghost use Rattle.pl_text.specs.FrameText.{text_of_frame};
ghost use Rattle.pl_frame.specs.Types.{is_readable};
ghost use Rattle.pl_write.specs.Options.{default_options, frame_options, with_separator, with_quote_char, with_null, with_line_terminator, with_quote_style, with_include_bom, with_include_header, with_batch_size, with_cells};
ghost use Rattle.pl_write.specs.Writing.{AppendsPrefix, CanWrite, IsEarlyFault, IsWriteFault, Writer, with_change, with_threads};

use crate::batched_writer::BatchedWriter;
use crate::options::{CsvWriterOptions, QuoteStyle};
use crate::writer::write_frame;
use pl_frame::error::{ComputeFault, OpFault, PolarsError, PolarsResult};
use pl_frame::frame::DataFrame;
use pl_frame::name::PlSmallStr;
use pl_frame::schema::Schema;
use pl_frame::sink::{Sink, SinkFault};
use std::alloc::Global;
use std::marker::Model;
use std::thread::Threads;

/// What writes frames to a sink.
pub trait SerWriter<S: Sink> {
    /// The sink, how frames are written, and the number of threads.
    ghost writer: { Self → Writer S };

    /// A writer to a sink, with default options and four threads. Refuses only want of memory.
    fn new(alloc: Global, sink: S) -> PolarsResult<Self>
        ensures made { IfOk result (λ made. writer made ≡ record { sink = sink; options = default_options; n_threads = 4 }) }
        ensures refused { IsOkUnless result error.OutOfMemory };

    /// Appends the text of a frame to the sink, printed by the writer's number of threads.
    ///
    /// Refuses `Option` where no thread is to write, and then a quote that is not ASCII, and the writer is then as it was; a
    /// fault of the sink; and want of memory. A prefix of the text was then appended.
    fn finish<W: Threads + Sync>(&mut self, rt: &W, df: &DataFrame) -> PolarsResult<()>
        requires { IsSync W.row }
        ensures written { OnOk result (Appends (S.received (writer self.old).sink) (S.received (writer self.new).sink) (text_of_frame (frame_options (writer self.old).options) df.now)) }
        ensures can { OnOk result (CanWrite (writer self.old).n_threads (writer self.old).options.serialize_options.quote_char) }
        ensures prefix { AppendsPrefix (S.received (writer self.old).sink) (S.received (writer self.new).sink) (text_of_frame (frame_options (writer self.old).options) df.now) }
        ensures refused { IfErr result (IsWriteFault S.faults (writer self.old) (writer self.new)) }
        ensures later { S.faults (writer self.old).sink ≤ S.faults (writer self.new).sink }
        ensures later_wants { S.wants (writer self.old).sink ≤ S.wants (writer self.new).sink }
        ensures options { (writer self.new).options ≡ (writer self.old).options }
        ensures threads { (writer self.new).n_threads ≡ (writer self.old).n_threads };
}

/// A writer of frames to a sink, which it owns.
#[derive(Drop)]
pub struct CsvWriter<S: Sink> {
    alloc: Global,
    sink: S,
    options: CsvWriterOptions,
    n_threads: usize,
}

impl<S: Sink> Model for CsvWriter<S> {
    ghost use Rattle.pl_write.specs.Writing.{Writer};

    ghost Value = { Writer S };

    ghost view = { λ w. record { sink = w.sink; options = w.options; n_threads = w.n_threads } };
}

impl<S: Sink> CsvWriter<S> {
    /// Sets whether the text begins with a byte order mark.
    pub fn include_bom(mut self, include_bom: bool) -> Self
        ensures { result ≡ with_change (with_include_bom include_bom) self }
    {
        self.options.include_bom = include_bom;
        self
    }

    /// Sets whether the line of the names stands before the rows.
    pub fn include_header(mut self, include_header: bool) -> Self
        ensures { result ≡ with_change (with_include_header include_header) self }
    {
        self.options.include_header = include_header;
        self
    }

    /// Sets what stands between two cells.
    pub fn with_separator(mut self, separator: u8) -> Self
        ensures { result ≡ with_change (with_cells (with_separator separator)) self }
    {
        self.options.serialize_options.separator = separator;
        self
    }

    /// Sets how many rows are a batch, 0 counting as 1. Each thread prints up to eight batches at a time, and a frame of no
    /// more than one is printed by the caller. The text is the same whatever the size.
    pub fn with_batch_size(mut self, batch_size: usize) -> Self
        ensures { result ≡ with_change (with_batch_size batch_size) self }
    {
        self.options.batch_size = batch_size;
        self
    }

    /// Sets the quote, which must be ASCII where a frame is written.
    pub fn with_quote_char(mut self, quote_char: u8) -> Self
        ensures { result ≡ with_change (with_cells (with_quote_char quote_char)) self }
    {
        self.options.serialize_options.quote_char = quote_char;
        self
    }

    /// Sets the text of a null.
    pub fn with_null_value(mut self, null_value: PlSmallStr) -> Self
        ensures { result ≡ with_change (with_cells (with_null null_value)) self }
    {
        self.options.serialize_options.null = null_value;
        self
    }

    /// Sets what ends a line.
    pub fn with_line_terminator(mut self, line_terminator: PlSmallStr) -> Self
        ensures { result ≡ with_change (with_cells (with_line_terminator line_terminator)) self }
    {
        self.options.serialize_options.line_terminator = line_terminator;
        self
    }

    /// Sets when a cell is quoted.
    pub fn with_quote_style(mut self, quote_style: QuoteStyle) -> Self
        ensures { result ≡ with_change (with_cells (with_quote_style quote_style)) self }
    {
        self.options.serialize_options.quote_style = quote_style;
        self
    }

    /// Sets how many threads print a frame, which must not be 0 where one is written; 64 at most do, and no more than there
    /// are batches. The text is the same whatever the number.
    pub fn n_threads(mut self, n_threads: usize) -> Self
        ensures { result ≡ with_threads n_threads self }
    {
        self.n_threads = n_threads;
        self
    }
}

impl<S: Sink + Drop> CsvWriter<S> {
    /// Sets all of these options; sink and threads stay. Refuses only want of memory.
    pub fn with_options(mut self, options: &CsvWriterOptions) -> PolarsResult<Self>
        ensures set { IfOk result (λ made. made ≡ with_change (λ _. options.now) self) }
        ensures refused { IsOkUnless result error.OutOfMemory }
    {
        self.options = options.try_clone()?;
        Ok(self)
    }

    /// A writer of batches that have the names and types of this schema, with the same sink, options and threads. It has begun
    /// nothing. Refuses only want of memory.
    pub fn batched(self, schema: &Schema) -> PolarsResult<BatchedWriter<S>>
        ensures made { IfOk result (λ made. made ≡ record { writer = self; schema = schema.now; begun = false }) }
        ensures refused { IsOkUnless result error.OutOfMemory }
    {
        let schema = schema.try_clone()?;
        let CsvWriter {
            alloc,
            sink,
            options,
            n_threads,
        } = self;
        Ok(BatchedWriter::new(alloc, sink, options, n_threads, schema))
    }
}

// Refuses no threads, and then a quote that is not ASCII.
pub(crate) fn can_write(n_threads: usize, quote: u8) -> PolarsResult<()>
    ensures can { OnOk result (CanWrite n_threads quote) }
    ensures refused { IfErr result (IsEarlyFault n_threads quote) }
{
    if n_threads == 0 {
        return Err(PolarsError::InvalidOperation(OpFault::Option));
    }
    if !quote.is_ascii() {
        return Err(PolarsError::ComputeError(ComputeFault::Quote));
    }
    Ok(())
}

impl<S: Sink + Drop> SerWriter<S> for CsvWriter<S> {
    ghost writer = { λ w. w };

    fn new(alloc: Global, sink: S) -> PolarsResult<Self> {
        Ok(CsvWriter {
            alloc,
            sink,
            options: CsvWriterOptions::new(alloc)?,
            n_threads: 4,
        })
    }

    fn finish<W: Threads + Sync>(&mut self, rt: &W, df: &DataFrame) -> PolarsResult<()> {
        can_write(self.n_threads, self.options.serialize_options.quote_char)?;
        match write_frame(
            rt,
            self.alloc,
            self.n_threads,
            df.columns(),
            &self.options,
            &mut self.sink,
        ) {
            Ok(()) => Ok(()),
            Err(SinkFault::Device) => Err(PolarsError::IO),
            Err(SinkFault::OutOfMemory) => Err(PolarsError::OutOfMemory),
        }
    }
}
