//! The writer of frames that come batch by batch.
ghost use Rattle.std.specs.Prelude.{◌≡◌, ◌≤◌, true, false, IfOk, IfErr, OnOk, [], if◌then◌else◌, slice_get};
ghost use Rattle.std.specs.Bool.{Decides};
ghost use Rattle.std.specs.Cmp.Lexicographic.{pointwise};
ghost use Rattle.std.specs.Io.KnownBytes.{Appends};
ghost use Rattle.std.specs.Option.{option_map_or};
ghost use Rattle.pl_frame.specs.Equal.{entries_equal};
ghost use Rattle.pl_frame.specs.FrameParts.{schema_of};
ghost use Rattle.pl_frame.specs.Schema.{names_in};
ghost use Rattle.pl_text.specs.FrameText.{head_text};
ghost use Rattle.pl_write.specs.Batches.{HaveSchema, IsBatchFault, IsReady, batch_text, head_to_come};
ghost use Rattle.pl_write.specs.Options.{frame_options};
ghost use Rattle.pl_write.specs.Writing.{AppendsPrefix};

use crate::block::Block;
use crate::csv_writer::can_write;
use crate::head::head_block;
use crate::options::CsvWriterOptions;
use crate::writer::write_rows_behind;
use pl_frame::column::Column;
use pl_frame::error::{PolarsError, PolarsResult};
use pl_frame::frame::DataFrame;
use pl_frame::schema::Schema;
use pl_frame::sink::{Sink, SinkFault, write_all};
use std::alloc::{AllocError, Global};
use std::marker::Model;
use std::mem;
use std::thread::Threads;

/// A writer of frames that come batch by batch, all with the names and types of one schema, to a sink, which it owns. What it
/// writes is one text: byte order mark and header, and then the rows of all batches.
#[derive(Drop)]
pub struct BatchedWriter<S: Sink> {
    alloc: Global,
    sink: S,
    options: CsvWriterOptions,
    n_threads: usize,
    schema: Schema,
    begun: bool,
}

impl<S: Sink> Model for BatchedWriter<S> {
    ghost use Rattle.pl_write.specs.Batches.{BatchWriter};

    ghost Value = { BatchWriter S };

    ghost view = { λ w. record {
      writer = record { sink = w.sink; options = w.options; n_threads = w.n_threads };
      schema = w.schema;
      begun = w.begun;
    } };
}

impl<S: Sink> BatchedWriter<S> {
    // A writer that has begun nothing.
    pub(crate) fn new(
        alloc: Global,
        sink: S,
        options: CsvWriterOptions,
        n_threads: usize,
        schema: Schema,
    ) -> BatchedWriter<S>
        ensures { result ≡ record { writer = record { sink = sink; options = options; n_threads = n_threads }; schema = schema; begun = false } }
    {
        BatchedWriter {
            alloc,
            sink,
            options,
            n_threads,
            schema,
            begun: false,
        }
    }

    /// Whether a frame has the names and types of the schema, in order, and so can be a batch. Takes no memory.
    pub fn fits(&self, df: &DataFrame) -> bool
        ensures { Decides result (HaveSchema self.now.schema df.now) }
    {
        have_schema(&self.schema, df.columns())
    }

    /// Appends the lines of a batch to the sink, behind byte order mark and header where no call has begun them, printed by the
    /// writer's number of threads. `fits` tells whether a frame can be a batch.
    ///
    /// Refuses `Option` where no thread is to write, and then a quote that is not ASCII, and the writer is then as it was; a
    /// fault of the sink; and want of memory. A prefix was then appended, and no later call makes up for the rest: byte order
    /// mark and header count as begun.
    pub fn write_batch<W: Threads + Sync>(&mut self, rt: &W, df: &DataFrame) -> PolarsResult<()>
        requires batch { HaveSchema self.old.schema df.now }
        ensures written { OnOk result (Appends (S.received self.old.writer.sink) (S.received self.new.writer.sink) (batch_text self.old df.now)) }
        ensures can { OnOk result (IsReady self.old.writer) }
        ensures prefix { AppendsPrefix (S.received self.old.writer.sink) (S.received self.new.writer.sink) (batch_text self.old df.now) }
        ensures refused { IfErr result (IsBatchFault S.faults self.old self.new) }
        ensures begun { IsReady self.old.writer → self.new.begun ≡ true }
        ensures later { S.faults self.old.writer.sink ≤ S.faults self.new.writer.sink }
        ensures later_wants { S.wants self.old.writer.sink ≤ S.wants self.new.writer.sink }
        ensures options { self.new.writer.options ≡ self.old.writer.options }
        ensures threads { self.new.writer.n_threads ≡ self.old.writer.n_threads }
        ensures schema { self.new.schema ≡ self.old.schema }
    {
        let head = self.begin()?;
        match write_rows_behind(
            rt,
            self.alloc,
            self.n_threads,
            head,
            df.columns(),
            &self.options,
            &mut self.sink,
        ) {
            Ok(()) => Ok(()),
            Err(SinkFault::Device) => Err(PolarsError::IO),
            Err(SinkFault::OutOfMemory) => Err(PolarsError::OutOfMemory),
        }
    }

    /// Appends byte order mark and header to the sink where no call has begun them. No batch need have come, and others may
    /// still come.
    ///
    /// Refuses as `write_batch` does.
    pub fn finish(&mut self) -> PolarsResult<()>
        ensures written { OnOk result (Appends (S.received self.old.writer.sink) (S.received self.new.writer.sink) (head_to_come self.old)) }
        ensures can { OnOk result (IsReady self.old.writer) }
        ensures prefix { AppendsPrefix (S.received self.old.writer.sink) (S.received self.new.writer.sink) (head_to_come self.old) }
        ensures refused { IfErr result (IsBatchFault S.faults self.old self.new) }
        ensures begun { IsReady self.old.writer → self.new.begun ≡ true }
        ensures later { S.faults self.old.writer.sink ≤ S.faults self.new.writer.sink }
        ensures later_wants { S.wants self.old.writer.sink ≤ S.wants self.new.writer.sink }
        ensures options { self.new.writer.options ≡ self.old.writer.options }
        ensures threads { self.new.writer.n_threads ≡ self.old.writer.n_threads }
        ensures schema { self.new.schema ≡ self.old.schema }
    {
        let head = self.begin()?;
        match write_all(&mut self.sink, head.as_slice()) {
            Ok(()) => Ok(()),
            Err(SinkFault::Device) => Err(PolarsError::IO),
            Err(SinkFault::OutOfMemory) => Err(PolarsError::OutOfMemory),
        }
    }

    // Begins byte order mark and header, and answers a block of them where they were not begun. Refuses as a write does before
    // any byte, and want of memory.
    fn begin(&mut self) -> PolarsResult<Block>
        ensures head { IfOk result (λ head. head ≡ head_to_come self.old) }
        ensures can { OnOk result (IsReady self.old.writer) }
        ensures refused { IfErr result (IsBatchFault S.faults self.old self.new) }
        ensures begun { IsReady self.old.writer → self.new.begun ≡ true }
        ensures writer { self.new.writer ≡ self.old.writer }
        ensures schema { self.new.schema ≡ self.old.schema }
    {
        can_write(self.n_threads, self.options.serialize_options.quote_char)?;
        let begun = mem::replace(&mut self.begun, true);
        match head_unless(begun, self.alloc, &self.schema, &self.options) {
            Ok(head) => Ok(head),
            Err(_) => Err(PolarsError::OutOfMemory),
        }
    }
}

// A block of what stands before the rows, and of no bytes where that was begun. Refuses only want of memory.
fn head_unless(
    begun: bool,
    alloc: Global,
    schema: &Schema,
    options: &CsvWriterOptions,
) -> Result<Block, AllocError>
    ensures { IfOk result (λ head. head ≡ (if begun then [] else head_text (frame_options options.now) (names_in schema.now))) }
{
    if begun {
        Ok(Block::new(alloc))
    } else {
        head_block(alloc, schema, options)
    }
}

// Whether columns have these names and types in order.
fn have_schema(schema: &Schema, columns: &[Column]) -> bool
    ensures { result ≡ pointwise entries_equal (schema_of columns.now) schema.now }
{
    if schema.len() != columns.len() {
        return false;
    }
    for (place, column) in columns.iter().enumerate() {
        if !is_entry(schema, place, column) {
            return false;
        }
    }
    true
}

// Whether a column has the name and the type at a place.
fn is_entry(schema: &Schema, place: usize, column: &Column) -> bool
    ensures { result ≡ option_map_or (entries_equal (column.now.name, column.now.dtype)) (slice_get schema.now place) false }
{
    match schema.get_at_index(place) {
        Some((name, dtype)) => column.name() == name.as_str() && column.dtype() == dtype,
        None => false,
    }
}
