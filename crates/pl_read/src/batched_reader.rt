//! Readers of batches: the rows of an input, some frames at a time.
ghost use Rattle.std.specs.Prelude.{◌≡◌, ◌⊎◌, false, true, None, IfOk, OnOk, IfErr, IfSome, IfNone, MatchOption, length};
ghost use Rattle.pl_frame.specs.declared.error.PolarsError.TheVariants as error;
ghost use Rattle.pl_options.specs.ReaderBytes.{bytes_in};
ghost use Rattle.pl_read.specs.Batches.{StandsInData, AreBatches, IsBatchCause, IsBatchFault, IsOpened, is_reached, is_over};
ghost use Rattle.pl_read.specs.BatchSteps.{AreNext, IsOpeningFaultOf};
ghost use Rattle.pl_read.specs.Steps.{MayRead};

use crate::checks::check_options;
use crate::next_frames::{NextFrames, next_frames};
use crate::preparing::{Prepared, prepare};
use crate::reading::plan_of;
use crate::workers::worker_count;
use pl_frame::error::{ComputeFault, PolarsError, PolarsResult};
use pl_frame::frame::DataFrame;
use pl_options::read_options::CsvReadOptions;
use pl_options::reader_bytes::ReaderBytes;
use std::alloc::Global;
use std::marker::Model;
use std::sync::Wait;
use std::thread::Threads;

/// Reads the rows of an input batch by batch (docs/batches.md). Contracts see the options and the settled schema, the data, what
/// is left of it, how many rows stand before that, and the fault that a call answered.
#[derive(Drop)]
pub struct BatchedCsvReader<'a> {
    alloc: Global,
    bytes: ReaderBytes<'a>,
    options: CsvReadOptions,
    prepared: Prepared,
    at: usize,
    rows: usize,
    fault: Option<ComputeFault>,
}

impl<'a> Model for BatchedCsvReader<'a> {
    ghost use Rattle.pl_options.specs.ReaderBytes.{bytes_in};
    ghost use Rattle.pl_read.specs.Batches.{Batches};
    ghost use Rattle.pl_read.specs.BatchSteps.{held, MayReadOn};

    ghost Value = { Batches };

    ghost view = { λ it. held it.options (bytes_in it.bytes) it.prepared it.at it.rows it.fault };

    ghost invariant = { λ it. MayReadOn it.options (bytes_in it.bytes) it.prepared it.at it.rows it.fault };
}

impl<'a> BatchedCsvReader<'a> {
    /// A reader of the batches of these bytes, of which none was given. With `read_unlent` and `lent_or_read` it is `batched_borrowed` in
    /// steps, each of which says what it does to the source. Refuses the first cause against the bytes that stands before those of
    /// their rows, and want of memory.
    pub fn open(
        alloc: Global,
        bytes: ReaderBytes<'a>,
        options: CsvReadOptions,
    ) -> PolarsResult<BatchedCsvReader<'a>>
        ensures opened { IfOk result (IsOpened options (bytes_in bytes.entry)) }
        ensures refused { IfErr result (IsOpeningFaultOf options (bytes_in bytes.entry)) }
    {
        match check_options(&options) {
            Ok(()) => BatchedCsvReader::open_checked(alloc, bytes, options),
            Err(fault) => {
                drop(options);
                drop(bytes);
                Err(fault)
            }
        }
    }

    // The same, where the options may stand.
    fn open_checked(
        alloc: Global,
        bytes: ReaderBytes<'a>,
        options: CsvReadOptions,
    ) -> PolarsResult<BatchedCsvReader<'a>>
        requires { MayRead options }
        ensures opened { IfOk result (IsOpened options (bytes_in bytes.entry)) }
        ensures refused { IfErr result (IsOpeningFaultOf options (bytes_in bytes.entry)) }
    {
        match prepare(alloc, bytes.bytes(), &options) {
            Ok(prepared) => {
                let at = prepared.start;
                Ok(BatchedCsvReader {
                    alloc,
                    bytes,
                    options,
                    prepared,
                    at,
                    rows: 0,
                    fault: None,
                })
            }
            Err(fault) => {
                drop(options);
                drop(bytes);
                Err(fault)
            }
        }
    }

    /// The frames of the next rows, in order: one or more, and so many at most. They are the rows of so many ranges of what is left,
    /// or of all of it where there are fewer. `None` where none is asked for, the limit of rows is reached, or nothing is left.
    ///
    /// Refuses the least of these rows that has a fault (`Record`); then, of the row index, the last number up to the end of
    /// these rows that does not fit 64 bits, or else the last code of a category in one of the frames that does not fit 32
    /// (`Index`). Every later call answers such a fault again, whatever it asks for. Refuses also want of memory, and then the
    /// reader is as it was.
    pub fn next_batches<W: Threads + Wait + Sync>(
        &mut self,
        rt: &W,
        n: usize,
    ) -> PolarsResult<Option<Vec<DataFrame>>>
        ensures none { IfOk result (λ given. MatchOption given (is_over self.old n ≡ true) (λ _. is_over self.old n ≡ false)) }
        ensures same { IfOk result (λ given. IfNone given (self.new ≡ self.old)) }
        ensures unkept { OnOk result (self.old.fault ≡ None) }
        ensures batches { IfOk result (λ given. IfSome given (λ frames. AreBatches self.old self.new n frames.items)) }
        ensures refused { IfErr result (IsBatchFault self.old self.new n) }
        ensures stands { StandsInData self.new }
    {
        if let Some(fault) = self.fault {
            return Err(PolarsError::ComputeError(fault));
        }
        if self.is_over(n) {
            return Ok(None);
        }
        match self.read_next(rt, n) {
            Ok(next) => {
                self.at += next.end;
                self.rows += next.rows;
                Ok(Some(next.frames))
            }
            Err(PolarsError::ComputeError(fault)) => {
                self.fault = Some(fault);
                Err(PolarsError::ComputeError(fault))
            }
            Err(fault) => {
                drop(fault);
                Err(PolarsError::OutOfMemory)
            }
        }
    }

    // Whether there is no batch.
    fn is_over(&self, n: usize) -> bool
        ensures { result ≡ is_over self.now n }
    {
        n == 0 || is_reached(self.options.n_rows, self.rows) || self.at == self.bytes.bytes().len()
    }

    // The frames of the next rows.
    fn read_next<W: Threads + Wait + Sync>(&self, rt: &W, n: usize) -> PolarsResult<NextFrames>
        requires { is_over self.now n ≡ false }
        ensures next { IfOk result (AreNext self.now n) }
        ensures refused { IfErr result (λ fault. IsBatchCause self.now n fault ⊎ (fault ≡ error.OutOfMemory)) }
    {
        let options = &self.options;
        let prepared = &self.prepared;
        let plan = plan_of(options, prepared);
        let rest = &self.bytes.bytes()[self.at..];
        let workers = worker_count(prepared.n_threads);
        next_frames(
            rt,
            self.alloc,
            workers,
            options,
            &prepared.schema,
            rest,
            &plan,
            self.rows,
            n,
        )
    }
}

// Whether a count of rows is the limit, or past it.
fn is_reached(limit: Option<usize>, count: usize) -> bool
    ensures { result ≡ is_reached limit count }
{
    match limit {
        Some(limit) => limit <= count,
        None => false,
    }
}

/// Reads the rows of an input batch by batch, as `BatchedCsvReader` does, and owns the bytes.
#[derive(Drop)]
pub struct OwnedBatchedCsvReader {
    reader: BatchedCsvReader<'static>,
}

impl Model for OwnedBatchedCsvReader {
    ghost use Rattle.pl_read.specs.Batches.{Batches};

    ghost Value = { Batches };

    ghost view = { λ it. it.reader };
}

impl OwnedBatchedCsvReader {
    /// A reader of the batches of these bytes, of which none was given. With `read_unlent` and `lent_or_read` it is `batched_borrowed` in
    /// steps, each of which says what it does to the source. Refuses the first cause against the bytes that stands before those of
    /// their rows, and want of memory.
    pub fn open(
        alloc: Global,
        bytes: Vec<u8>,
        options: CsvReadOptions,
    ) -> PolarsResult<OwnedBatchedCsvReader>
        ensures opened { IfOk result (IsOpened options bytes.items) }
        ensures refused { IfErr result (IsOpeningFaultOf options bytes.items) }
    {
        match BatchedCsvReader::open(alloc, ReaderBytes::Owned(bytes), options) {
            Ok(reader) => Ok(OwnedBatchedCsvReader { reader }),
            Err(fault) => Err(fault),
        }
    }

    /// The frames of the next rows, as `BatchedCsvReader::next_batches` gives them.
    pub fn next_batches<W: Threads + Wait + Sync>(
        &mut self,
        rt: &W,
        n: usize,
    ) -> PolarsResult<Option<Vec<DataFrame>>>
        ensures none { IfOk result (λ given. MatchOption given (is_over self.old n ≡ true) (λ _. is_over self.old n ≡ false)) }
        ensures same { IfOk result (λ given. IfNone given (self.new ≡ self.old)) }
        ensures unkept { OnOk result (self.old.fault ≡ None) }
        ensures batches { IfOk result (λ given. IfSome given (λ frames. AreBatches self.old self.new n frames.items)) }
        ensures refused { IfErr result (IsBatchFault self.old self.new n) }
        ensures stands { StandsInData self.new }
    {
        self.reader.next_batches(rt, n)
    }
}
