//! The reader of frames, and how readers of batches come of it.
ghost use Rattle.std.specs.Prelude.{◌≡◌, ◌≤◌, ℕ, List, Result, Some, IsSome, IfOk, IfErr, IsOkUnless};
ghost use Rattle.std.specs.Thread.{IsSync};
ghost use Rattle.pl_frame.specs.Came.{IsReadOn};
ghost use Rattle.pl_frame.specs.Frame.{ColumnValue};
ghost use Rattle.pl_frame.specs.declared.error.PolarsError.{PolarsError};
ghost use Rattle.pl_frame.specs.declared.error.PolarsError.TheVariants as error;
ghost use Rattle.pl_options.specs.Options.{default_read_options};
ghost use Rattle.pl_options.specs.ReaderBytes.{bytes_in};
ghost use Rattle.pl_read.specs.Batches.{Batches, options_under, IsOpened, IsOpening, IsOpeningFault, OfTold, IsBorrowingFault};
ghost use Rattle.pl_read.specs.BatchSteps.{IsOpeningFaultOf};
ghost use Rattle.pl_read.specs.BytesReader.{input_of};
ghost use Rattle.pl_read.specs.CsvReader.{Reader, IsInput, OfInput, IsUnlentFault, IsFinishFault, IsMeaning, AnswersUnlessFailed};
ghost use Rattle.pl_read.specs.Options.{settled_schema};
ghost use Rattle.pl_read.specs.Reading.{IsRead};
ghost use Rattle.pl_read.specs.RoundTrip.{ReturnsFrames};
ghost use Rattle.pl_read.specs.RowTest.{IsTested, tested};

use crate::ahead::{read_from, reads_ahead};
use crate::batched_reader::{BatchedCsvReader, OwnedBatchedCsvReader};
use crate::bytes_reader::{MmapBytesReader, lent_or_read, read_unlent};
use crate::reading::read_frame;
pub use crate::row_test::RowTest;
use crate::row_test::rows_wanted;
pub use pl_board::gate::{Gate, OpenGate};
use pl_frame::error::{PolarsError, PolarsResult};
use pl_frame::frame::DataFrame;
use pl_frame::schema::Schema;
use pl_options::read_options::CsvReadOptions;
use pl_options::reader_bytes::ReaderBytes;
use std::alloc::Global;
use std::marker::Model;
use std::sync::Wait;
use std::thread::Threads;

/// What reads the input of a source into a frame.
pub trait SerReader<R: MmapBytesReader> {
    /// The source, and how it is read.
    ghost state: { Self → Reader R };

    /// A reader of a source, with default options. Takes no memory.
    fn new(alloc: Global, reader: R) -> Self
        ensures { state result ≡ record { source = reader; options = default_read_options } };

    /// The reader as it is: what decides is the option `rechunk`, which `with_options` takes.
    fn set_rechunk(self, rechunk: bool) -> Self
        ensures { state result ≡ state self };

    /// The frame that the input means under the options and its settled schema. The input is what the source lends, or else
    /// what is left of it, which is read to its end first; the options stay.
    ///
    /// Refuses `IO` only where the source lends nothing and its count of faults rose, then the first cause against the input,
    /// and want of memory, in which a source without end ends.
    fn finish<W: Threads + Wait + Sync>(&mut self, rt: &W) -> PolarsResult<DataFrame>
        requires { IsSync W.row }

        // Each answer comes only by its cause.
        ensures frame { IfOk result (λ frame. OfInput R.lent R.left (state self.old).source (state self.new).source (λ input.
            IsRead (state self.old).options (settled_schema (state self.old).options input) input frame)) }
        ensures refused { IfErr result (IsFinishFault R.lent R.left R.faults (state self.old).source (state self.new).source
            (state self.old).options) }

        // And it comes where the source tells an input that means it, up to want of memory and a count that rose.
        ensures complete { (input : List ℕ) (meaning : Result (List ColumnValue) PolarsError)
            → input_of (R.lent (state self.old).source) (R.left (state self.old).source) ≡ Some input
            → IsMeaning (state self.old).options input meaning
            → AnswersUnlessFailed result meaning (R.faults (state self.old).source) (R.faults (state self.new).source) }

        // What is written is read again: the text of a frame that fits is answered by that frame, up to the same.
        ensures round_trip { ReturnsFrames (state self.old).options (input_of (R.lent (state self.old).source) (R.left (state self.old).source)) result
            (R.faults (state self.old).source) (R.faults (state self.new).source) }

        // A source that lends its bytes is not read; another one stands where its reads left it, also after a refusal.
        ensures lent { IsSome (R.lent (state self.old).source) → (state self.new).source ≡ (state self.old).source }
        ensures read_on { IsReadOn (R.left (state self.old).source) (R.left (state self.new).source) }
        ensures later { R.faults (state self.old).source ≤ R.faults (state self.new).source }
        ensures options { (state self.new).options ≡ (state self.old).options };
}

/// A reader of frames, which owns its source. Contracts see the source and the options.
#[derive(Drop)]
pub struct CsvReader<R: MmapBytesReader> {
    alloc: Global,
    reader: R,
    options: CsvReadOptions,
}

impl<R: MmapBytesReader> Model for CsvReader<R> {
    ghost use Rattle.pl_read.specs.CsvReader.{Reader};

    ghost Value = { Reader R };

    ghost view = { λ it. record { source = it.reader; options = it.options } };
}

impl<R: MmapBytesReader> CsvReader<R> {
    /// A reader of a source by these options. Takes no memory.
    pub fn with_options(alloc: Global, reader: R, options: CsvReadOptions) -> Self
        ensures { result ≡ record { source = reader; options = options } }
    {
        CsvReader {
            alloc,
            reader,
            options,
        }
    }

    /// How the source is read, without taking memory.
    pub fn options(&self) -> &CsvReadOptions
        ensures { result.now ≡ self.now.options }
    {
        &self.options
    }

    /// The frame that the input means, as `finish` gives it, with a gate round each piece that is read: `before` is called
    /// with its number before it is read, and `after` once it was posted, by the worker that reads it. Refuses what
    /// `finish` refuses.
    pub fn finish_gated<W: Threads + Wait + Sync, G: Gate + Sync>(
        &mut self,
        rt: &W,
        gate: &G,
    ) -> PolarsResult<DataFrame>
        ensures frame { IfOk result (λ frame. OfInput R.lent R.left self.old.source self.new.source (λ input. IsRead self.old.options (settled_schema self.old.options input) input frame)) }
        ensures refused { IfErr result (IsFinishFault R.lent R.left R.faults self.old.source self.new.source self.old.options) }
        ensures complete { (input : List ℕ) (meaning : Result (List ColumnValue) PolarsError)
            → input_of (R.lent self.old.source) (R.left self.old.source) ≡ Some input
            → IsMeaning self.old.options input meaning
            → AnswersUnlessFailed result meaning (R.faults self.old.source) (R.faults self.new.source) }
        ensures round_trip { ReturnsFrames self.old.options (input_of (R.lent self.old.source) (R.left self.old.source)) result (R.faults self.old.source) (R.faults self.new.source) }
        ensures lent { IsSome (R.lent self.old.source) → self.new.source ≡ self.old.source }
        ensures read_on { IsReadOn (R.left self.old.source) (R.left self.new.source) }
        ensures later { R.faults self.old.source ≤ R.faults self.new.source }
        ensures options { self.new.options ≡ self.old.options }
    {
        read_source(rt, self.alloc, gate, &mut self.reader, &self.options)
    }

    // The frame that the input means, as `finish` gives it.
    fn finish_open<W: Threads + Wait + Sync>(&mut self, rt: &W) -> PolarsResult<DataFrame>
        ensures frame { IfOk result (λ frame. OfInput R.lent R.left self.old.source self.new.source (λ input. IsRead self.old.options (settled_schema self.old.options input) input frame)) }
        ensures refused { IfErr result (IsFinishFault R.lent R.left R.faults self.old.source self.new.source self.old.options) }
        ensures complete { (input : List ℕ) (meaning : Result (List ColumnValue) PolarsError)
            → input_of (R.lent self.old.source) (R.left self.old.source) ≡ Some input
            → IsMeaning self.old.options input meaning
            → AnswersUnlessFailed result meaning (R.faults self.old.source) (R.faults self.new.source) }
        ensures round_trip { ReturnsFrames self.old.options (input_of (R.lent self.old.source) (R.left self.old.source)) result (R.faults self.old.source) (R.faults self.new.source) }
        ensures lent { IsSome (R.lent self.old.source) → self.new.source ≡ self.old.source }
        ensures read_on { IsReadOn (R.left self.old.source) (R.left self.new.source) }
        ensures later { R.faults self.old.source ≤ R.faults self.new.source }
        ensures options { self.new.options ≡ self.old.options }
    {
        read_as_given(rt, self.alloc, &mut self.reader, &self.options)
    }

    /// A reader of the input batch by batch, which borrows this one (docs/batches.md). The input is what the source lends, or else
    /// what is left of it, which is read to its end first.
    ///
    /// Refuses `IO` only where the source lends nothing, then the first cause against the input that stands before those of its
    /// rows, and want of memory, in which a source without end ends.
    pub fn batched_borrowed(&mut self) -> PolarsResult<BatchedCsvReader<'_>>
        ensures opened { IfOk result (λ batches. OfTold (R.lent self.old.source) (R.left self.old.source) (λ input. IsOpened self.old.options input batches)) }
        ensures refused { IfErr result (IsBorrowingFault (R.lent self.old.source) (R.left self.old.source) self.old.options) }
    {
        let read = match read_unlent(self.alloc, &mut self.reader) {
            Ok(read) => read,
            Err(fault) => return Err(fault),
        };
        let bytes = lent_or_read(&self.reader, read);
        match self.options.try_clone() {
            Ok(options) => BatchedCsvReader::open(self.alloc, bytes, options),
            Err(fault) => {
                drop(bytes);
                Err(fault)
            }
        }
    }

    /// A reader of the input batch by batch, which owns its bytes (docs/batches.md), under this schema in place of the option
    /// `schema`, where one is given. The input is what the source lends, of which it takes a copy, or else what is left of it, which
    /// is read to its end first; the options stay.
    ///
    /// Refuses `IO` only where the source lends nothing and its count of faults rose, then the first cause against the input that
    /// stands before those of its rows, and want of memory, in which a source without end ends.
    pub fn batched(&mut self, schema: Option<Schema>) -> PolarsResult<OwnedBatchedCsvReader>
        ensures opened { IfOk result (λ batches. OfInput R.lent R.left self.old.source self.new.source (λ input. IsOpened (options_under schema self.old.options) input batches)) }
        ensures refused { IfErr result (IsOpeningFault R.lent R.left R.faults self.old.source self.new.source (options_under schema self.old.options)) }
        ensures complete { (input : List ℕ) (opening : Result Batches PolarsError)
            → input_of (R.lent self.old.source) (R.left self.old.source) ≡ Some input
            → IsOpening (options_under schema self.old.options) input opening
            → AnswersUnlessFailed result opening (R.faults self.old.source) (R.faults self.new.source) }
        ensures lent { IsSome (R.lent self.old.source) → self.new.source ≡ self.old.source }
        ensures read_on { IsReadOn (R.left self.old.source) (R.left self.new.source) }
        ensures later { R.faults self.old.source ≤ R.faults self.new.source }
        ensures options { self.new.options ≡ self.old.options }
    {
        let bytes = match read_owned(self.alloc, &mut self.reader) {
            Ok(bytes) => bytes,
            Err(fault) => return Err(fault),
        };
        open_under(self.alloc, bytes, &self.options, schema)
    }

    /// The rows that a test wants of the frame that the input means, as `finish` gives it: numbered and limited first, and then
    /// tested. Refuses what `finish` refuses.
    pub fn finish_with<W: Threads + Wait + Sync, P: RowTest>(
        &mut self,
        rt: &W,
        predicate: &P,
    ) -> PolarsResult<DataFrame>
        ensures frame { IfOk result (λ frame. OfInput R.lent R.left self.old.source self.new.source (λ input. IsTested (P.wants predicate.now) self.old.options input frame)) }
        ensures refused { IfErr result (IsFinishFault R.lent R.left R.faults self.old.source self.new.source self.old.options) }
        ensures complete { (input : List ℕ) (meaning : Result (List ColumnValue) PolarsError)
            → input_of (R.lent self.old.source) (R.left self.old.source) ≡ Some input
            → IsMeaning self.old.options input meaning
            → AnswersUnlessFailed result (tested (P.wants predicate.now) meaning) (R.faults self.old.source) (R.faults self.new.source) }
        ensures lent { IsSome (R.lent self.old.source) → self.new.source ≡ self.old.source }
        ensures read_on { IsReadOn (R.left self.old.source) (R.left self.new.source) }
        ensures later { R.faults self.old.source ≤ R.faults self.new.source }
        ensures options { self.new.options ≡ self.old.options }
    {
        match self.finish_open(rt) {
            Ok(frame) => {
                let wanted = rows_wanted(self.alloc, &frame, predicate);
                drop(frame);
                wanted
            }
            Err(fault) => Err(fault),
        }
    }

    /// The source again, where the reads left it, without taking memory.
    pub fn into_inner(self) -> R
        ensures { result ≡ self.source }
    {
        self.reader
    }
}

// The frame that the input of a source means under options and its settled schema.
fn read_source<R: MmapBytesReader, W: Threads + Wait + Sync, G: Gate + Sync>(
    rt: &W,
    alloc: Global,
    gate: &G,
    reader: &mut R,
    options: &CsvReadOptions,
) -> PolarsResult<DataFrame>
    ensures frame { IfOk result (λ frame. OfInput R.lent R.left reader.old reader.new (λ input. IsRead options.now (settled_schema options.now input) input frame)) }
    ensures refused { IfErr result (IsFinishFault R.lent R.left R.faults reader.old reader.new options.now) }
    ensures complete { (input : List ℕ) (meaning : Result (List ColumnValue) PolarsError)
        → input_of (R.lent reader.old) (R.left reader.old) ≡ Some input
        → IsMeaning options.now input meaning
        → AnswersUnlessFailed result meaning (R.faults reader.old) (R.faults reader.new) }
    ensures lent { IsSome (R.lent reader.old) → reader.new ≡ reader.old }
    ensures read_on { IsReadOn (R.left reader.old) (R.left reader.new) }
    ensures later { R.faults reader.old ≤ R.faults reader.new }
{
    let read = match read_unlent(alloc, reader) {
        Ok(read) => read,
        Err(fault) => return Err(fault),
    };
    let input = lent_or_read(reader, read);
    let frame = read_frame(rt, alloc, gate, input.bytes(), options);
    drop(input);
    frame
}

// The same, where nobody waits for a gate: what a source gives is read while it comes, where its front tells how.
fn read_as_given<R: MmapBytesReader, W: Threads + Wait + Sync>(
    rt: &W,
    alloc: Global,
    reader: &mut R,
    options: &CsvReadOptions,
) -> PolarsResult<DataFrame>
    ensures frame { IfOk result (λ frame. OfInput R.lent R.left reader.old reader.new (λ input. IsRead options.now (settled_schema options.now input) input frame)) }
    ensures refused { IfErr result (IsFinishFault R.lent R.left R.faults reader.old reader.new options.now) }
    ensures complete { (input : List ℕ) (meaning : Result (List ColumnValue) PolarsError)
        → input_of (R.lent reader.old) (R.left reader.old) ≡ Some input
        → IsMeaning options.now input meaning
        → AnswersUnlessFailed result meaning (R.faults reader.old) (R.faults reader.new) }
    ensures lent { IsSome (R.lent reader.old) → reader.new ≡ reader.old }
    ensures read_on { IsReadOn (R.left reader.old) (R.left reader.new) }
    ensures later { R.faults reader.old ≤ R.faults reader.new }
{
    if reader.to_bytes().is_none() && reads_ahead(options) {
        return read_from(rt, alloc, reader, options);
    }
    read_source(rt, alloc, &OpenGate, reader, options)
}

// Options under a schema in place of their own, where one is given. Refuses only want of memory.
fn options_under(options: &CsvReadOptions, schema: Option<Schema>) -> PolarsResult<CsvReadOptions>
    ensures options { IfOk result (λ given. given ≡ options_under schema options.now) }
    ensures refused { IsOkUnless result error.OutOfMemory }
{
    match options.try_clone() {
        Ok(options) => Ok(match schema {
            Some(schema) => options.with_schema(Some(schema)),
            None => options,
        }),
        Err(fault) => {
            drop(schema);
            Err(fault)
        }
    }
}

// The bytes of an input, owned. Refuses only want of memory.
fn owned_bytes(alloc: Global, bytes: ReaderBytes<'_>) -> PolarsResult<Vec<u8>>
    ensures bytes { IfOk result (λ owned. owned.items ≡ bytes_in bytes.entry) }
    ensures refused { IsOkUnless result error.OutOfMemory }
{
    match bytes {
        ReaderBytes::Owned(bytes) => Ok(bytes),
        ReaderBytes::Borrowed(bytes) => match bytes.to_vec(alloc) {
            Ok(copy) => Ok(copy),
            Err(_) => Err(PolarsError::OutOfMemory),
        },
    }
}

// A reader of the batches of these bytes, by options under a schema in place of their own, where one is given.
fn open_under(
    alloc: Global,
    bytes: Vec<u8>,
    options: &CsvReadOptions,
    schema: Option<Schema>,
) -> PolarsResult<OwnedBatchedCsvReader>
    ensures opened { IfOk result (IsOpened (options_under schema options.now) bytes.items) }
    ensures refused { IfErr result (IsOpeningFaultOf (options_under schema options.now) bytes.items) }
{
    let options = match options_under(options, schema) {
        Ok(options) => options,
        Err(fault) => {
            drop(bytes);
            return Err(fault);
        }
    };
    OwnedBatchedCsvReader::open(alloc, bytes, options)
}

// The input of a source, owned. Refuses `IO` only where the source lends nothing and its count of faults rose, and want of memory.
fn read_owned<R: MmapBytesReader>(alloc: Global, reader: &mut R) -> PolarsResult<Vec<u8>>
    ensures input { IfOk result (λ bytes. IsInput (R.lent reader.old) (R.left reader.old) (R.left reader.new) bytes.items) }
    ensures refused { IfErr result (IsUnlentFault (R.lent reader.old) (R.faults reader.old) (R.faults reader.new)) }
    ensures lent { IsSome (R.lent reader.old) → reader.new ≡ reader.old }
    ensures read_on { IsReadOn (R.left reader.old) (R.left reader.new) }
    ensures later { R.faults reader.old ≤ R.faults reader.new }
{
    let read = match read_unlent(alloc, reader) {
        Ok(read) => read,
        Err(fault) => return Err(fault),
    };
    match owned_bytes(alloc, lent_or_read(reader, read)) {
        Ok(bytes) => Ok(bytes),
        Err(fault) => Err(fault),
    }
}

/// A reader of the input of a reader batch by batch, which owns its bytes, as `CsvReader::batched` gives it without a schema.
pub fn to_batched_owned<R: MmapBytesReader>(
    reader: &mut CsvReader<R>,
) -> PolarsResult<OwnedBatchedCsvReader>
    ensures opened { IfOk result (λ batches. OfInput R.lent R.left reader.old.source reader.new.source (λ input. IsOpened reader.old.options input batches)) }
    ensures refused { IfErr result (IsOpeningFault R.lent R.left R.faults reader.old.source reader.new.source reader.old.options) }
    ensures complete { (input : List ℕ) (opening : Result Batches PolarsError)
        → input_of (R.lent reader.old.source) (R.left reader.old.source) ≡ Some input
        → IsOpening reader.old.options input opening
        → AnswersUnlessFailed result opening (R.faults reader.old.source) (R.faults reader.new.source) }
    ensures lent { IsSome (R.lent reader.old.source) → reader.new.source ≡ reader.old.source }
    ensures read_on { IsReadOn (R.left reader.old.source) (R.left reader.new.source) }
    ensures later { R.faults reader.old.source ≤ R.faults reader.new.source }
    ensures options { reader.new.options ≡ reader.old.options }
{
    reader.batched(None)
}

impl<R: MmapBytesReader> SerReader<R> for CsvReader<R> {
    ghost state = { λ it. it };

    fn new(alloc: Global, reader: R) -> Self {
        CsvReader::with_options(alloc, reader, CsvReadOptions::new(alloc))
    }

    fn set_rechunk(self, _rechunk: bool) -> Self {
        self
    }

    fn finish<W: Threads + Wait + Sync>(&mut self, rt: &W) -> PolarsResult<DataFrame> {
        self.finish_open(rt)
    }
}
