//! The top call over an index: from the words of a command line and what an opener holds to the bytes of an index, or to the text of a slice.
ghost use Rattle.std.specs.Prelude.{◌≡◌, ◌≢◌, ◌≤◌, ◌<◌, ℕ, false, List, map, string_bytes, None, Ok, IfOk, IfErr, OnOk};
ghost use Rattle.std.specs.Io.KnownBytes.{Appends};
ghost use Rattle.pl_text.specs.FrameText.{text_of_frame};
ghost use Rattle.pl_write.specs.Options.{frame_options};
ghost use Rattle.pl_csv.specs.Views.{sink_view};
ghost use Rattle.pl_seek.specs.Building.{index_in, MayIndex, IsBuildFault};
ghost use Rattle.pl_seek.specs.Files.{IsHeld, IsReadAnd};
ghost use Rattle.pl_seek.specs.Index as index;
ghost use Rattle.pl_seek.specs.Meaning.{IsBoundBy, IsBuildMeaning, IsSliceFault, IsMeaning, is_unprintable};
ghost use Rattle.pl_seek.specs.Run.{opener_view, IsNoText, IsTextFault, IsWritten, IsUnwritten, IsSeekWritten, IsSeekRefused, IsSeekRefusedWith, IsSeekDue, EndsAsSeekDue};
ghost use Rattle.pl_seek.specs.Slices.{slice_cause, slice_frame, slice_rows};
ghost use Rattle.pl_seek.specs.Telling.{seek_status, refusal_of, sink_refusal};
ghost use Rattle.pl_seek.specs.Words.{MayAsk};
ghost use Rattle.pl_seek.specs.declared.job.SeekJob.TheVariants as job;

use crate::bind::bind;
use crate::build::build_index;
use crate::fault::SeekFault;
use crate::files::read_path;
use crate::index::SeekIndex;
use crate::job::SeekJob;
use crate::seek_words::parse_seek;
use crate::telling::tell_seek;
use pl_csv::run::Refusal;
use pl_frame::error::{ComputeFault, PolarsError};
use pl_frame::frame::DataFrame;
use pl_frame::opener::Opener;
use pl_frame::sink::{Sink, SinkFault, write_all};
use pl_options::read_options::CsvReadOptions;
use pl_read::workers::worker_count;
use pl_words::words::WordsFault;
use pl_write::options::CsvWriterOptions;
use pl_write::writer::write_frame;
use std::alloc::Global;
use std::thread::Threads;

/// Why a run over an index ends with a status other than 0.
#[derive(Debug, Drop)]
pub enum SeekRefusal {
    /// As a run over one input does: the words have no meaning; a file was not opened or not read to its end, or is too long; a cause
    /// stands against the options of the read, its input, or the quote of the output; the sink failed; or memory was wanting.
    Run(Refusal),
    /// The bytes are no index.
    Format,
    /// The index is that of another input.
    Input,
    /// The index was built by other options.
    Settings,
    /// The index has a place that the input does not have.
    Places { number: usize },
}

impl SeekRefusal {
    /// The status with which a run then ends.
    pub fn status(&self) -> u8
        ensures { result ≡ seek_status self.now }
    {
        match self {
            SeekRefusal::Run(refusal) => refusal.status(),
            SeekRefusal::Format => 30,
            SeekRefusal::Input => 31,
            SeekRefusal::Settings => 32,
            SeekRefusal::Places { .. } => 33,
        }
    }
}

// The refusal for a cause against an index or a slice.
fn refusal_of(cause: SeekFault) -> SeekRefusal
    ensures { result ≡ refusal_of cause }
{
    match cause {
        SeekFault::Options => SeekRefusal::Run(Refusal::Words),
        SeekFault::Polars(fault) => SeekRefusal::Run(Refusal::Polars(fault)),
        SeekFault::Format => SeekRefusal::Format,
        SeekFault::Input => SeekRefusal::Input,
        SeekFault::Settings => SeekRefusal::Settings,
        SeekFault::Places { number } => SeekRefusal::Places { number },
        SeekFault::OutOfMemory => SeekRefusal::Run(Refusal::Polars(PolarsError::OutOfMemory)),
    }
}

// The refusal for a fault of the sink.
fn sink_refusal(fault: SinkFault) -> SeekRefusal
    ensures { result ≡ sink_refusal fault }
{
    match fault {
        SinkFault::Device => SeekRefusal::Run(Refusal::Polars(PolarsError::IO)),
        SinkFault::OutOfMemory => SeekRefusal::Run(Refusal::Polars(PolarsError::OutOfMemory)),
    }
}

// The bytes of the index of an input.
fn index_bytes(
    alloc: Global,
    input: &[u8],
    every: usize,
    read: &CsvReadOptions,
) -> Result<Vec<u8>, SeekFault>
    requires { 0 < every }
    ensures bytes { IfOk result (λ bytes. MayIndex read.now input.now × (bytes.items ≡ index.index_bytes (index_in read.now every input.now))) }
    ensures refused { IfErr result (IsBuildFault read.now input.now) }
{
    let index = build_index(alloc, input, read, every)?;
    let bytes = index.to_bytes();
    drop(index);
    bytes
}

// The bytes of the index of the input at a path.
fn build<O: Opener>(
    alloc: Global,
    opener: &mut O,
    every: usize,
    path: &str,
    read: &CsvReadOptions,
) -> Result<Vec<u8>, SeekRefusal>
    requires { 0 < every }
    ensures bytes { IfOk result (λ bytes. IsReadAnd (IsHeld (O.holds opener.old)) path.now (IsBuildMeaning read.now every) (Ok bytes.items)) }
    ensures refused { IfErr result (IsNoText (IsReadAnd (IsHeld (O.holds opener.old)) path.now (IsBuildMeaning read.now every)) (O.faults opener.old) (O.faults opener.new)) }
    ensures later { O.faults opener.old ≤ O.faults opener.new }
    ensures stays { (path : List ℕ) → O.holds opener.new path ≡ O.holds opener.old path }
{
    let input = match read_path(alloc, opener, path) {
        Ok(input) => input,
        Err(refusal) => return Err(SeekRefusal::Run(refusal)),
    };
    let bytes = index_bytes(alloc, &input, every, read);
    drop(input);
    match bytes {
        Ok(bytes) => Ok(bytes),
        Err(cause) => Err(refusal_of(cause)),
    }
}

// The records of an input from one on, at most so many, which the index with these bytes is bound to.
fn slice_by(
    alloc: Global,
    input: &[u8],
    bytes: &[u8],
    start: usize,
    count: usize,
    read: &CsvReadOptions,
) -> Result<DataFrame, SeekFault>
    ensures bound { OnOk result (IsBoundBy read.now input.now bytes.now) }
    ensures sound { OnOk result (slice_cause read.now start (slice_rows read.now input.now start count) ≡ None) }
    ensures frame { IfOk result (λ frame. frame ≡ slice_frame read.now start (slice_rows read.now input.now start count)) }
    ensures refused { IfErr result (IsSliceFault read.now start count input.now bytes.now) }
{
    let index = match SeekIndex::from_bytes(alloc, bytes) {
        Ok(index) => index,
        Err(cause) => return Err(cause),
    };
    let bound = match bind(alloc, input, read, index) {
        Ok(bound) => bound,
        Err(cause) => return Err(cause),
    };
    let frame = bound.slice(alloc, start, count);
    drop(bound);
    frame
}

// The records of the input at a path from one on, at most so many, which the index at another path is bound to.
fn slice<O: Opener>(
    alloc: Global,
    opener: &mut O,
    start: usize,
    count: usize,
    path: &str,
    index_path: &str,
    read: &CsvReadOptions,
) -> Result<DataFrame, SeekRefusal>
    ensures frame { (write : CsvWriterOptions) → IfOk result (λ frame. IsMeaning (IsHeld (O.holds opener.old)) (job.Slice start count path.now index_path.now read.now write) (Ok (text_of_frame (frame_options write) frame))) }
    ensures refused { (write : CsvWriterOptions) → IfErr result (IsNoText (IsMeaning (IsHeld (O.holds opener.old)) (job.Slice start count path.now index_path.now read.now write)) (O.faults opener.old) (O.faults opener.new)) }
    ensures later { O.faults opener.old ≤ O.faults opener.new }
    ensures stays { (path : List ℕ) → O.holds opener.new path ≡ O.holds opener.old path }
{
    let input = match read_path(alloc, opener, path) {
        Ok(input) => input,
        Err(refusal) => return Err(SeekRefusal::Run(refusal)),
    };
    let bytes = match read_path(alloc, opener, index_path) {
        Ok(bytes) => bytes,
        Err(refusal) => return Err(SeekRefusal::Run(refusal)),
    };
    let frame = slice_by(alloc, &input, &bytes, start, count, read);
    drop(bytes);
    drop(input);
    match frame {
        Ok(frame) => Ok(frame),
        Err(cause) => Err(refusal_of(cause)),
    }
}

// Writes the bytes of an index to the sink.
fn write_index<Si: Sink>(bytes: Vec<u8>, out: &mut Si) -> Result<(), SeekRefusal>
    ensures text { OnOk result (Appends (Si.received out.old) (Si.received out.new) (bytes.items)) }
    ensures refused { IfErr result (IsTextFault (bytes.items)
        (sink_view (Si.received out.old) (Si.faults out.old) (Si.wants out.old))
        (sink_view (Si.received out.new) (Si.faults out.new) (Si.wants out.new))) }
    ensures later { Si.faults out.old ≤ Si.faults out.new }
    ensures wants_later { Si.wants out.old ≤ Si.wants out.new }
{
    let written = write_all(out, &bytes);
    drop(bytes);
    match written {
        Ok(()) => Ok(()),
        Err(fault) => Err(sink_refusal(fault)),
    }
}

// Writes the text of a slice to the sink.
fn write_slice<W: Threads + Sync, Si: Sink>(
    rt: &W,
    alloc: Global,
    frame: DataFrame,
    read: &CsvReadOptions,
    write: &CsvWriterOptions,
    out: &mut Si,
) -> Result<(), SeekRefusal>
    ensures text { OnOk result (Appends (Si.received out.old) (Si.received out.new) (text_of_frame (frame_options write.now) frame)) }
    ensures refused { IfErr result (IsTextFault (text_of_frame (frame_options write.now) frame)
        (sink_view (Si.received out.old) (Si.faults out.old) (Si.wants out.old))
        (sink_view (Si.received out.new) (Si.faults out.new) (Si.wants out.new))) }
    ensures later { Si.faults out.old ≤ Si.faults out.new }
    ensures wants_later { Si.wants out.old ≤ Si.wants out.new }
{
    let workers = worker_count(read.n_threads);
    let written = write_frame(rt, alloc, workers, frame.columns(), write, out);
    drop(frame);
    match written {
        Ok(()) => Ok(()),
        Err(fault) => Err(sink_refusal(fault)),
    }
}

// Whether a text is asked for that can't be written: its quote is not ASCII.
fn is_unprintable(job: &SeekJob) -> bool
    ensures { result ≡ is_unprintable job.now }
{
    match job {
        SeekJob::Build { .. } => false,
        SeekJob::Slice { write, .. } => !write.serialize_options.quote_char.is_ascii(),
    }
}

// Writes the bytes or the text that a job asks for to the sink.
fn write_job<W: Threads + Sync, O: Opener, Si: Sink>(
    rt: &W,
    alloc: Global,
    job: &SeekJob,
    opener: &mut O,
    out: &mut Si,
) -> Result<(), SeekRefusal>
    requires sized { MayAsk job.now }
    requires printable { is_unprintable job.now ≡ false }
    ensures done { OnOk result (IsWritten (O.holds opener.old) job.now (Si.received out.old) (Si.received out.new)) }
    ensures refused { IfErr result (IsUnwritten job.now (opener_view (O.holds opener.old) (O.faults opener.old)) (O.faults opener.new)
        (sink_view (Si.received out.old) (Si.faults out.old) (Si.wants out.old))
        (sink_view (Si.received out.new) (Si.faults out.new) (Si.wants out.new))) }
    ensures opener_later { O.faults opener.old ≤ O.faults opener.new }
    ensures stays { (path : List ℕ) → O.holds opener.new path ≡ O.holds opener.old path }
    ensures sink_later { Si.faults out.old ≤ Si.faults out.new }
    ensures sink_wants_later { Si.wants out.old ≤ Si.wants out.new }
{
    match job {
        SeekJob::Build { every, path, read } => {
            match build(alloc, opener, *every, path.as_str(), read) {
                Ok(bytes) => write_index(bytes, out),
                Err(refusal) => Err(refusal),
            }
        }
        SeekJob::Slice {
            start,
            count,
            path,
            index_path,
            read,
            write,
        } => {
            let (path, index_path) = (path.as_str(), index_path.as_str());
            match slice(alloc, opener, *start, *count, path, index_path, read) {
                Ok(frame) => write_slice(rt, alloc, frame, read, write, out),
                Err(refusal) => Err(refusal),
            }
        }
    }
}

// The same of a job whose text may be one that can't be written.
fn do_job<W: Threads + Sync, O: Opener, Si: Sink>(
    rt: &W,
    alloc: Global,
    job: &SeekJob,
    opener: &mut O,
    out: &mut Si,
) -> Result<(), SeekRefusal>
    requires { MayAsk job.now }
    ensures done { OnOk result (IsWritten (O.holds opener.old) job.now (Si.received out.old) (Si.received out.new)) }
    ensures refused { IfErr result (IsUnwritten job.now (opener_view (O.holds opener.old) (O.faults opener.old)) (O.faults opener.new)
        (sink_view (Si.received out.old) (Si.faults out.old) (Si.wants out.old))
        (sink_view (Si.received out.new) (Si.faults out.new) (Si.wants out.new))) }
    ensures opener_later { O.faults opener.old ≤ O.faults opener.new }
    ensures stays { (path : List ℕ) → O.holds opener.new path ≡ O.holds opener.old path }
    ensures sink_later { Si.faults out.old ≤ Si.faults out.new }
    ensures sink_wants_later { Si.wants out.old ≤ Si.wants out.new }
{
    if is_unprintable(job) {
        let fault = PolarsError::ComputeError(ComputeFault::Quote);
        return Err(SeekRefusal::Run(Refusal::Polars(fault)));
    }
    write_job(rt, alloc, job, opener, out)
}

// Writes the bytes or the text that words ask for to the sink.
fn do_words<W: Threads + Sync, O: Opener, Si: Sink>(
    rt: &W,
    alloc: Global,
    words: &[String],
    opener: &mut O,
    out: &mut Si,
) -> Result<(), SeekRefusal>
    ensures done { OnOk result (IsSeekWritten (map string_bytes words.now) (O.holds opener.old) (Si.received out.old) (Si.received out.new)) }
    ensures refused { IfErr result (IsSeekRefused (map string_bytes words.now) (opener_view (O.holds opener.old) (O.faults opener.old)) (O.faults opener.new)
        (sink_view (Si.received out.old) (Si.faults out.old) (Si.wants out.old))
        (sink_view (Si.received out.new) (Si.faults out.new) (Si.wants out.new))) }
    ensures opener_later { O.faults opener.old ≤ O.faults opener.new }
    ensures stays { (path : List ℕ) → O.holds opener.new path ≡ O.holds opener.old path }
    ensures sink_later { Si.faults out.old ≤ Si.faults out.new }
    ensures sink_wants_later { Si.wants out.old ≤ Si.wants out.new }
{
    match parse_seek(alloc, words) {
        Ok(job) => {
            let done = do_job(rt, alloc, &job, opener, out);
            drop(job);
            done
        }
        Err(WordsFault::Words) => Err(SeekRefusal::Run(Refusal::Words)),
        Err(WordsFault::OutOfMemory) => {
            Err(SeekRefusal::Run(Refusal::Polars(PolarsError::OutOfMemory)))
        }
    }
}

/// Writes the bytes of the index of a file to `out`, or the text of a slice of a file that an index is bound to, as the words ask for, and
/// answers the status: 0 only where the files mean such bytes or such a text, and `out` then received exactly these.
///
/// docs/command-line.md, "An index", has the words. Another status has its cause: 2 words without a meaning, or with options that an index
/// can't have, before anything is opened; 13 a quote for the text of a slice that is not ASCII, before anything is opened; 3 a file that was
/// not opened or not read to its end, where the count of the opener rose; 6 a file of more than 2^36 bytes; 30 bytes that are no index; 31
/// the index of another input; 32 one of other settings; 33 one with a place that is not that of the input; 4 a fault of `out`, which then
/// received a prefix of the text; 5 want of memory, with a prefix of the text or nothing received; and else from 11 on the first cause
/// against the options of the read, the input or the records of the slice. Only at 4 and 5 `out` may have received anything. `err` receives
/// the fault line of the status; a fault of `err` cuts it short, and changes neither status nor `out`.
pub fn run_seek<W: Threads + Sync, O: Opener, Si: Sink, Se: Sink>(
    rt: &W,
    alloc: Global,
    words: &[String],
    opener: &mut O,
    out: &mut Si,
    err: &mut Se,
) -> u8
    // Status 0: the words ask for an index or a slice, which the files have, and the sink received exactly it. The sink of errors received
    // nothing.
    ensures done { result ≡ 0 → IsSeekWritten (map string_bytes words.now) (O.holds opener.old) (Si.received out.old) (Si.received out.new) }
    ensures silent { result ≡ 0 → sink_view (Se.received err.new) (Se.faults err.new) (Se.wants err.new) ≡ sink_view (Se.received err.old) (Se.faults err.old) (Se.wants err.old) }

    // Each other status comes only by its cause, and its fault line was told.
    ensures refused { result ≢ 0 → IsSeekRefusedWith (map string_bytes words.now) (opener_view (O.holds opener.old) (O.faults opener.old)) (O.faults opener.new)
        (sink_view (Si.received out.old) (Si.faults out.old) (Si.wants out.old))
        (sink_view (Si.received out.new) (Si.faults out.new) (Si.wants out.new))
        (sink_view (Se.received err.old) (Se.faults err.old) (Se.wants err.old))
        (sink_view (Se.received err.new) (Se.faults err.new) (Se.wants err.new))
        result }

    // The status that is due to the words and the files comes, up to want of memory and a count that rose.
    ensures due { (status : ℕ) → IsSeekDue (map string_bytes words.now) (O.holds opener.old) status
        → EndsAsSeekDue status result (O.faults opener.old) (O.faults opener.new) (Si.faults out.old) (Si.faults out.new) }

    // The opener holds the same, and no count falls.
    ensures stays { (path : List ℕ) → O.holds opener.new path ≡ O.holds opener.old path }
    ensures opener_later { O.faults opener.old ≤ O.faults opener.new }
    ensures sink_later { Si.faults out.old ≤ Si.faults out.new }
    ensures sink_wants_later { Si.wants out.old ≤ Si.wants out.new }
    ensures err_later { Se.faults err.old ≤ Se.faults err.new }
    ensures err_wants_later { Se.wants err.old ≤ Se.wants err.new }
{
    match do_words(rt, alloc, words, opener, out) {
        Ok(()) => 0,
        Err(refusal) => {
            tell_seek(err, &refusal);
            refusal.status()
        }
    }
}
