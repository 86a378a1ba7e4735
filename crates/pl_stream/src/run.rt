//! The top call over a stream: from the words of a command line and a source to a sink, record by record.
ghost use Rattle.std.specs.Prelude.{◌≡◌, ◌≢◌, ◌≤◌, ℕ, List, map, string_bytes, IfErr, OnOk};
ghost use Rattle.pl_csv.specs.Views.{sink_view, source_view};
ghost use Rattle.pl_stream.specs.Run.{IsStreamedBy, IsWordsStreamed, IsOutcome, IsRunRefused, IsRunRefusedWith, MustStream, EndsStreamed};
ghost use Rattle.pl_stream.specs.Telling.{refusal_of, stream_status};

use crate::fault::StreamFault;
use crate::streaming::stream;
use crate::telling::tell_stream;
use pl_csv::run::Refusal;
use pl_frame::error::PolarsError;
use pl_frame::sink::Sink;
use pl_frame::source::Source;
use pl_options::read_options::CsvReadOptions;
use pl_words::job::Job;
use pl_words::words::{WordsFault, parse_words};
use pl_write::options::CsvWriterOptions;
use std::alloc::Global;

/// Why a run over a stream ends with a status other than 0.
#[derive(Debug, Drop)]
pub enum StreamRefusal {
    /// As a run over one input does: the words have no meaning; a cause stands against the options or the bytes; the source or the sink failed; the
    /// input is too long; or memory was wanting.
    Run(Refusal),
    /// No schema is given.
    NoSchema,
    /// A column that is read has categories: the least one.
    Category { column: usize },
    /// No column is read.
    NoColumn,
}

impl StreamRefusal {
    /// The status with which a run then ends.
    pub fn status(&self) -> u8
        ensures { result ≡ stream_status self.now }
    {
        match self {
            StreamRefusal::Run(refusal) => refusal.status(),
            StreamRefusal::NoSchema => 30,
            StreamRefusal::Category { .. } => 31,
            StreamRefusal::NoColumn => 32,
        }
    }
}

// The refusal for a fault of a stream.
fn refusal_of(fault: StreamFault) -> StreamRefusal
    ensures { result ≡ refusal_of fault }
{
    match fault {
        StreamFault::NoSchema => StreamRefusal::NoSchema,
        StreamFault::Category { column } => StreamRefusal::Category { column },
        StreamFault::NoColumn => StreamRefusal::NoColumn,
        StreamFault::Polars(fault) => StreamRefusal::Run(Refusal::Polars(fault)),
        StreamFault::Source => StreamRefusal::Run(Refusal::Source),
        StreamFault::Sink => StreamRefusal::Run(Refusal::Polars(PolarsError::IO)),
        StreamFault::TooLong => StreamRefusal::Run(Refusal::TooLong),
        StreamFault::OutOfMemory => StreamRefusal::Run(Refusal::Polars(PolarsError::OutOfMemory)),
    }
}

// Streams a source to a sink, in pieces as long as the options say.
fn do_stream<So: Source, Si: Sink>(
    alloc: Global,
    read: &CsvReadOptions,
    write: &CsvWriterOptions,
    source: &mut So,
    out: &mut Si,
) -> Result<(), StreamRefusal>
    ensures done { OnOk result (IsStreamedBy read.now write.now (So.left source.old) (So.left source.new) (Si.received out.old) (Si.received out.new)) }
    ensures refused { IfErr result (IsOutcome read.now write.now
        (source_view (So.left source.old) (So.faults source.old))
        (source_view (So.left source.new) (So.faults source.new))
        (sink_view (Si.received out.old) (Si.faults out.old) (Si.wants out.old))
        (sink_view (Si.received out.new) (Si.faults out.new) (Si.wants out.new))) }
    ensures source_later { So.faults source.old ≤ So.faults source.new }
    ensures later { Si.faults out.old ≤ Si.faults out.new }
    ensures wants_later { Si.wants out.old ≤ Si.wants out.new }
{
    match stream(alloc, source, out, read, write, read.chunk_size.max(1)) {
        Ok(()) => Ok(()),
        Err(fault) => Err(refusal_of(fault)),
    }
}

// Streams a source to a sink as words ask for.
fn do_words<So: Source, Si: Sink>(
    alloc: Global,
    words: &[String],
    source: &mut So,
    out: &mut Si,
) -> Result<(), StreamRefusal>
    ensures done { OnOk result (IsWordsStreamed (map string_bytes words.now) (So.left source.old) (So.left source.new) (Si.received out.old) (Si.received out.new)) }
    ensures refused { IfErr result (IsRunRefused (map string_bytes words.now)
        (source_view (So.left source.old) (So.faults source.old))
        (source_view (So.left source.new) (So.faults source.new))
        (sink_view (Si.received out.old) (Si.faults out.old) (Si.wants out.old))
        (sink_view (Si.received out.new) (Si.faults out.new) (Si.wants out.new))) }
    ensures source_later { So.faults source.old ≤ So.faults source.new }
    ensures later { Si.faults out.old ≤ Si.faults out.new }
    ensures wants_later { Si.wants out.old ≤ Si.wants out.new }
{
    match parse_words(alloc, words) {
        Ok(Job::Convert(read, write)) => {
            let done = do_stream(alloc, &read, &write, source, out);
            drop(write);
            drop(read);
            done
        }
        Ok(Job::Make { .. }) => Err(StreamRefusal::Run(Refusal::Words)),
        Err(WordsFault::Words) => Err(StreamRefusal::Run(Refusal::Words)),
        Err(WordsFault::OutOfMemory) => {
            Err(StreamRefusal::Run(Refusal::Polars(PolarsError::OutOfMemory)))
        }
    }
}

/// Reads CSV from a source record by record, writes each record to `out` as soon as its line end came, as the words ask for, and answers the status: 0
/// only where the bytes of the source have a frame, and `out` then received exactly its text.
///
/// docs/command-line.md, "A stream", has the words. Another status has its cause: 2 words without a meaning; 3 a source that failed, whose count rose; 4 a
/// fault of `out`, whose count rose; 5 want of memory; 6 more than 2^36 bytes; 30 no schema; 31 a column that is read and has categories; 32 no column that
/// is read; and else from 11 on the first cause against the options, or against the bytes so far. At 2 and at 11 to 13, 16 to 19, 21, 22 and 30 to 32 `out`
/// is as it was; at others it may have received the text of the records before. `err` receives the fault line of the status; a fault of `err` cuts it short,
/// and changes neither status nor `out`.
pub fn run_stream<So: Source, Si: Sink, Se: Sink>(
    alloc: Global,
    words: &[String],
    source: &mut So,
    out: &mut Si,
    err: &mut Se,
) -> u8
    // Status 0: the words ask for a stream, the bytes of the source have a frame, and the sink received exactly its text. The sink of errors received nothing.
    ensures done { result ≡ 0 → IsWordsStreamed (map string_bytes words.now) (So.left source.old) (So.left source.new) (Si.received out.old) (Si.received out.new) }
    ensures silent { result ≡ 0 → sink_view (Se.received err.new) (Se.faults err.new) (Se.wants err.new) ≡ sink_view (Se.received err.old) (Se.faults err.old) (Se.wants err.old) }

    // Each other status comes only by its cause, and its fault line was told.
    ensures refused { result ≢ 0 → IsRunRefusedWith (map string_bytes words.now)
        (source_view (So.left source.old) (So.faults source.old))
        (source_view (So.left source.new) (So.faults source.new))
        (sink_view (Si.received out.old) (Si.faults out.old) (Si.wants out.old))
        (sink_view (Si.received out.new) (Si.faults out.new) (Si.wants out.new))
        (sink_view (Se.received err.old) (Se.faults err.old) (Se.wants err.old))
        (sink_view (Se.received err.new) (Se.faults err.new) (Se.wants err.new))
        result }

    // Where words ask for a stream whose options are accepted, and the source tells an input that has a frame, it is written, up to want of memory and a count
    // that rose.
    ensures due { MustStream (map string_bytes words.now) (So.left source.old) → EndsStreamed result (So.faults source.old) (So.faults source.new) (Si.faults out.old) (Si.faults out.new) }

    // No count falls.
    ensures source_later { So.faults source.old ≤ So.faults source.new }
    ensures sink_later { Si.faults out.old ≤ Si.faults out.new }
    ensures sink_wants_later { Si.wants out.old ≤ Si.wants out.new }
    ensures err_later { Se.faults err.old ≤ Se.faults err.new }
    ensures err_wants_later { Se.wants err.old ≤ Se.wants err.new }
{
    match do_words(alloc, words, source, out) {
        Ok(()) => 0,
        Err(refusal) => {
            tell_stream(err, &refusal);
            refusal.status()
        }
    }
}
