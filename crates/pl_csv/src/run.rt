//! The top call: CSV from a source to a sink, by the words of a command line.
ghost use Rattle.std.specs.Prelude.{◌≡◌, ◌≢◌, ◌≤◌, ◌⊎◌, ℕ, List, map, string_bytes, IfOk, IfErr, OnOk, None, Some};
ghost use Rattle.pl_words.specs.Words.{job_of_words};
ghost use Rattle.pl_csv.specs.Run.{Makes, IsWork, HasFewRows, IsNoWork, Converted, Made, IsRefused, IsRefusedWith, IsDue, EndsAsDue, EndsAsMade};
ghost use Rattle.pl_csv.specs.Telling.{status_of, status_of_fault};
ghost use Rattle.pl_csv.specs.Views.{sink_view, views};

use crate::conversion::Conversion;
use crate::convert_source::{Unconverted, convert_source};
use crate::making::make;
use crate::telling::tell_refusal;
use pl_frame::error::{ComputeFault, NamePlace, NoDataFault, OpFault, PolarsError};
use pl_frame::sink::Sink;
use pl_frame::source::Source;
use pl_words::job::Job;
use pl_words::words::{WordsFault, parse_words};
use std::alloc::Global;
use std::sync::Wait;
use std::thread::Threads;

// What a run is to do.
#[derive(Drop)]
enum Work {
    // What the source gives is converted.
    Convert(Conversion),
    // An input of so many rows is made.
    Make {
        rows: u64,
        workers: usize,
        piece: usize,
    },
}

/// Why a run ends with a status other than 0.
#[derive(Debug, Drop)]
pub enum Refusal {
    /// The words have no meaning.
    Words,
    /// The source failed.
    Source,
    /// The source gave more than the largest input.
    TooLong,
    /// The input was not transcoded: for a cause against its frame, for a fault of the sink (`IO`), or for want of memory,
    /// which may come before the input was read as well.
    Polars(PolarsError),
}

// The status of a fault for which an input was not transcoded.
fn status_of_fault(fault: &PolarsError) -> u8
    ensures { result ≡ status_of_fault fault.now }
{
    match fault {
        PolarsError::IO => 4,
        PolarsError::OutOfMemory => 5,
        PolarsError::InvalidOperation(OpFault::Dialect) => 11,
        PolarsError::InvalidOperation(OpFault::Option) => 12,
        PolarsError::ComputeError(ComputeFault::Quote) => 13,
        PolarsError::ComputeError(ComputeFault::Compressed) => 14,
        PolarsError::NoData(NoDataFault::Empty) => 15,
        PolarsError::Duplicate {
            at: NamePlace::Schema,
            ..
        } => 16,
        PolarsError::InvalidOperation(OpFault::Overrides { .. }) => 17,
        PolarsError::ComputeError(ComputeFault::Dtype { .. }) => 18,
        PolarsError::ColumnNotFound(_) => 19,
        PolarsError::NoData(NoDataFault::Skip) => 20,
        PolarsError::OutOfBounds { .. } => 21,
        PolarsError::Duplicate {
            at: NamePlace::Projection,
            ..
        } => 22,
        PolarsError::EmptyProjection => 23,
        PolarsError::ComputeError(ComputeFault::Record { .. }) => 24,
        PolarsError::ComputeError(ComputeFault::Index { .. }) => 25,
    }
}

impl Refusal {
    /// The status with which a run then ends.
    pub fn status(&self) -> u8
        ensures { result ≡ status_of self.now }
    {
        match self {
            Refusal::Words => 2,
            Refusal::Source => 3,
            Refusal::TooLong => 6,
            Refusal::Polars(fault) => status_of_fault(fault),
        }
    }
}

// What is to be done: what the words mean.
fn work_of(alloc: Global, words: &[String]) -> Result<Work, Refusal>
    ensures work { IfOk result (IsWork (map string_bytes words.now)) }
    ensures few { IfOk result HasFewRows }
    ensures refused { IfErr result (IsNoWork (map string_bytes words.now)) }
{
    match parse_words(alloc, words) {
        Ok(Job::Convert(read, write)) => Ok(Work::Convert(Conversion { read, write })),
        Ok(
            Job::Make {
                rows,
                workers,
                piece,
            },
        ) => Ok(Work::Make {
            rows,
            workers,
            piece,
        }),
        Err(WordsFault::Words) => Err(Refusal::Words),
        Err(WordsFault::OutOfMemory) => Err(Refusal::Polars(PolarsError::OutOfMemory)),
    }
}

// Writes the text of the frame of the source, or the summary line of a made input, to the sink.
fn do_work<W: Threads + Wait + Sync, So: Source, Si: Sink>(
    rt: &W,
    alloc: Global,
    words: &[String],
    source: &mut So,
    out: &mut Si,
) -> Result<(), Refusal>
    ensures done { OnOk result (Converted (map string_bytes words.now) (So.left source.old) (So.left source.new) (Si.received out.old) (Si.received out.new)
        ⊎ Made (map string_bytes words.now) (Si.received out.old) (Si.received out.new)) }
    ensures refused { IfErr result (IsRefused (map string_bytes words.now)
        (views (So.left source.old) (So.faults source.old) (Si.received out.old) (Si.faults out.old) (Si.wants out.old))
        (views (So.left source.new) (So.faults source.new) (Si.received out.new) (Si.faults out.new) (Si.wants out.new))) }
    ensures unread { (rows workers piece : ℕ) → Makes (map string_bytes words.now) rows workers piece → source.new ≡ source.old }
    ensures source_later { So.faults source.old ≤ So.faults source.new }
    ensures sink_later { Si.faults out.old ≤ Si.faults out.new }
    ensures sink_wants_later { Si.wants out.old ≤ Si.wants out.new }
{
    match work_of(alloc, words)? {
        Work::Convert(conversion) => {
            let converted = convert_source(
                rt,
                alloc,
                source,
                &conversion.read,
                &conversion.write,
                out,
            );
            drop(conversion);
            match converted {
                Ok(()) => Ok(()),
                Err(Unconverted::Source) => Err(Refusal::Source),
                Err(Unconverted::TooLong) => Err(Refusal::TooLong),
                Err(Unconverted::Polars(fault)) => Err(Refusal::Polars(fault)),
            }
        }
        Work::Make {
            rows,
            workers,
            piece,
        } => match make(rt, alloc, rows, workers, piece, out) {
            Ok(()) => Ok(()),
            Err(fault) => Err(Refusal::Polars(fault)),
        },
    }
}

/// Reads CSV from a source under the schema that the words give, or else under the one that is inferred from the input, writes
/// the text of its frame to `out` as they say, and answers the status: 0 only where the reference read of the input exists,
/// and `out` then received exactly the text of its frame. Where the words ask for a made input, nothing is read, and at status
/// 0 `out` received the line that tells how many rows that input has, how many bytes, and how many bytes the text of its frame
/// (docs/command-line.md, "A made input").
///
/// docs/command-line.md has the words. Another status has its cause: 2 words without a meaning; 3 a fault
/// of the source; 4 one of `out`, which then received a prefix of the text; 5 want of memory, with a prefix of the text
/// or nothing received; 6 an input of more than 2^36 bytes; and from 11 on the first cause against the frame that the input
/// means, by the table of docs/command-line.md ("Statuses"). At 2, 3, 6 and from 11 on `out` received nothing. `err` receives
/// the fault line of the status; a fault of `err` cuts it short, and changes neither status nor `out`.
pub fn run<W: Threads + Wait + Sync, So: Source, Si: Sink, Se: Sink>(
    rt: &W,
    alloc: Global,
    words: &[String],
    source: &mut So,
    out: &mut Si,
    err: &mut Se,
) -> u8
    // Status 0: the words mean a conversion, the input means a frame, and the sink received exactly its text; or they mean a
    // making job, and the sink received exactly its summary line. The sink of errors received nothing.
    ensures done { result ≡ 0 → Converted (map string_bytes words.now) (So.left source.old) (So.left source.new) (Si.received out.old) (Si.received out.new)
        ⊎ Made (map string_bytes words.now) (Si.received out.old) (Si.received out.new) }
    ensures silent { result ≡ 0 → sink_view (Se.received err.new) (Se.faults err.new) (Se.wants err.new) ≡ sink_view (Se.received err.old) (Se.faults err.old) (Se.wants err.old) }

    // Each other status comes only by its cause, and its fault line was told.
    ensures refused { result ≢ 0 → IsRefusedWith (map string_bytes words.now)
        (views (So.left source.old) (So.faults source.old) (Si.received out.old) (Si.faults out.old) (Si.wants out.old))
        (views (So.left source.new) (So.faults source.new) (Si.received out.new) (Si.faults out.new) (Si.wants out.new))
        (sink_view (Se.received err.old) (Se.faults err.old) (Se.wants err.old))
        (sink_view (Se.received err.new) (Se.faults err.new) (Se.wants err.new))
        result }

    // The status that is due to the words and the input comes, up to want of memory and a count that rose.
    ensures no_meaning { job_of_words (map string_bytes words.now) ≡ None → (result ≡ 2) ⊎ (result ≡ 5) }
    ensures due { (input : List ℕ) (status : ℕ) → So.left source.old ≡ Some input → IsDue (map string_bytes words.now) input status → EndsAsDue status result
        (views (So.left source.old) (So.faults source.old) (Si.received out.old) (Si.faults out.old) (Si.wants out.old))
        (views (So.left source.new) (So.faults source.new) (Si.received out.new) (Si.faults out.new) (Si.wants out.new)) }

    // A making job reads nothing, and its status is the due one, up to want of memory and a count of the sink that rose.
    ensures unread { (rows workers piece : ℕ) → Makes (map string_bytes words.now) rows workers piece → source.new ≡ source.old }
    ensures made { (rows workers piece : ℕ) → Makes (map string_bytes words.now) rows workers piece → EndsAsMade workers piece result (Si.faults out.old) (Si.faults out.new) }

    // No count falls.
    ensures source_later { So.faults source.old ≤ So.faults source.new }
    ensures sink_later { Si.faults out.old ≤ Si.faults out.new }
    ensures sink_wants_later { Si.wants out.old ≤ Si.wants out.new }
    ensures err_later { Se.faults err.old ≤ Se.faults err.new }
    ensures err_wants_later { Se.wants err.old ≤ Se.wants err.new }
{
    match do_work(rt, alloc, words, source, out) {
        Ok(()) => 0,
        Err(refusal) => {
            tell_refusal(err, &refusal);
            refusal.status()
        }
    }
}
