//! The top call over many files: from the words of a command line and what an opener holds to the text of their joined read.
ghost use Rattle.std.specs.Prelude.{◌≡◌, ◌≢◌, ◌≤◌, ℕ, List, map, string_bytes, IfErr, OnOk};
ghost use Rattle.std.specs.Io.KnownBytes.{Appends};
ghost use Rattle.pl_csv.specs.Views.{sink_view};
ghost use Rattle.pl_multi.specs.Printing.{joined_text};
ghost use Rattle.pl_multi.specs.Run.{opener_view, IsWritten, IsTextFault, IsUnwritten, IsMultiWritten, IsMultiRefused, IsMultiRefusedWith, IsDueJoined, IsMultiDue, EndsAsMultiDue, outcome_status};
ghost use Rattle.pl_multi.specs.Telling.{multi_status, refusal_of};
ghost use Rattle.pl_multi.specs.Words.{asked};

use crate::multi_words::{MultiJob, parse_multi};
use crate::printing::{Joined, read_parts, write_joined};
use crate::scan::MultiFault;
use crate::telling::tell_multi;
use pl_csv::run::Refusal;
use pl_frame::error::{ComputeFault, PolarsError};
use pl_frame::name::PlSmallStr;
use pl_frame::opener::Opener;
use pl_frame::sink::{Sink, SinkFault};
use pl_words::words::WordsFault;
use std::alloc::Global;
use std::sync::Wait;
use std::thread::Threads;

/// Why a run over many files ends with a status other than 0.
#[derive(Debug, Drop)]
pub enum MultiRefusal {
    /// As a run over one input does: the words have no meaning; a cause stands against the options of the read, or the quote of the
    /// output; the sink failed; or memory was wanting.
    Run(Refusal),
    /// This part was refused, as a run refuses its input: it was not opened or not read to its end, or a cause stands against its bytes.
    Part { part: usize, refusal: Refusal },
    /// The values of this part have other names than those of the first.
    Partitions { part: usize },
    /// The name of a value that an earlier column has.
    Duplicate { name: PlSmallStr },
    /// The last number of the row index does not fit 64 bits, or a code of a category does not fit 32.
    Index,
}

impl MultiRefusal {
    /// The status with which a run then ends.
    pub fn status(&self) -> u8
        ensures { result ≡ multi_status self.now }
    {
        match self {
            MultiRefusal::Run(refusal) => refusal.status(),
            MultiRefusal::Part { refusal, .. } => refusal.status(),
            MultiRefusal::Partitions { .. } => 30,
            MultiRefusal::Duplicate { .. } => 31,
            MultiRefusal::Index => 32,
        }
    }
}

// The refusal for a cause against a joined read.
fn refusal_of(cause: MultiFault) -> MultiRefusal
    ensures { result ≡ refusal_of cause }
{
    match cause {
        MultiFault::Options => MultiRefusal::Run(Refusal::Words),
        MultiFault::Read(fault) => MultiRefusal::Run(Refusal::Polars(fault)),
        MultiFault::Partitions { part } => MultiRefusal::Partitions { part },
        MultiFault::Duplicate { name } => MultiRefusal::Duplicate { name },
        MultiFault::Part { part, fault } => MultiRefusal::Part {
            part,
            refusal: Refusal::Polars(fault),
        },
        MultiFault::Io { part } => MultiRefusal::Part {
            part,
            refusal: Refusal::Source,
        },
        MultiFault::Index { .. } => MultiRefusal::Index,
        MultiFault::OutOfMemory => MultiRefusal::Run(Refusal::Polars(PolarsError::OutOfMemory)),
    }
}

// Writes the text of what was read of all parts to the sink.
fn write_read<W: Threads + Wait + Sync, Si: Sink>(
    rt: &W,
    alloc: Global,
    joined: Joined,
    job: &MultiJob,
    out: &mut Si,
) -> Result<(), MultiRefusal>
    ensures text { OnOk result (Appends (Si.received out.old) (Si.received out.new) (joined_text job.now.write joined)) }
    ensures refused { IfErr result (IsTextFault (joined_text job.now.write joined)
        (sink_view (Si.received out.old) (Si.faults out.old) (Si.wants out.old))
        (sink_view (Si.received out.new) (Si.faults out.new) (Si.wants out.new))) }
    ensures later { Si.faults out.old ≤ Si.faults out.new }
    ensures wants_later { Si.wants out.old ≤ Si.wants out.new }
{
    let written = write_joined(rt, alloc, &joined, job, out);
    drop(joined);
    match written {
        Ok(()) => Ok(()),
        Err(SinkFault::Device) => Err(MultiRefusal::Run(Refusal::Polars(PolarsError::IO))),
        Err(SinkFault::OutOfMemory) => {
            Err(MultiRefusal::Run(Refusal::Polars(PolarsError::OutOfMemory)))
        }
    }
}

// Writes the text of the joined read that a job asks for to the sink.
fn do_job<W: Threads + Wait + Sync, O: Opener, Si: Sink>(
    rt: &W,
    alloc: Global,
    job: &MultiJob,
    opener: &mut O,
    out: &mut Si,
) -> Result<(), MultiRefusal>
    ensures done { OnOk result (IsWritten (O.holds opener.old) (asked job.now) (Si.received out.old) (Si.received out.new)) }
    ensures refused { IfErr result (IsUnwritten (asked job.now) (opener_view (O.holds opener.old) (O.faults opener.old)) (O.faults opener.new)
        (sink_view (Si.received out.old) (Si.faults out.old) (Si.wants out.old))
        (sink_view (Si.received out.new) (Si.faults out.new) (Si.wants out.new))) }
    ensures due { (status : ℕ) → IsDueJoined (asked job.now) (O.holds opener.old) status
        → EndsAsMultiDue status (outcome_status result) (O.faults opener.old) (O.faults opener.new) (Si.faults out.old) (Si.faults out.new) }
    ensures opener_later { O.faults opener.old ≤ O.faults opener.new }
    ensures stays { (path : List ℕ) → O.holds opener.new path ≡ O.holds opener.old path }
    ensures sink_later { Si.faults out.old ≤ Si.faults out.new }
    ensures sink_wants_later { Si.wants out.old ≤ Si.wants out.new }
{
    if !job.write.serialize_options.quote_char.is_ascii() {
        let fault = PolarsError::ComputeError(ComputeFault::Quote);
        return Err(MultiRefusal::Run(Refusal::Polars(fault)));
    }
    match read_parts(rt, alloc, opener, job) {
        Ok(joined) => write_read(rt, alloc, joined, job, out),
        Err(cause) => Err(refusal_of(cause)),
    }
}

// Writes the text of the joined read that words ask for to the sink.
fn do_words<W: Threads + Wait + Sync, O: Opener, Si: Sink>(
    rt: &W,
    alloc: Global,
    words: &[String],
    opener: &mut O,
    out: &mut Si,
) -> Result<(), MultiRefusal>
    ensures done { OnOk result (IsMultiWritten (map string_bytes words.now) (O.holds opener.old) (Si.received out.old) (Si.received out.new)) }
    ensures refused { IfErr result (IsMultiRefused (map string_bytes words.now) (opener_view (O.holds opener.old) (O.faults opener.old)) (O.faults opener.new)
        (sink_view (Si.received out.old) (Si.faults out.old) (Si.wants out.old))
        (sink_view (Si.received out.new) (Si.faults out.new) (Si.wants out.new))) }
    ensures due { (status : ℕ) → IsMultiDue (map string_bytes words.now) (O.holds opener.old) status
        → EndsAsMultiDue status (outcome_status result) (O.faults opener.old) (O.faults opener.new) (Si.faults out.old) (Si.faults out.new) }
    ensures opener_later { O.faults opener.old ≤ O.faults opener.new }
    ensures stays { (path : List ℕ) → O.holds opener.new path ≡ O.holds opener.old path }
    ensures sink_later { Si.faults out.old ≤ Si.faults out.new }
    ensures sink_wants_later { Si.wants out.old ≤ Si.wants out.new }
{
    match parse_multi(alloc, words) {
        Ok(job) => {
            let done = do_job(rt, alloc, &job, opener, out);
            drop(job);
            done
        }
        Err(WordsFault::Words) => Err(MultiRefusal::Run(Refusal::Words)),
        Err(WordsFault::OutOfMemory) => {
            Err(MultiRefusal::Run(Refusal::Polars(PolarsError::OutOfMemory)))
        }
    }
}

/// Reads many files under one schema into one frame, as the words ask for (`scan_multi`), writes the text of the frame to `out`, and answers
/// the status: 0 only where the joined read of the parts exists, and `out` then received exactly its text.
///
/// docs/command-line.md, "Many files", has the words. Another status has its cause: 2 words without a meaning; 13 a quote for the output
/// that is not ASCII, before anything is opened; 3 a part that was not opened or not read to its end, where the count of the opener rose; 4 a
/// fault of `out`, which then received a prefix of the text; 5 want of memory, with a prefix of the text or nothing received; 30 a part whose
/// values have other names than those of the first; 31 the name of a value that another column has; 32 a number or a code that is too great;
/// and else from 11 on the first cause against the options of the read, or against the bytes of the least part that has one. Only at 4 and 5
/// `out` may have received anything. `err` receives the fault line of the status; a fault of `err` cuts it short, and changes neither status
/// nor `out`.
pub fn run_multi<W: Threads + Wait + Sync, O: Opener, Si: Sink, Se: Sink>(
    rt: &W,
    alloc: Global,
    words: &[String],
    opener: &mut O,
    out: &mut Si,
    err: &mut Se,
) -> u8
    // Status 0: the words ask for a joined read, which exists, and the sink received exactly its text. The sink of errors received nothing.
    ensures done { result ≡ 0 → IsMultiWritten (map string_bytes words.now) (O.holds opener.old) (Si.received out.old) (Si.received out.new) }
    ensures silent { result ≡ 0 → sink_view (Se.received err.new) (Se.faults err.new) (Se.wants err.new) ≡ sink_view (Se.received err.old) (Se.faults err.old) (Se.wants err.old) }

    // Each other status comes only by its cause, and its fault line was told.
    ensures refused { result ≢ 0 → IsMultiRefusedWith (map string_bytes words.now) (opener_view (O.holds opener.old) (O.faults opener.old)) (O.faults opener.new)
        (sink_view (Si.received out.old) (Si.faults out.old) (Si.wants out.old))
        (sink_view (Si.received out.new) (Si.faults out.new) (Si.wants out.new))
        (sink_view (Se.received err.old) (Se.faults err.old) (Se.wants err.old))
        (sink_view (Se.received err.new) (Se.faults err.new) (Se.wants err.new))
        result }

    // The status that is due to the words and the parts comes, up to want of memory and a count that rose.
    ensures due { (status : ℕ) → IsMultiDue (map string_bytes words.now) (O.holds opener.old) status
        → EndsAsMultiDue status result (O.faults opener.old) (O.faults opener.new) (Si.faults out.old) (Si.faults out.new) }

    // The opener holds the same, and no count falls.
    ensures stays { (path : List ℕ) → O.holds opener.new path ≡ O.holds opener.old path }
    ensures opener_later { O.faults opener.old ≤ O.faults opener.new }
    ensures sink_later { Si.faults out.old ≤ Si.faults out.new }
    ensures sink_wants_later { Si.wants out.old ≤ Si.wants out.new }
    ensures err_later { Se.faults err.old ≤ Se.faults err.new }
    ensures err_wants_later { Se.wants err.old ≤ Se.wants err.new }
{
    match do_words(rt, alloc, words, opener, out) {
        Ok(()) => 0,
        Err(refusal) => {
            tell_multi(err, &refusal);
            refusal.status()
        }
    }
}
