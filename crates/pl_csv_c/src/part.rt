//! Records of a part of an input, read into a frame that is handed out.
ghost use Rattle.std.specs.Prelude.{◌≡◌, ◌≢◌, ◌⊎◌, ℕ, List, true, None, map, OnOk, IfOk, IfErr};
ghost use Rattle.pl_csv.specs.declared.run.Refusal.TheVariants as refusal;
ghost use Rattle.pl_csv_c.specs.Fault.{IsRefusedAs};
ghost use Rattle.pl_csv_c.specs.Part.{IsBarred, IsPartCause, IsKeptPart, IsPartReadInto, IsPartUnread};
ghost use Rattle.pl_frame.specs.declared.error.PolarsError.TheVariants as error;
ghost use Rattle.pl_seek.specs.Parts.{CanReadPart, rows_from, columns_of_rows, fault_in_rows};

use crate::given::given_of;
use crate::handing::hand_out;
use crate::kept::{KeptFrame, keep};
use crate::views::FrameView;
use pl_csv::run::Refusal;
use pl_frame::error::{OpFault, PolarsError, PolarsResult};
use pl_frame::frame::DataFrame;
use pl_options::read_options::CsvReadOptions;
use pl_read::settle_given::settle_given;
use pl_seek::fault::SeekFault;
use pl_seek::part::read_part;
use std::alloc::Global;

// Tests that parts can be read by options: a schema is given, no cause stands against them, and a column is read. Refuses the first of
// these that fails, and want of memory.
fn check_part(alloc: Global, read: &CsvReadOptions) -> PolarsResult<()>
    ensures can { OnOk result ((part : List ℕ) → CanReadPart read.now part true) }
    ensures refused { IfErr result (λ fault. (fault ≡ error.OutOfMemory) ⊎ IsBarred read.now fault) }
{
    if read.schema.is_none() {
        return Err(PolarsError::InvalidOperation(OpFault::Option));
    }
    let settled = match settle_given(alloc, read) {
        Ok(settled) => settled,
        Err(fault) => return Err(fault),
    };
    let count = settled.projection.len();
    drop(settled);
    if count == 0 {
        return Err(PolarsError::EmptyProjection);
    }
    Ok(())
}

// The records of a part from one on, at most so many. Refuses the first cause against them, and want of memory.
fn read_records(
    alloc: Global,
    part: &[u8],
    read: &CsvReadOptions,
    skip: usize,
    length: usize,
) -> PolarsResult<DataFrame>
    ensures can { OnOk result (CanReadPart read.now part.now true) }
    ensures sound { OnOk result (fault_in_rows read.now skip (rows_from read.now skip length part.now) ≡ None) }
    ensures frame { IfOk result (λ frame. frame ≡ columns_of_rows read.now (rows_from read.now skip length part.now)) }
    ensures refused { IfErr result (λ fault. (fault ≡ error.OutOfMemory) ⊎ IsPartCause read.now part.now skip length fault) }
{
    match check_part(alloc, read) {
        Ok(()) => {}
        Err(fault) => return Err(fault),
    }
    match read_part(alloc, part, read, skip, length, true) {
        Ok(frame) => Ok(frame),
        Err(SeekFault::Polars(fault)) => Err(fault),
        Err(_) => Err(PolarsError::OutOfMemory),
    }
}

// The records of a part by words, kept.
fn read_given(
    alloc: Global,
    part: &[u8],
    words: &[&[u8]],
    skip: usize,
    length: usize,
) -> Result<KeptFrame, Refusal>
    ensures read { IfOk result (IsKeptPart (map (λ word. word.now) words.now) part.now skip length) }
    ensures refused { IfErr result (IsPartUnread (map (λ word. word.now) words.now) part.now skip length) }
{
    let given = match given_of(alloc, words) {
        Ok(given) => given,
        Err(refusal) => return Err(refusal),
    };
    let frame = match read_records(alloc, part, &given.read, skip, length) {
        Ok(frame) => frame,
        Err(fault) => return Err(Refusal::Polars(fault)),
    };
    drop(given);
    match keep(alloc, frame) {
        Ok(kept) => Ok(kept),
        Err(_) => Err(Refusal::Polars(PolarsError::OutOfMemory)),
    }
}

/// Reads the records of a part of an input from number `skip` on, at most `length`, into a frame, and hands it out. The part is a text
/// of its own: its first byte is where a record begins, and only its bytes are looked at. Words that give no schema are refused as a
/// wrong option. At any status but 0 nothing is written but the fault line.
#[unsafe(no_mangle)]
pub extern "C" fn pl_csv_read_part(
    alloc: Global,
    part: &[u8],
    words: &[&[u8]],
    skip: usize,
    length: usize,
    frame: &mut FrameView,
    line: &mut [u8],
    line_len: &mut usize,
) -> u32
    // Status 0: the words have a meaning, by it these records are a frame, and what is handed out has its shape. No line is told.
    ensures read { result ≡ 0 → IsPartReadInto (map (λ word. word.now) words.now) part.now skip length frame.new }
    ensures silent { result ≡ 0 → (line.new ≡ line.old) × (line_len.new ≡ 0) }

    // Each other status comes only by its cause, whose line is told, and nothing is handed out.
    ensures refused { result ≢ 0 → IsRefusedAs (IsPartUnread (map (λ word. word.now) words.now) part.now skip length) result line.old line.new line_len.new }
    ensures same { result ≢ 0 → frame.new ≡ frame.old }
{
    let read = read_given(alloc, part, words, skip, length);
    hand_out(alloc, read, frame, line, line_len)
}
