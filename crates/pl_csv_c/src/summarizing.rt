//! Summaries of pieces of an input, as numbers, and of pieces that follow each other.
ghost use Rattle.std.specs.Prelude.{◌≡◌, ◌≢◌, map, IfOk, IfErr};
ghost use Rattle.pl_csv_c.specs.Fault.{IsRefusedAs};
ghost use Rattle.pl_csv_c.specs.Summarizing.{state_number, numbered_state, state_numbers, numbered_summary, IsSummary, HasNoSummary, IsSummarized, IsUnsummarized};
ghost use Rattle.pl_read.specs.Steps.{MayRead};
ghost use Rattle.pl_scan.specs.LineStates.{both_pieces};

use crate::fault::refuse;
use crate::given::given_of;
use pl_csv::run::Refusal;
use pl_frame::error::{OpFault, PolarsError, PolarsResult};
use pl_options::read_options::CsvReadOptions;
use pl_read::checks::check_options;
use pl_scan::summary::{LineState, PieceSummary, ends_line, summary};
use std::alloc::Global;

/// The states behind a piece, as numbers: where a scan came to it at the start of an item, and where one came to it inside an open
/// quoted field. 0 is the start of an item, and 1 the inside of an open quoted field.
#[repr(C)]
#[derive(Clone, Copy, Drop)]
pub struct StateNumbers {
    pub from_start: u8,
    pub from_open: u8,
}

// The number of a state.
fn state_number(state: LineState) -> u8
    ensures { result ≡ state_number state }
{
    match state {
        LineState::Start => 0,
        LineState::Open => 1,
    }
}

// The state of a number: any but 0 is the inside of an open quoted field.
fn numbered_state(number: u8) -> LineState
    ensures { result ≡ numbered_state number }
{
    if number == 0 {
        LineState::Start
    } else {
        LineState::Open
    }
}

// A summary as numbers.
fn state_numbers(summary: &PieceSummary) -> StateNumbers
    ensures { result ≡ state_numbers summary.now }
{
    StateNumbers {
        from_start: state_number(summary.from_start),
        from_open: state_number(summary.from_open),
    }
}

// The summary that numbers give.
fn numbered_summary(numbers: &StateNumbers) -> PieceSummary
    ensures { result ≡ numbered_summary numbers.now }
{
    PieceSummary {
        from_start: numbered_state(numbers.from_start),
        from_open: numbered_state(numbers.from_open),
    }
}

// The summary of a piece, where the options may stand. Refuses a piece whose last byte is not the line end.
fn summarize_checked(piece: &[u8], read: &CsvReadOptions) -> PolarsResult<PieceSummary>
    requires { MayRead read.now }
    ensures summary { IfOk result (IsSummary read.now piece.now) }
    ensures refused { IfErr result (HasNoSummary read.now piece.now) }
{
    let dialect = read.parse_options.dialect();
    if !ends_line(piece, dialect.eol_char) {
        return Err(PolarsError::InvalidOperation(OpFault::Option));
    }
    Ok(summary(
        piece,
        dialect.separator,
        dialect.quote_char,
        dialect.eol_char,
        dialect.comment_prefix,
    ))
}

// The summary of a piece by options. Refuses marks that are no dialect, an option that may not stand, and then a piece whose last byte
// is not the line end.
fn summarize(piece: &[u8], read: &CsvReadOptions) -> PolarsResult<PieceSummary>
    ensures summary { IfOk result (IsSummary read.now piece.now) }
    ensures refused { IfErr result (HasNoSummary read.now piece.now) }
{
    match check_options(read) {
        Ok(()) => summarize_checked(piece, read),
        Err(fault) => Err(fault),
    }
}

// The same, by words.
fn summarize_given(alloc: Global, piece: &[u8], words: &[&[u8]]) -> Result<StateNumbers, Refusal>
    ensures summary { IfOk result (IsSummarized (map (λ word. word.now) words.now) piece.now) }
    ensures refused { IfErr result (IsUnsummarized (map (λ word. word.now) words.now) piece.now) }
{
    let given = match given_of(alloc, words) {
        Ok(given) => given,
        Err(refusal) => return Err(refusal),
    };
    match summarize(piece, &given.read) {
        Ok(found) => Ok(state_numbers(&found)),
        Err(fault) => Err(Refusal::Polars(fault)),
    }
}

/// In which state a scan stands behind a piece, by the separator, the quote, the line end and the comments of the words, for each state
/// in front of it. The last byte of the piece is the line end; else the status is 12. At any status but 0 nothing is written but the
/// fault line.
#[unsafe(no_mangle)]
pub extern "C" fn pl_csv_summarize(
    alloc: Global,
    piece: &[u8],
    words: &[&[u8]],
    summary: &mut StateNumbers,
    line: &mut [u8],
    line_len: &mut usize,
) -> u32
    // Status 0: the words have a meaning, and these are the states. No line is told.
    ensures summarized { result ≡ 0 → IsSummarized (map (λ word. word.now) words.now) piece.now summary.new }
    ensures silent { result ≡ 0 → (line.new ≡ line.old) × (line_len.new ≡ 0) }

    // Each other status comes only by its cause, whose line is told, and the summary is as it was.
    ensures refused { result ≢ 0 → IsRefusedAs (IsUnsummarized (map (λ word. word.now) words.now) piece.now) result line.old line.new line_len.new }
    ensures same { result ≢ 0 → summary.new ≡ summary.old }
{
    match summarize_given(alloc, piece, words) {
        Ok(numbers) => {
            *summary = numbers;
            *line_len = 0;
            0
        }
        Err(refusal) => refuse(alloc, refusal, line, line_len),
    }
}

/// The states behind two pieces that follow each other, by those behind each of them.
#[unsafe(no_mangle)]
pub extern "C" fn pl_csv_compose(
    first: &StateNumbers,
    second: &StateNumbers,
    both: &mut StateNumbers,
)
    ensures { both.new ≡ state_numbers (both_pieces (numbered_summary first.now) (numbered_summary second.now)) }
{
    let next = numbered_summary(second);
    *both = state_numbers(&numbered_summary(first).then(&next));
}
