//! How many rows an input has.
ghost use Rattle.std.specs.Prelude.{◌≡◌, ◌≢◌, if◌then◌else◌, map, Ok, Err, IfOk, IfErr};
ghost use Rattle.pl_csv.specs.Counting.{compressed};
ghost use Rattle.pl_csv_c.specs.Counting.{IsCounting, IsCounted, IsUncounted};
ghost use Rattle.pl_csv_c.specs.Fault.{IsRefusedAs};

use crate::fault::refuse;
use crate::given::given_of;
use pl_csv::run::Refusal;
use pl_frame::compression::is_compressed;
use pl_frame::error::{ComputeFault, PolarsError, PolarsResult};
use pl_options::read_options::CsvReadOptions;
use pl_scan::rows::count_rows_from_slice;
use std::alloc::Global;

// What a count answers, where so many rows were counted.
fn unless_compressed(has_mark: bool, rows: usize) -> PolarsResult<usize>
    ensures { result ≡ if has_mark then Err compressed else Ok rows }
{
    if has_mark {
        Err(PolarsError::ComputeError(ComputeFault::Compressed))
    } else {
        Ok(rows)
    }
}

// How many rows an input has by the marks, the comment prefix and the header of options, which skip and limit nothing here. Refuses
// marks that are no dialect, and a compressed input.
fn count_rows(input: &[u8], read: &CsvReadOptions) -> PolarsResult<usize>
    ensures { IsCounting read.now input.now result }
{
    let parse_options = &read.parse_options;
    let counted = count_rows_from_slice(
        input,
        parse_options.separator,
        parse_options.quote_char,
        parse_options.comment_prefix.as_ref(),
        parse_options.eol_char,
        read.has_header,
    );
    match counted {
        Ok(rows) => unless_compressed(is_compressed(input), rows),
        Err(fault) => Err(fault),
    }
}

// The same, by words.
fn count_given(alloc: Global, input: &[u8], words: &[&[u8]]) -> Result<usize, Refusal>
    ensures rows { IfOk result (IsCounted (map (λ word. word.now) words.now) input.now) }
    ensures refused { IfErr result (IsUncounted (map (λ word. word.now) words.now) input.now) }
{
    let given = match given_of(alloc, words) {
        Ok(given) => given,
        Err(refusal) => return Err(refusal),
    };
    match count_rows(input, &given.read) {
        Ok(rows) => Ok(rows),
        Err(fault) => Err(Refusal::Polars(fault)),
    }
}

/// Counts the rows of an input, by the separator, the quote, the line end, the comments and the header of the words; what the words
/// say of skips and of a limit has no part in it. At any status but 0 nothing is written but the fault line.
#[unsafe(no_mangle)]
pub extern "C" fn pl_csv_count_rows(
    alloc: Global,
    input: &[u8],
    words: &[&[u8]],
    rows: &mut usize,
    line: &mut [u8],
    line_len: &mut usize,
) -> u32
    // Status 0: the words have a meaning, and this is the number of rows. No line is told.
    ensures counted { result ≡ 0 → IsCounted (map (λ word. word.now) words.now) input.now rows.new }
    ensures silent { result ≡ 0 → (line.new ≡ line.old) × (line_len.new ≡ 0) }

    // Each other status comes only by its cause, whose line is told, and the count is as it was.
    ensures refused { result ≢ 0 → IsRefusedAs (IsUncounted (map (λ word. word.now) words.now) input.now) result line.old line.new line_len.new }
    ensures same { result ≢ 0 → rows.new ≡ rows.old }
{
    match count_given(alloc, input, words) {
        Ok(count) => {
            *rows = count;
            *line_len = 0;
            0
        }
        Err(refusal) => refuse(alloc, refusal, line, line_len),
    }
}
