//! Where the data of an input begins, so that what stands behind it can be cut into parts.
ghost use Rattle.std.specs.Prelude.{◌≡◌, ◌≢◌, map, IfOk, IfErr};
ghost use Rattle.pl_csv_c.specs.Fault.{IsRefusedAs};
ghost use Rattle.pl_csv_c.specs.Starting.{IsStart, StartsAt, HasNoStart};
ghost use Rattle.pl_read.specs.BatchSteps.{IsOpeningFaultOf};
ghost use Rattle.pl_read.specs.Steps.{MayRead};

use crate::fault::refuse;
use crate::given::given_of;
use pl_csv::run::Refusal;
use pl_frame::error::PolarsResult;
use pl_options::read_options::CsvReadOptions;
use pl_read::checks::check_options;
use pl_read::preparing::prepare;
use std::alloc::Global;

// Where the data of an input begins, where the options may stand.
fn start_checked(alloc: Global, input: &[u8], read: &CsvReadOptions) -> PolarsResult<usize>
    requires { MayRead read.now }
    ensures start { IfOk result (IsStart read.now input.now) }
    ensures refused { IfErr result (IsOpeningFaultOf read.now input.now) }
{
    match prepare(alloc, input, read) {
        Ok(prepared) => {
            let start = prepared.start;
            drop(prepared);
            Ok(start)
        }
        Err(fault) => Err(fault),
    }
}

// Where the data of an input begins. Refuses the first cause that stands against the input before those of its rows, and want of memory.
fn start_of_input(alloc: Global, input: &[u8], read: &CsvReadOptions) -> PolarsResult<usize>
    ensures start { IfOk result (IsStart read.now input.now) }
    ensures refused { IfErr result (IsOpeningFaultOf read.now input.now) }
{
    match check_options(read) {
        Ok(()) => start_checked(alloc, input, read),
        Err(fault) => Err(fault),
    }
}

// The same, by words.
fn start_given(alloc: Global, input: &[u8], words: &[&[u8]]) -> Result<usize, Refusal>
    ensures start { IfOk result (StartsAt (map (λ word. word.now) words.now) input.now) }
    ensures refused { IfErr result (HasNoStart (map (λ word. word.now) words.now) input.now) }
{
    let given = match given_of(alloc, words) {
        Ok(given) => given,
        Err(refusal) => return Err(refusal),
    };
    match start_of_input(alloc, input, &given.read) {
        Ok(start) => Ok(start),
        Err(fault) => Err(Refusal::Polars(fault)),
    }
}

/// Tells where the data of an input begins: behind a byte order mark, what the words skip, and the header. What stands from there on can
/// be cut into parts, which are read by the schema of the whole. At any status but 0 nothing is written but the fault line.
#[unsafe(no_mangle)]
pub extern "C" fn pl_csv_data_start(
    alloc: Global,
    input: &[u8],
    words: &[&[u8]],
    start: &mut usize,
    line: &mut [u8],
    line_len: &mut usize,
) -> u32
    // Status 0: the words have a meaning, no cause stands against the input before those of its rows, and its data begins there. No line
    // is told.
    ensures begins { result ≡ 0 → StartsAt (map (λ word. word.now) words.now) input.now start.new }
    ensures silent { result ≡ 0 → (line.new ≡ line.old) × (line_len.new ≡ 0) }

    // Each other status comes only by its cause, whose line is told, and the start is as it was.
    ensures refused { result ≢ 0 → IsRefusedAs (HasNoStart (map (λ word. word.now) words.now) input.now) result line.old line.new line_len.new }
    ensures same { result ≢ 0 → start.new ≡ start.old }
{
    match start_given(alloc, input, words) {
        Ok(found) => {
            *start = found;
            *line_len = 0;
            0
        }
        Err(refusal) => refuse(alloc, refusal, line, line_len),
    }
}
