//! A making job, as words give it.
ghost use Rattle.std.specs.Prelude.{◌≡◌, ◌≤◌, None, Some, IfOk, IsErrOf, MatchOption};
ghost use Rattle.pl_words.specs.MakeWords.{rows_of, are_making, making_of, HasFewRows};

use crate::arguments::Arguments;
use crate::from_text::{meant, set_or};
use crate::job::Job;
use crate::option_values::parse_count;
use crate::words::WordsFault;
use std::alloc::Global;

/// The names that stand in a making job.
static MAKING: [&str; 3] = ["--make", "--workers", "--piece"];

/// The most rows that are made.
const MOST_ROWS: usize = 1_000_000;

// The number up to 1000000 that 1 to 18 digits write.
fn parse_rows(text: &str) -> Option<u64>
    ensures rows { result ≡ rows_of text.now }
    ensures few { MatchOption result (Unit {0}) (λ rows. rows ≤ 1000000) }
{
    let number = parse_count(text)?;
    if number > MOST_ROWS {
        return None;
    }
    Some(number as u64)
}

// Whether each flag or option may stand in a making job.
fn are_making(arguments: &Arguments<'_>) -> bool
    ensures { result ≡ are_making arguments.now }
{
    arguments.are_among(MAKING.as_slice())
}

/// The making job of these rows, by the arguments. Refuses other names, values without a meaning, and want of memory.
#[tactic(auto, unfolding(crate::specs::Arguments::is_option))]
pub(crate) fn making_of(
    alloc: Global,
    rows: &str,
    arguments: &Arguments<'_>,
) -> Result<Job, WordsFault>
    ensures job { IfOk result (λ job. making_of rows.now arguments.now ≡ Some job) }
    ensures few { IfOk result HasFewRows }
    ensures refused { IsErrOf result WordsFault.Words → making_of rows.now arguments.now ≡ None }
{
    if !are_making(arguments) {
        return Err(WordsFault::Words);
    }
    let rows = meant(parse_rows(rows))?;
    let workers = set_or(alloc, arguments, "--workers", 4)?;
    let piece = set_or(alloc, arguments, "--piece", 262144)?;
    Ok(Job::Make {
        rows,
        workers,
        piece,
    })
}
