//! The words of the command line.
ghost use Rattle.std.specs.Prelude.{◌≡◌, None, Some, map, string_bytes, IfOk, IsErrOf};
ghost use Rattle.pl_words.specs.Defaults.{with};
ghost use Rattle.pl_words.specs.MakeWords.{HasFewRows};
ghost use Rattle.pl_words.specs.Words.{conversion_of_parts, converting, job_of_parts, job_of_words};

use crate::arguments::Arguments;
use crate::job::Job;
use crate::make_words::making_of;
use crate::parts::are_known_once;
use crate::read_words::read_options_of;
use crate::write_words::write_options_of;
use std::alloc::Global;
use thiserror::Error;

/// Why words were refused.
#[derive(Clone, Copy, Debug, PartialEq, Eq, Error)]
pub enum WordsFault {
    /// They have no meaning.
    #[error("the arguments have no meaning")]
    Words,
    #[error("out of memory")]
    OutOfMemory,
}

// The conversion that the arguments mean. Refuses values without a meaning, and want of memory.
fn conversion_of_arguments(alloc: Global, arguments: &Arguments<'_>) -> Result<Job, WordsFault>
    ensures job { IfOk result (λ job. with (conversion_of_parts arguments.now) (λ conversion. Some (converting conversion)) ≡ Some job) }
    ensures few { IfOk result HasFewRows }
    ensures refused { IsErrOf result WordsFault.Words → conversion_of_parts arguments.now ≡ None }
{
    let read = read_options_of(alloc, arguments)?;
    let write = write_options_of(alloc, arguments)?;
    Ok(Job::Convert(read, write))
}

// What the arguments mean. Refuses values without a meaning, and want of memory.
#[tactic(auto, unfolding(crate::specs::Arguments::is_option))]
fn job_of_arguments(alloc: Global, arguments: &Arguments<'_>) -> Result<Job, WordsFault>
    ensures job { IfOk result (λ job. job_of_parts arguments.now ≡ Some job) }
    ensures few { IfOk result HasFewRows }
    ensures refused { IsErrOf result WordsFault.Words → job_of_parts arguments.now ≡ None }
{
    match arguments.value_under("--make") {
        Some(rows) => making_of(alloc, rows, arguments),
        None => conversion_of_arguments(alloc, arguments),
    }
}

/// What the words mean: flags and options, each at most once (docs/command-line.md, "Words"). Refuses `Words` exactly where
/// they mean nothing, and want of memory.
pub fn parse_words(alloc: Global, words: &[String]) -> Result<Job, WordsFault>
    ensures job { IfOk result (λ job. job_of_words (map string_bytes words.now) ≡ Some job) }
    ensures few { IfOk result HasFewRows }
    ensures refused { IsErrOf result WordsFault.Words → job_of_words (map string_bytes words.now) ≡ None }
{
    if !are_known_once(words) {
        return Err(WordsFault::Words);
    }
    let arguments = Arguments::read(alloc, words)?;
    job_of_arguments(alloc, &arguments)
}
