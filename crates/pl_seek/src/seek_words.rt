//! The words that ask for an index or for a slice, and what they mean.
ghost use Rattle.std.specs.Prelude.{◌≡◌, ◌≢◌, None, Some, Err, map, string_bytes, IfOk, IsErrOf};
ghost use Rattle.pl_words.specs.OptionValues.{count_of};
ghost use Rattle.pl_seek.specs.Words.{MayAsk, options_of, build_of, slice_of, asked_of_words};

use crate::checking::is_wrong;
use crate::job::SeekJob;
use pl_cells::integers::number_of;
use pl_frame::name::PlSmallStr;
use pl_options::read_options::CsvReadOptions;
use pl_words::job::Job;
use pl_words::words::{WordsFault, parse_words};
use pl_write::options::CsvWriterOptions;
use std::alloc::Global;

// The number that 1 to 18 digits write.
fn count_of(text: &str) -> Option<usize>
    ensures { result ≡ count_of text.now }
{
    if text.len() > 18 {
        return None;
    }
    match number_of(text.as_bytes()) {
        Some(number) => Some(number as usize),
        None => None,
    }
}

// A path of its own. Refuses only want of memory.
fn path_of(alloc: Global, path: &str) -> Result<PlSmallStr, WordsFault>
    ensures path { IfOk result (λ copy. copy ≡ path.now) }
    ensures refused { result ≢ Err WordsFault.Words }
{
    match PlSmallStr::from_str(alloc, path) {
        Ok(path) => Ok(path),
        Err(_) => Err(WordsFault::OutOfMemory),
    }
}

// The options that words of a conversion mean, where an index can have them. Refuses other words, and want of memory.
fn options_of(
    alloc: Global,
    words: &[String],
) -> Result<(CsvReadOptions, CsvWriterOptions), WordsFault>
    ensures options { IfOk result (λ options. options_of (map string_bytes words.now) ≡ Some options) }
    ensures refused { IsErrOf result WordsFault.Words → options_of (map string_bytes words.now) ≡ None }
{
    match parse_words(alloc, words) {
        Ok(Job::Convert(read, write)) => {
            if is_wrong(&read) {
                drop(read);
                drop(write);
                return Err(WordsFault::Words);
            }
            Ok((read, write))
        }
        Ok(Job::Make { .. }) => Err(WordsFault::Words),
        Err(fault) => Err(fault),
    }
}

// What words behind `build` mean. Refuses words that mean nothing, and want of memory.
fn build_of(alloc: Global, words: &[String]) -> Result<SeekJob, WordsFault>
    ensures job { IfOk result (λ job. build_of (map string_bytes words.now) ≡ Some job) }
    ensures sized { IfOk result MayAsk }
    ensures refused { IsErrOf result WordsFault.Words → build_of (map string_bytes words.now) ≡ None }
{
    let [every, path, others @ ..] = words else {
        return Err(WordsFault::Words);
    };
    let every = match count_of(every.as_str()) {
        Some(every) if every > 0 => every,
        _ => return Err(WordsFault::Words),
    };
    let path = path_of(alloc, path.as_str())?;
    let (read, write) = options_of(alloc, others)?;
    drop(write);
    Ok(SeekJob::Build { every, path, read })
}

// What words behind `slice` mean. Refuses words that mean nothing, and want of memory.
fn slice_of(alloc: Global, words: &[String]) -> Result<SeekJob, WordsFault>
    ensures job { IfOk result (λ job. slice_of (map string_bytes words.now) ≡ Some job) }
    ensures sized { IfOk result MayAsk }
    ensures refused { IsErrOf result WordsFault.Words → slice_of (map string_bytes words.now) ≡ None }
{
    let [start, count, path, index_path, others @ ..] = words else {
        return Err(WordsFault::Words);
    };
    let (Some(start), Some(count)) = (count_of(start.as_str()), count_of(count.as_str())) else {
        return Err(WordsFault::Words);
    };
    let path = path_of(alloc, path.as_str())?;
    let index_path = path_of(alloc, index_path.as_str())?;
    let (read, write) = options_of(alloc, others)?;
    Ok(SeekJob::Slice {
        start,
        count,
        path,
        index_path,
        read,
        write,
    })
}

/// What words that ask for an index or for a slice mean (docs/command-line.md, "An index"). Refuses `Words` exactly where they mean
/// nothing, and want of memory.
pub(crate) fn parse_seek(alloc: Global, words: &[String]) -> Result<SeekJob, WordsFault>
    ensures job { IfOk result (λ job. asked_of_words (map string_bytes words.now) ≡ Some job) }
    ensures sized { IfOk result MayAsk }
    ensures refused { IsErrOf result WordsFault.Words → asked_of_words (map string_bytes words.now) ≡ None }
{
    match words {
        [first, others @ ..] if first.as_str() == "build" => build_of(alloc, others),
        [first, others @ ..] if first.as_str() == "slice" => slice_of(alloc, others),
        _ => Err(WordsFault::Words),
    }
}
