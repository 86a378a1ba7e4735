//! The words that ask for many files, and what they mean.
ghost use Rattle.std.specs.Prelude.{◌≡◌, ◌≢◌, ◌<◌, length, MatchOption, None, Some, Err, map, string_bytes, IfOk, IsErrOf};
ghost use Rattle.std.specs.List.{position};
ghost use Rattle.std.specs.Option.{option_map};
ghost use Rattle.pl_words.specs.Defaults.{with};
ghost use Rattle.pl_words.specs.OptionValues.{count_of};
ghost use Rattle.pl_words.specs.Words.{job_of_words};
ghost use Rattle.pl_multi.specs.Words.{asked, asked_by, asked_of_words, cut_paths, cut_slice, is_dashes, part_at, rows_of, slice_of_word};

use crate::checking::is_wrong;
use crate::hive::hive_values;
use crate::part::Part;
use pl_cells::integers::number_of;
use pl_frame::name::PlSmallStr;
use pl_options::read_options::CsvReadOptions;
use pl_words::job::Job;
use pl_words::splitting::cut_at;
use pl_words::words::{WordsFault, parse_words};
use pl_write::options::CsvWriterOptions;
use std::alloc::Global;

/// Which rows of many files are wanted, how the files are read, how their frame is written, and the parts.
pub(crate) struct MultiJob {
    pub slice: Option<(usize, usize)>,
    pub read: CsvReadOptions,
    pub write: CsvWriterOptions,
    pub parts: Vec<Part>,
}

impl Drop for MultiJob {
    fn drop(self) {
        let MultiJob {
            slice: _,
            read: _,
            write: _,
            parts: _,
        } = self;
    }
}

// The number that 1 to 18 digits write.
fn count_of(text: &str) -> Option<usize>
    ensures { result ≡ count_of text.now }
{
    if text.len() > 18 {
        return None;
    }
    match number_of(text.as_bytes()) {
        Some(number) => Some(number as usize),
        None => None,
    }
}

// The rows that `A-B` asks for.
fn rows_of(text: &str) -> Option<(usize, usize)>
    ensures { result ≡ rows_of text.now }
{
    let Some((start, end)) = cut_at(text, b'-') else {
        return None;
    };
    match (count_of(start), count_of(end)) {
        (Some(start), Some(end)) => Some((start, end)),
        _ => None,
    }
}

// The rows that a word `--slice=A-B` asks for.
fn slice_of_word(word: &str) -> Option<(usize, usize)>
    ensures { result ≡ slice_of_word word.now }
{
    match cut_at(word, b'=') {
        Some((name, rows)) if name == "--slice" => rows_of(rows),
        _ => None,
    }
}

// The slice that the first word asks for, where it does, and the other words.
fn cut_slice(words: &[String]) -> (Option<(usize, usize)>, &[String])
    ensures { (result.0, map string_bytes result.1.now) ≡ cut_slice (map string_bytes words.now) }
{
    let [first, others @ ..] = words else {
        return (None, words);
    };
    match slice_of_word(first.as_str()) {
        Some(rows) => (Some(rows), others),
        None => (None, words),
    }
}

// Whether a word is `--`.
fn is_dashes(word: &str) -> bool
    ensures { result ≡ is_dashes word.now }
{
    word == "--"
}

// The place of the first `--`, where there is one.
fn find_dashes(words: &[String]) -> Option<usize>
    ensures place { result ≡ position (λ word. is_dashes (string_bytes word)) words.now }
    ensures within { MatchOption result (Unit {0}) (λ place. place < length words.now) }
{
    words.iter().position(|word| is_dashes(word.as_str()))
}

// The words before the first `--` and those behind it, where there is one.
fn cut_paths(words: &[String]) -> Option<(&[String], &[String])>
    ensures { option_map (λ cut. (map string_bytes cut.0.now, map string_bytes cut.1.now)) result ≡ cut_paths (map string_bytes words.now) }
{
    match find_dashes(words) {
        Some(place) => Some((&words[..place], &words[place + 1..])),
        None => None,
    }
}

// The part at a path, with the values that stand in it. Refuses only want of memory.
fn part_at(alloc: Global, path: &str) -> Result<Part, WordsFault>
    ensures part { IfOk result (λ part. part ≡ part_at path.now) }
    ensures refused { result ≢ Err WordsFault.Words }
{
    let Ok(values) = hive_values(alloc, path) else {
        return Err(WordsFault::OutOfMemory);
    };
    match PlSmallStr::from_str(alloc, path) {
        Ok(path) => Ok(Part { path, values }),
        Err(_) => Err(WordsFault::OutOfMemory),
    }
}

// The parts at paths. Refuses only want of memory.
fn parts_at(alloc: Global, paths: &[String]) -> Result<Vec<Part>, WordsFault>
    ensures parts { IfOk result (λ parts. parts.items ≡ map part_at (map string_bytes paths.now)) }
    ensures refused { result ≢ Err WordsFault.Words }
{
    let mut parts = Vec::new(alloc);
    for path in paths {
        let part = part_at(alloc, path.as_str())?;
        if parts.push(part).is_err() {
            return Err(WordsFault::OutOfMemory);
        }
    }
    Ok(parts)
}

// The job of these words of a conversion, of a slice and of parts. Refuses what is no such job, and want of memory.
fn job_of(
    alloc: Global,
    slice: Option<(usize, usize)>,
    words: &[String],
    parts: Vec<Part>,
) -> Result<MultiJob, WordsFault>
    ensures job { IfOk result (λ job. with (job_of_words (map string_bytes words.now)) (asked_by slice parts.items) ≡ Some (asked job)) }
    ensures refused { IsErrOf result WordsFault.Words → with (job_of_words (map string_bytes words.now)) (asked_by slice parts.items) ≡ None }
{
    match parse_words(alloc, words) {
        Ok(Job::Convert(read, write)) => {
            if is_wrong(&read, slice) {
                drop(read);
                drop(write);
                return Err(WordsFault::Words);
            }
            Ok(MultiJob {
                slice,
                read,
                write,
                parts,
            })
        }
        Ok(Job::Make { .. }) => Err(WordsFault::Words),
        Err(fault) => Err(fault),
    }
}

/// What words that ask for many files mean (docs/command-line.md, "Many files"). Refuses `Words` exactly where they mean nothing, and
/// want of memory.
pub(crate) fn parse_multi(alloc: Global, words: &[String]) -> Result<MultiJob, WordsFault>
    ensures job { IfOk result (λ job. asked_of_words (map string_bytes words.now) ≡ Some (asked job)) }
    ensures refused { IsErrOf result WordsFault.Words → asked_of_words (map string_bytes words.now) ≡ None }
{
    let Some((given, paths)) = cut_paths(words) else {
        return Err(WordsFault::Words);
    };
    let (slice, given) = cut_slice(given);
    let parts = parts_at(alloc, paths)?;
    job_of(alloc, slice, given, parts)
}
