//! Words without a meaning: which of them has none, and which options the others give.
ghost use Rattle.std.specs.Prelude.{◌≡◌, ◌≤◌, true, None, map, string_bytes, length, take, drop, IfSome};
ghost use Rattle.pl_words.specs.Words.{job_of_words};

use crate::reason::Call;
use pl_options::read_options::CsvReadOptions;
use pl_words::job::Job;
use pl_words::words::{WordsFault, parse_words};
use std::alloc::Global;

/// Words of one meaning: where they begin among others, and how many they are.
#[derive(Clone, Copy, Debug, PartialEq, Eq)]
pub struct Unit {
    pub start: usize,
    pub count: usize,
}

// Whether words have no meaning by themselves. Where memory is wanting, this is not known, and the answer is no.
fn is_meaningless(alloc: Global, words: &[String]) -> bool
    ensures { result ≡ true → job_of_words (map string_bytes words.now) ≡ None }
{
    match parse_words(alloc, words) {
        Ok(job) => {
            drop(job);
            false
        }
        Err(WordsFault::Words) => true,
        Err(WordsFault::OutOfMemory) => false,
    }
}

// Whether a word is the name of an option, whose value is the next word.
fn takes_next(alloc: Global, words: &[String]) -> bool
    ensures { result ≡ true → 2 ≤ length words.now }
{
    match words {
        [name, value, ..] => {
            name.as_str().starts_with("--")
                && !name.as_str().contains('=')
                && !value.as_str().starts_with('-')
                && is_meaningless(alloc, &words[..1])
        }
        _ => false,
    }
}

/// The first words that have no meaning, in whatever words they stand, if there are such.
pub fn meaningless_unit(alloc: Global, words: &[String]) -> Option<Unit>
    ensures { IfSome result (λ found. job_of_words (map string_bytes (take found.count (drop found.start words.now))) ≡ None) }
{
    let mut start = 0;
    while start < words.len() {
        let count = if takes_next(alloc, &words[start..]) {
            2
        } else {
            1
        };
        let unit = &words[start..start + count];
        if is_meaningless(alloc, unit) && !is_offset(unit) {
            return Some(Unit { start, count });
        }
        start += count;
    }
    None
}

// Whether words give the first number of a row index, which has a meaning beside one alone.
fn is_offset(unit: &[String]) -> bool {
    match unit {
        [first, ..] => first.as_str().starts_with("--row-offset"),
        [] => false,
    }
}

/// The words that say how an input is read and its frame is written.
pub(crate) fn conversion_words(call: Call, words: &[String]) -> &[String] {
    match call {
        Call::Convert | Call::Stream => words,
        Call::Multi => given_words(words),
        Call::Seek => behind_paths(words),
        Call::Help => &[],
    }
}

// The words before the paths of many files, without the slice.
fn given_words(words: &[String]) -> &[String] {
    let given = match words.iter().position(|word| word.as_str() == "--") {
        Some(place) => &words[..place],
        None => words,
    };
    match given {
        [first, others @ ..] if first.as_str().starts_with("--slice=") => others,
        _ => given,
    }
}

// The words behind the paths of an input and its index; or the first word, where it asks for neither of them.
fn behind_paths(words: &[String]) -> &[String] {
    match words {
        [first, _, _, others @ ..] if first.as_str() == "build" => others,
        [first, _, _, _, _, others @ ..] if first.as_str() == "slice" => others,
        [first, ..] if first.as_str() != "build" && first.as_str() != "slice" => &words[..1],
        _ => &[],
    }
}

/// Whether the words have the word behind which the paths of many files stand.
pub(crate) fn has_paths(words: &[String]) -> bool {
    words.iter().any(|word| word.as_str() == "--")
}

/// The path of the input that is refused, where the words have it: of many files that with this number.
pub fn path_of(call: Call, words: &[String], part: Option<usize>) -> Option<&str> {
    match (call, words) {
        (Call::Multi, _) => path_at(words, part?),
        (Call::Seek, [first, _, path, ..]) if first.as_str() == "build" => Some(path.as_str()),
        (Call::Seek, [first, _, _, path, ..]) if first.as_str() == "slice" => Some(path.as_str()),
        _ => None,
    }
}

// The path with a number behind the first `--`.
fn path_at(words: &[String], number: usize) -> Option<&str> {
    let place = words.iter().position(|word| word.as_str() == "--")?;
    let path = words[place..].get(number.checked_add(1)?)?;
    Some(path.as_str())
}

/// How an input is read by these words, where they have a meaning and memory is enough.
pub fn read_options(alloc: Global, call: Call, words: &[String]) -> Option<CsvReadOptions> {
    match parse_words(alloc, conversion_words(call, words)) {
        Ok(Job::Convert(read, write)) => {
            drop(write);
            Some(read)
        }
        Ok(Job::Make { .. }) => None,
        Err(_) => None,
    }
}
