//! The shape of the words: flags and options.
ghost use Rattle.std.specs.Prelude.{◌≡◌, ◌≤◌, ◌∷◌, None, not, map, string_bytes, length, MatchOption};
ghost use Rattle.std.specs.List.{list_any};
ghost use Rattle.std.specs.Option.{option_map};
ghost use Rattle.std.specs.Str.{bytes_eq};
ghost use Rattle.pl_words.specs.Parts.{part_text, flags, options, is_value, whole_part, parts_of, of_parts, is_known, is_among, are_among, are_known_once, has_name};

use crate::splitting::cut_at;

/// The names of flags.
pub(crate) static FLAGS: [&str; 9] = [
    "--no-header",
    "--lossy",
    "--keep-missing",
    "--truncate",
    "--ignore-errors",
    "--allow-empty",
    "--dates",
    "--out-no-header",
    "--out-bom",
];

/// The names of options.
pub(crate) static OPTIONS: [&str; 28] = [
    "--schema",
    "--overwrite",
    "--infer",
    "--sep",
    "--quote",
    "--eol",
    "--comment",
    "--skip-lines",
    "--skip-rows",
    "--skip-after",
    "--limit",
    "--columns",
    "--projection",
    "--row-index",
    "--row-offset",
    "--dtypes",
    "--workers",
    "--piece",
    "--null",
    "--nulls",
    "--null-of",
    "--out-sep",
    "--out-quote",
    "--out-null",
    "--out-eol",
    "--style",
    "--batch",
    "--make",
];

/// A flag, or an option with its value.
#[derive(Clone, Copy, Debug)]
pub struct Part<'a> {
    pub name: &'a str,
    /// None for a flag.
    pub value: Option<&'a str>,
}

// Whether a word can be the value of an option.
fn is_value_word(text: &str) -> bool
    ensures { result ≡ is_value text.now }
{
    match text.as_bytes() {
        [] => false,
        [first, ..] => *first != b'-',
    }
}

// Whether a name is one of these.
fn is_among(name: &str, names: &[&str]) -> bool
    ensures { result ≡ is_among (map (λ other. other.now) names.now) name.now }
{
    for other in names {
        if name == *other {
            return true;
        }
    }
    false
}

// Whether a word is a flag.
fn is_flag(word: &str) -> bool
    ensures { result ≡ list_any (bytes_eq word.now) flags }
{
    is_among(word, FLAGS.as_slice())
}

// Whether a name is that of an option.
fn is_option(name: &str) -> bool
    ensures { result ≡ list_any (bytes_eq name.now) options }
{
    is_among(name, OPTIONS.as_slice())
}

// What one word is alone: a flag, or an option with its value.
fn read_whole(word: &str) -> Option<Part<'_>>
    ensures { option_map part_text result ≡ whole_part word.now }
{
    if is_flag(word) {
        return Some(Part {
            name: word,
            value: None,
        });
    }
    match cut_at(word, b'=') {
        Some((name, value)) => Some(Part {
            name,
            value: Some(value),
        }),
        None => None,
    }
}

// The first flag or option, and the words behind it.
fn cut_words<'a>(word: &'a str, words: &'a [String]) -> Option<(Part<'a>, &'a [String])>
    ensures cut { MatchOption result (parts_of (word.now ∷ map string_bytes words.now) ≡ None) (λ cut. parts_of (word.now ∷ map string_bytes words.now) ≡ option_map (λ parts. part_text cut.0 ∷ parts) (parts_of (map string_bytes cut.1.now))) }
    ensures shorter { MatchOption result (Unit {0}) (λ cut. length cut.1.now ≤ length words.now) }
{
    if let Some(part) = read_whole(word) {
        return Some((part, words));
    }
    match words {
        [next, behind @ ..] if is_value_word(next.as_str()) => {
            let part = Part {
                name: word,
                value: Some(next.as_str()),
            };
            Some((part, behind))
        }
        _ => None,
    }
}

// Whether a part is known: the name of a flag alone, or the name of an option with a value that is not empty.
fn is_known_part(part: &Part<'_>) -> bool
    ensures { result ≡ is_known (part_text part.now) }
{
    match part.value {
        Some(value) => is_option(part.name) && !value.is_empty(),
        None => is_flag(part.name),
    }
}

// Whether words are flags and options of other names.
fn have_other_names(words: &[String], name: &str) -> bool
    ensures { result ≡ of_parts (λ parts. not (has_name name.now parts)) (map string_bytes words.now) }
{
    let mut rest = words;
    while let [word, behind @ ..] = rest {
        let Some((part, next)) = cut_words(word.as_str(), behind) else {
            return false;
        };
        if name == part.name {
            return false;
        }
        rest = next;
    }
    true
}

/// Whether words are flags and options of which each is known, and no name stands twice.
pub(crate) fn are_known_once(words: &[String]) -> bool
    ensures { result ≡ of_parts are_known_once (map string_bytes words.now) }
{
    let mut rest = words;
    while let [word, behind @ ..] = rest {
        let Some((part, next)) = cut_words(word.as_str(), behind) else {
            return false;
        };
        if !is_known_part(&part) || !have_other_names(next, part.name) {
            return false;
        }
        rest = next;
    }
    true
}

/// Whether words are flags and options of these names alone.
pub(crate) fn are_among(words: &[String], names: &[&str]) -> bool
    ensures { result ≡ of_parts (are_among (map (λ name. name.now) names.now)) (map string_bytes words.now) }
{
    let mut rest = words;
    while let [word, behind @ ..] = rest {
        let Some((part, next)) = cut_words(word.as_str(), behind) else {
            return false;
        };
        if !is_among(part.name, names) {
            return false;
        }
        rest = next;
    }
    true
}
