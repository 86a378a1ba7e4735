//! What a person is told behind a fault line.

use crate::fault_line::place_in;
use crate::found::{Input, add_place};
use crate::reason::{Call, Reason, reason_of};
use crate::sentences::{row_of, row_of_record};
use crate::wording::{Unit, conversion_words, has_paths, meaningless_unit};
use pl_terminal::message::{MOST_SHOWN, Message};
use pl_terminal::nearest::nearest;
use std::alloc::{AllocError, Global};

/// A run that ended with a refusal: what it was asked for, how it ended, and its fault line.
#[derive(Clone, Copy)]
pub struct Ended<'a> {
    pub call: Call,
    /// The words behind the one that names the call.
    pub words: &'a [String],
    pub status: u8,
    /// Without its line end.
    pub line: &'a str,
}

/// The words that have a meaning, and how the program is called.
#[derive(Clone, Copy)]
pub struct Usage<'a> {
    pub known: &'a [&'a str],
    pub line: &'a str,
}

/// What a person is told of a run that ended with a refusal, if there is anything to tell. Refuses only want of memory.
pub fn sentence(
    alloc: Global,
    ended: &Ended<'_>,
    usage: &Usage<'_>,
    input: Option<&Input<'_>>,
) -> Result<Message, AllocError> {
    let mut message = Message::new(alloc);
    match reason_of(ended.call, ended.status) {
        Some(Reason::Words) => add_words(&mut message, alloc, ended, usage)?,
        Some(Reason::Record) => add_record(&mut message, alloc, ended, input)?,
        Some(reason) => add_reason(&mut message, reason)?,
        None => {}
    }
    Ok(message)
}

// Tells what is wrong, and what can be done.
fn add_row(message: &mut Message, wrong: &str, advice: &str) -> Result<(), AllocError> {
    message.add(wrong)?;
    message.add(". ")?;
    message.add(advice)?;
    message.add(".")
}

// Tells what is wrong, and what can be done, by the table.
fn add_reason(message: &mut Message, reason: Reason) -> Result<(), AllocError> {
    match row_of(reason) {
        Some(row) => add_row(message, row.wrong, row.advice),
        None => Ok(()),
    }
}

// Tells the fault of a record.
fn add_record(
    message: &mut Message,
    alloc: Global,
    ended: &Ended<'_>,
    input: Option<&Input<'_>>,
) -> Result<(), AllocError> {
    let Some(place) = place_in(ended.line) else {
        return add_reason(message, Reason::Record);
    };
    message.add("Record ")?;
    message.add_number(place.row.saturating_add(1))?;
    let found = match input {
        Some(input) => add_place(message, alloc, input, &place)?,
        None => false,
    };
    if !found {
        message.add(" has a fault in column ")?;
        message.add_number(place.column.saturating_add(1))?;
    }
    let row = row_of_record(place.kind);
    message.add(": ")?;
    add_row(message, row.wrong, row.advice)
}

// Tells which words have no meaning, which is near to them, and how the program is called.
fn add_words(
    message: &mut Message,
    alloc: Global,
    ended: &Ended<'_>,
    usage: &Usage<'_>,
) -> Result<(), AllocError> {
    let words = judged_words(ended);
    match meaningless_unit(alloc, words) {
        Some(unit) => add_unit(message, alloc, words, unit, usage)?,
        None => add_whole(message, ended.call)?,
    }
    message.add(" `pl_csv help` has all words. Usage: ")?;
    message.add(usage.line)
}

// The words of which each is to have a meaning by itself.
fn judged_words<'a>(ended: &Ended<'a>) -> &'a [String] {
    match ended.call {
        Call::Help => ended.words,
        Call::Multi if !has_paths(ended.words) => &[],
        _ => conversion_words(ended.call, ended.words),
    }
}

// Tells what is wrong with words of which each has a meaning by itself.
fn add_whole(message: &mut Message, call: Call) -> Result<(), AllocError> {
    message.add(match call {
        Call::Convert => {
            "The words do not go together: one stands twice, excludes another, or is not UTF-8."
        }
        Call::Multi => {
            "Many files need `--schema`, and behind `--` their paths; no limit goes with them."
        }
        Call::Seek => {
            "An index needs numbers and paths, and behind them `--schema`; no limit goes with it."
        }
        Call::Stream => { "The words do not go together: one stands twice, or excludes another." }
        Call::Help => { "Only one word can stand behind `help`, and none behind `version`." }
    })
}

// How few characters may differ at a word that is offered in the place of another.
fn few_for(word: &str) -> usize {
    word.len() / 3 + 1
}

// Whether a word asks for help in a way that other programs have.
fn asks_help(word: &str) -> bool {
    matches!(word, "--help" | "-h" | "-?")
}

// Tells that words have no meaning, and which is near to the first of them.
fn add_unit(
    message: &mut Message,
    alloc: Global,
    words: &[String],
    unit: Unit,
    usage: &Usage<'_>,
) -> Result<(), AllocError> {
    let Some(first) = words.get(unit.start) else {
        return Ok(());
    };
    let name = match first.as_str().split_once('=') {
        Some((name, _)) => name,
        None => first.as_str(),
    };
    match near_word(alloc, name, usage)? {
        Some(known) => add_near(message, words, unit, name, known),
        None => {
            message.add("`")?;
            message.add_shown(first.as_str().as_bytes(), MOST_SHOWN)?;
            message.add("` has no meaning.")
        }
    }
}

// The known word that is nearest to one, if one is near to it.
fn near_word<'a>(
    alloc: Global,
    name: &str,
    usage: &Usage<'a>,
) -> Result<Option<&'a str>, AllocError> {
    if asks_help(name) {
        return Ok(None);
    }
    match nearest(alloc, name, usage.known, few_for(name))? {
        Some(place) => Ok(usage.known.get(place).copied()),
        None => Ok(None),
    }
}

// Tells that words have no meaning to which a known one is near.
fn add_near(
    message: &mut Message,
    words: &[String],
    unit: Unit,
    name: &str,
    known: &str,
) -> Result<(), AllocError> {
    if name != known {
        message.add("`")?;
        message.add_shown(name.as_bytes(), MOST_SHOWN)?;
        message.add("` has no meaning; the nearest word is `")?;
        message.add(known)?;
        return message.add("`.");
    }
    message.add("`")?;
    message.add(known)?;
    message.add("` has no such value")?;
    if let Some(value) = value_of(words, unit) {
        message.add(" as `")?;
        message.add_shown(value.as_bytes(), MOST_SHOWN)?;
        message.add("`")?;
    }
    message.add("; `pl_csv help ")?;
    message.add(known)?;
    message.add("` says which it has.")
}

// The value that words of one meaning give, if they give one.
fn value_of(words: &[String], unit: Unit) -> Option<&str> {
    let first = words.get(unit.start)?;
    match first.as_str().split_once('=') {
        Some((_, value)) => Some(value),
        None if unit.count == 2 => Some(words.get(unit.start.checked_add(1)?)?.as_str()),
        None => None,
    }
}
