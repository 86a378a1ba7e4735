//! What a person is told when a run has ended with a refusal.
use crate::error_line::ErrorLine;
use crate::help_words::{ALL, MEANINGS};
use crate::terminal::Terminal;
use pl_tell::fault_line::place_in;
use pl_tell::found::Input;
use pl_tell::reason::{Call, Reason, reason_of};
use pl_tell::telling::{Ended, Usage, sentence};
use pl_tell::wording::{path_of, read_options};
use pl_terminal::message::Message;
use std::alloc::{AllocError, Global};
use std::fs;
use std::io::{self, Write};
use std::rt::Files;

// The input of the process as a file, and what the system says of it.
const STANDARD_INPUT: &str = "/proc/self/fd/0";

const STANDARD_INPUT_STATE: &str = "/proc/self/fdinfo/0";

// An input of more bytes is not read again.
const MOST_READ_AGAIN: u64 = 1 << 30;

// So many characters of a fault line are shown.
const MOST_OF_LINE: usize = 200;

// The line that says how the program is called so.
fn usage_of(call: Call, words: &[String]) -> &'static str {
    let number = match (call, words) {
        (Call::Convert, _) => 0,
        (Call::Multi, _) => 1,
        (Call::Seek, [first, ..]) if first.as_str() == "slice" => 3,
        (Call::Seek, _) => 2,
        (Call::Stream, _) => 4,
        (Call::Help, _) => 5,
    };
    ALL.split('\n').nth(number).unwrap_or("pl_csv help [word]")
}

// The words that have a meaning.
fn known_words(alloc: Global) -> Result<Vec<&'static str>, AllocError> {
    let mut words = Vec::new(alloc);
    for meaning in &MEANINGS {
        words.push(meaning.word)?;
    }
    Ok(words)
}

// The bytes of the file at a path, if it is a regular one that is not too large.
fn read_again<R: Files + AllocGlobal>(rt: &R, path: &str) -> Option<Vec<u8>> {
    let about = fs::metadata(rt, path).ok()?;
    if !about.is_file() || about.len() > MOST_READ_AGAIN {
        return None;
    }
    fs::read(rt, path).ok()
}

// Where standard input stands, by what the system says of it.
fn place_of_input<R: Files + AllocGlobal>(rt: &R) -> Option<u64> {
    let state: String = fs::read_to_string(rt, STANDARD_INPUT_STATE).ok()?;
    let number = state.as_str().split('\n').next()?.strip_prefix("pos:\t")?;
    number.parse::<u64>().ok()
}

// The bytes of standard input from its start on, if it is a file that was read from its start on.
fn read_input_again<R: Files + AllocGlobal>(rt: &R, read: u64) -> Option<Vec<u8>> {
    if place_of_input(rt)? != read {
        return None;
    }
    read_again(rt, STANDARD_INPUT)
}

// The input with the faulty record, if it can be read again.
fn faulty_input<R: Files + AllocGlobal>(rt: &R, ended: &Ended<'_>, read: u64) -> Option<Vec<u8>> {
    let place = place_in(ended.line)?;
    match ended.call {
        Call::Convert | Call::Stream => read_input_again(rt, read),
        Call::Multi | Call::Seek => read_again(rt, path_of(ended.call, ended.words, place.part)?),
        Call::Help => None,
    }
}

// What is told of a run that ended with a refusal.
fn told<R: Files + AllocGlobal>(
    rt: &R,
    ended: &Ended<'_>,
    read: u64,
) -> Result<Message, AllocError> {
    let known = known_words(rt.alloc())?;
    let usage = Usage {
        known: &known,
        line: usage_of(ended.call, ended.words),
    };
    if reason_of(ended.call, ended.status) != Some(Reason::Record) {
        return sentence(rt.alloc(), ended, &usage, None);
    }
    let bytes = faulty_input(rt, ended, read);
    let options = read_options(rt.alloc(), ended.call, ended.words);
    let told = match (&bytes, &options) {
        (Some(bytes), Some(options)) => {
            let input = Input {
                bytes,
                read: options,
            };
            sentence(rt.alloc(), ended, &usage, Some(&input))
        }
        _ => sentence(rt.alloc(), ended, &usage, None),
    };
    drop(options);
    told
}

// Writes the fault line as a terminal may show it.
fn tell_line<W: Write>(alloc: Global, err: &mut ErrorLine<W>, terminal: Terminal) {
    let mut message = Message::new(alloc);
    let line = message.add_shown(err.line(), MOST_OF_LINE);
    if line.is_err() {
        return;
    }
    if terminal.has_colours {
        err.tell("\u{1b}[1;31m");
    }
    err.tell(message.as_str());
    err.tell(if terminal.has_colours {
        "\u{1b}[0m\n"
    } else {
        "\n"
    });
}

/// Tells a person of a run that ended with a refusal: the fault line, and a sentence behind it. `read` is how many bytes of standard input were
/// read.
pub(crate) fn tell_person<R: Files + AllocGlobal, W: Write>(
    rt: &R,
    err: &mut ErrorLine<W>,
    terminal: Terminal,
    call: Call,
    words: &[String],
    status: u8,
    read: u64,
) {
    tell_line(rt.alloc(), err, terminal);
    let message = {
        let ended = Ended {
            call,
            words,
            status,
            line: str::from_utf8(err.line()).unwrap_or(""),
        };
        told(rt, &ended, read)
    };
    if let Ok(message) = message {
        err.tell(message.as_str());
        err.tell("\n");
    }
}
