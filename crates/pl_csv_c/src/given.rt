//! What the words of a call mean.
ghost use Rattle.std.specs.Prelude.{◌≡◌, map, string_bytes, IfOk, IfErr, IsUtf8};
ghost use Rattle.std.specs.List.{AllByRecursion};
ghost use Rattle.pl_csv_c.specs.Given.{Asks, IsNoText, IsUnasked};

use pl_csv::run::Refusal;
use pl_frame::error::PolarsError;
use pl_options::read_options::CsvReadOptions;
use pl_words::job::Job;
use pl_words::words::{WordsFault, parse_words};
use pl_write::options::CsvWriterOptions;
use std::alloc::Global;

/// How an input is read, and how a frame is written.
#[derive(Drop)]
pub struct Given {
    pub read: CsvReadOptions,
    pub write: CsvWriterOptions,
}

// A word as a text. Refuses one that is not UTF-8, and want of memory.
fn text_of(alloc: Global, word: &[u8]) -> Result<String, Refusal>
    ensures text { IfOk result (λ text. (string_bytes text ≡ word.now) × IsUtf8 word.now) }
    ensures refused { IfErr result (IsNoText word.now) }
{
    let Ok(word) = str::from_utf8(word) else {
        return Err(Refusal::Words);
    };
    match String::from_str(alloc, word) {
        Ok(text) => Ok(text),
        Err(_) => Err(Refusal::Polars(PolarsError::OutOfMemory)),
    }
}

// Words as texts. Refuses where one is not UTF-8, and want of memory.
fn texts_of(alloc: Global, words: &[&[u8]]) -> Result<Vec<String>, Refusal>
    ensures texts { IfOk result (λ texts. map string_bytes texts.items ≡ map (λ word. word.now) words.now) }
    ensures utf8 { IfOk result (λ texts. AllByRecursion IsUtf8 (map (λ word. word.now) words.now)) }
    ensures refused { IfErr result (IsUnasked (map (λ word. word.now) words.now)) }
{
    let mut texts = Vec::new(alloc);
    for word in words {
        let text = match text_of(alloc, word) {
            Ok(text) => text,
            Err(refusal) => return Err(refusal),
        };
        if texts.push(text).is_err() {
            return Err(Refusal::Polars(PolarsError::OutOfMemory));
        }
    }
    Ok(texts)
}

/// What words mean: those of the program's command line (docs/command-line.md, "Words"), which do not ask for a made input. Refuses
/// `Words` where they mean nothing of that kind or one is not UTF-8, and want of memory.
pub fn given_of(alloc: Global, words: &[&[u8]]) -> Result<Given, Refusal>
    ensures given { IfOk result (Asks (map (λ word. word.now) words.now)) }
    ensures refused { IfErr result (IsUnasked (map (λ word. word.now) words.now)) }
{
    let texts = match texts_of(alloc, words) {
        Ok(texts) => texts,
        Err(refusal) => return Err(refusal),
    };
    match parse_words(alloc, &texts) {
        Ok(Job::Convert(read, write)) => Ok(Given { read, write }),
        Ok(Job::Make { .. }) | Err(WordsFault::Words) => Err(Refusal::Words),
        Err(WordsFault::OutOfMemory) => Err(Refusal::Polars(PolarsError::OutOfMemory)),
    }
}
