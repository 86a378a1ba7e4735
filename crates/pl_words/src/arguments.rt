//! The flags and options of words, as the library for command lines reads them.
ghost use Rattle.std.specs.Prelude.{◌≡◌, ◌≢◌, true, Some, Err, map, string_bytes, IfOk, IfErr};
ghost use Rattle.std.specs.List.{fold};
ghost use Rattle.std.specs.Option.{option_map};
ghost use Rattle.clap.specs.Lexer.{strip_byte};
ghost use Rattle.clap.specs.Words.{HasMatchesOf, app_of, kind_of};
ghost use Rattle.clap.specs.declared.error.kind.ErrorKind.TheVariants as kind;
ghost use Rattle.pl_words.specs.Arguments.{command, id_of, is_flag, is_option, with_name};
ghost use Rattle.pl_words.specs.Parts.{parts_of, of_parts, are_among, are_known_once, value_under, has_name};

use crate::parts::{FLAGS, OPTIONS, are_among};
use crate::words::WordsFault;
use clap::{Arg, ArgAction, ArgMatches, Command, Error};
use std::alloc::{AllocError, Global};
use std::marker::Model;

// What follows a first hyphen.
fn strip_dash(name: &str) -> Option<&str>
    ensures { option_map (λ rest. rest.now) result ≡ strip_byte 45 name.now }
{
    name.strip_prefix('-')
}

// The id of an argument: its name without the two hyphens.
fn id_of(name: &str) -> Option<&str>
    ensures { option_map (λ id. id.now) result ≡ id_of name.now }
{
    strip_dash(strip_dash(name)?)
}

// The command with an argument of this name.
fn with_name<'a>(
    alloc: Global,
    command: Command<'a>,
    action: ArgAction,
    name: &'a str,
) -> Result<Command<'a>, AllocError>
    ensures { IfOk result (λ more. app_of more ≡ with_name action (app_of command.entry) name.entry.now) }
{
    match id_of(name) {
        Some(id) => command.arg(Arg::new(alloc, id).long(id).action(action)),
        None => Ok(command),
    }
}

// The command with an argument for each of these names.
fn with_names<'a>(
    alloc: Global,
    command: Command<'a>,
    action: ArgAction,
    names: &'a [&'a str],
) -> Result<Command<'a>, AllocError>
    ensures { IfOk result (λ more. app_of more ≡ fold (with_name action) (app_of command.entry) (map (λ name. name.now) names.entry.now)) }
{
    let mut command = command;
    for name in names {
        command = with_name(alloc, command, action, name)?;
    }
    Ok(command)
}

// The command of the words: it has the flags and the options, and no more.
fn command_of<'a>(alloc: Global) -> Result<Command<'a>, AllocError>
    ensures { IfOk result (λ made. app_of made ≡ command) }
{
    let command = Command::new(alloc, "pl_csv")
        .no_binary_name(true)
        .disable_help_flag(true)
        .disable_version_flag(true);
    let command = with_names(alloc, command, ArgAction::SetTrue, FLAGS.as_slice())?;
    with_names(alloc, command, ArgAction::Set, OPTIONS.as_slice())
}

// The matches of words. Refuses only want of memory.
fn matches_of<'a>(alloc: Global, words: &'a [String]) -> Result<ArgMatches<'a>, Error>
    requires { of_parts are_known_once (map string_bytes words.now) ≡ true }
    ensures matches { IfOk result (HasMatchesOf command (map string_bytes words.entry.now)) }
    ensures refused { IfErr result (λ error. kind_of error ≡ kind.OutOfMemory) }
{
    let command = command_of(alloc)?;
    command.try_get_matches_from(words)
}

/// The flags and options of words. Contracts see them in the order of the words.
#[derive(Drop)]
pub(crate) struct Arguments<'a> {
    words: &'a [String],
    matches: ArgMatches<'a>,
}

impl<'a> Model for Arguments<'a> {
    ghost use Rattle.std.specs.Prelude.{List, map, string_bytes};
    ghost use Rattle.pl_words.specs.Arguments.{parts_in, AreReadAs};
    ghost use Rattle.pl_words.specs.Parts.{PartText};

    ghost Value = { List PartText };

    ghost view = { λ it. parts_in (map string_bytes it.words.now) };

    ghost invariant = { λ it. AreReadAs (map string_bytes it.words.now) it.matches };
}

impl<'a> Arguments<'a> {
    /// Reads words. Refuses only want of memory.
    pub(crate) fn read(alloc: Global, words: &'a [String]) -> Result<Arguments<'a>, WordsFault>
        requires { of_parts are_known_once (map string_bytes words.now) ≡ true }
        ensures read { IfOk result (λ arguments. parts_of (map string_bytes words.entry.now) ≡ Some arguments) }
        ensures refused { result ≢ Err WordsFault.Words }
    {
        match matches_of(alloc, words) {
            Ok(matches) => Ok(Arguments { words, matches }),
            Err(_) => Err(WordsFault::OutOfMemory),
        }
    }

    /// The value of an option, where it is there.
    pub(crate) fn value_under(&self, name: &str) -> Option<&'a str>
        requires { is_option name.now ≡ true }
        ensures { option_map (λ value. value.now) result ≡ value_under name.now self.now }
    {
        match id_of(name) {
            Some(id) => self.matches.get_str(id),
            None => None,
        }
    }

    /// Whether a flag is there.
    pub(crate) fn has_flag(&self, name: &str) -> bool
        requires { is_flag name.now ≡ true }
        ensures { result ≡ has_name name.now self.now }
    {
        match id_of(name) {
            Some(id) => self.matches.get_flag(id),
            None => false,
        }
    }

    /// Whether all names are among these.
    pub(crate) fn are_among(&self, names: &[&str]) -> bool
        ensures { result ≡ are_among (map (λ name. name.now) names.now) self.now }
    {
        are_among(self.words, names)
    }
}
