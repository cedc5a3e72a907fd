//! The options of a command line.

ghost use Rattle.std.specs.Prelude.{◌≡◌, IfSome};

use crate::administration::{Administration, administration_of, misused_request};
use crate::numbers::odd_number;
use crate::parser::command;
use crate::question::{Question, RuleFilterWords, question_of, rule_filter_of};
use crate::sockets::{DEFAULT_SLOTS, NO_STATUS_PATH, Sockets, misused, slots_of, sockets_of};
use clap::error::ErrorKind;
use clap::{ArgMatches, Error};
use sm_values::Places;
use std::alloc::{AllocError, Global};
use std::rt::Env;
use std::{env, io};

/// A command of the program.
#[derive(Clone, Copy, PartialEq, Eq)]
pub enum Mode<'a> {
    /// `svcmgr run [--journal N] RULES CONTEXTS`
    Run,
    /// `svcmgr check [--all] [--show] RULES CONTEXTS`: whether all broken neverallow rules are named, and whether what a
    /// refusal names is shown.
    Check { all: bool, show: bool },
    /// `svcmgr serve [--journal N] [--seal-at N] [--seal-bytes N] [--workers W] [--mode MODE] [--audit]
    /// [--audit-rate N] [--take-wait MS] [--status PATH] --socket PATH --admin PATH RULES CONTEXTS`
    Serve(Sockets<'a>),
    /// `svcmgr label`, `explain`, `access`, `types`, `names` or `diff`
    Ask(Question<'a>),
    /// `svcmgr rules [--kind KIND] [--source TYPE] [--target TYPE] [--name NAME] [--class CLASS] [--perm PERM] RULES
    /// CONTEXTS`
    Rules(RuleFilterWords<'a>),
    /// `svcmgr suggest RULES CONTEXTS`
    Suggest,
    /// `svcmgr unused RULES CONTEXTS`
    Unused,
}

/// What a command line asks for.
#[derive(Drop)]
pub enum Invocation<'a> {
    /// A command that reads a policy.
    Policy(Options<'a>),
    /// `svcmgr admin`
    Administer(Administration<'a>),
    /// `svcmgr status [--status PATH]`, with the path of the owner's socket if the command line has it.
    Status(Option<&'a str>),
}

/// The options of a command that reads a policy.
#[derive(Drop)]
pub struct Options<'a> {
    pub mode: Mode<'a>,
    /// The slots of the journal of a run or a server.
    pub places: Places,
    pub rules: &'a str,
    pub contexts: &'a str,
}

/// Returns the words of the command line, with the program's name first.
pub fn words_of<R: Env + AllocGlobal>(rt: &R) -> Result<Vec<String>, Error> {
    match env::args(rt) {
        Ok(words) => Ok(words.collect(rt.alloc())?),
        Err(error) if error.kind() == io::ErrorKind::OutOfMemory => Err(Error::from(AllocError)),
        Err(_) => Err(misuse(
            rt.alloc(),
            ErrorKind::ValueValidation,
            "invalid UTF-8 was detected in one or more arguments",
        )),
    }
}

/// Returns the parser's error of this kind with these words.
fn misuse(alloc: Global, kind: ErrorKind, words: &str) -> Error {
    match try_misuse(alloc, kind, words) {
        Ok(error) => error,
        Err(error) => Error::from(error),
    }
}

fn try_misuse(alloc: Global, kind: ErrorKind, words: &str) -> Result<Error, AllocError> {
    command(alloc)?.error(kind, words)
}

/// Parses the words of the command line, or returns the parser's text.
pub fn invocation_of<'a>(alloc: Global, words: &'a [String]) -> Result<Invocation<'a>, Error> {
    let matches = matches_of(alloc, words)?;
    invocation_in(alloc, &matches)
}

fn matches_of<'a>(alloc: Global, words: &'a [String]) -> Result<ArgMatches<'a>, Error> {
    command(alloc)?.try_get_matches_from(words)
}

fn invocation_in<'a>(alloc: Global, matches: &ArgMatches<'a>) -> Result<Invocation<'a>, Error> {
    match matches.subcommand() {
        Some(("admin", matches)) => administration_in(alloc, matches),
        Some(("status", matches)) => status_in(alloc, matches),
        Some((name, matches)) => options_in(alloc, name, matches),
        None => Err(no_command(alloc)),
    }
}

fn administration_in<'a>(alloc: Global, matches: &ArgMatches<'a>) -> Result<Invocation<'a>, Error> {
    let Some(administration) = administration_of(matches) else {
        return Err(no_command(alloc));
    };
    match misused_request(&administration) {
        Some(fault) => Err(misuse(alloc, ErrorKind::ValueValidation, fault)),
        None => Ok(Invocation::Administer(administration)),
    }
}

fn status_in<'a>(alloc: Global, matches: &ArgMatches<'a>) -> Result<Invocation<'a>, Error> {
    match matches.get_str("status") {
        Some("") => Err(misuse(alloc, ErrorKind::ValueValidation, NO_STATUS_PATH)),
        socket => Ok(Invocation::Status(socket)),
    }
}

fn options_in<'a>(
    alloc: Global,
    name: &str,
    matches: &ArgMatches<'a>,
) -> Result<Invocation<'a>, Error> {
    if let Some(error) = misuse_in(alloc, name, matches) {
        return Err(error);
    }
    match options_under(name, matches) {
        Some(options) => Ok(Invocation::Policy(options)),
        None => Err(no_command(alloc)),
    }
}

fn no_command(alloc: Global) -> Error {
    misuse(alloc, ErrorKind::MissingSubcommand, "a command is missing")
}

/// Returns the error for options that the parser accepts.
fn misuse_in(alloc: Global, name: &str, matches: &ArgMatches) -> Option<Error> {
    if let Some(number) = odd_number(matches) {
        return Some(misuse_of_number(alloc, number.option, number.text));
    }
    if name != "serve" {
        return None;
    }
    let fault = misused(matches)?;
    Some(misuse(alloc, ErrorKind::ValueValidation, fault))
}

fn misuse_of_number(alloc: Global, option: &str, text: &str) -> Error {
    match number_words(alloc, option, text) {
        Ok(words) => misuse(alloc, ErrorKind::ValueValidation, &words),
        Err(error) => Error::from(error),
    }
}

fn number_words(alloc: Global, option: &str, text: &str) -> Result<String, AllocError> {
    format!(in alloc; "invalid value '{text}' for '{option}': it has a sign or a leading zero")
}

/// Returns the options of the command that has this name.
fn options_under<'a>(name: &str, matches: &ArgMatches<'a>) -> Option<Options<'a>> {
    match name {
        "run" => in_mode(Mode::Run, matches),
        "check" => in_mode(
            Mode::Check {
                all: matches.get_flag("all"),
                show: matches.get_flag("show"),
            },
            matches,
        ),
        "serve" => in_mode(Mode::Serve(sockets_of(matches)?), matches),
        "rules" => in_mode(Mode::Rules(rule_filter_of(matches)), matches),
        "suggest" => in_mode(Mode::Suggest, matches),
        "unused" => in_mode(Mode::Unused, matches),
        _ => in_mode(Mode::Ask(question_of(name, matches)?), matches),
    }
}

fn in_mode<'a>(mode: Mode<'a>, matches: &ArgMatches<'a>) -> Option<Options<'a>>
    ensures { IfSome result (λ options. options.mode ≡ mode.exit) }
{
    let entries = match mode {
        Mode::Run | Mode::Serve(_) => slots_of(matches),
        Mode::Check { .. } | Mode::Ask(_) | Mode::Rules(_) | Mode::Suggest | Mode::Unused =>
            DEFAULT_SLOTS,
    };
    Some(Options {
        mode,
        places: Places::new(entries)?,
        rules: matches.get_str("rules")?,
        contexts: matches.get_str("contexts")?,
    })
}
