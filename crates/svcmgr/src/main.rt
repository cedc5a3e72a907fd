//! The program `svcmgr`: a service manager on the command line.
#![tactic(auto)]

mod admin;
mod checking;
mod console;
mod daemon;
mod journald;
mod passed;
mod pipe;
mod questions;
mod settings;
mod sockets;
mod standard_error;
mod standard_streams;
mod status;
mod systemd;
mod waking;

use admin::administer;
use checking::{check_policy, check_rules};
use clap::error::ErrorKind;
use daemon::serve_policy;
use journald::is_journal;
use passed::{Passed, Unusable, passed_sockets};
use questions::{ask, ask_rules, ask_suggestions, ask_unused};
use sm_command::{
    Ending, Invocation, Mode, NO_MEMORY, Options, Sockets, invocation_of, read_limited, words_of,
};
use sm_engine::Counted;
use sm_policy::Prepared;
use sm_script::{ScriptFault, run_script};
use sm_serve::Level;
use standard_error::StandardError;
use standard_streams::StandardStreams;
use status::print_status;
use std::io::{self, Write};
use std::mem;
use std::process::ExitCode;
use std::rt::{Clock, Files, Net};
use std::sync::Wait;
use std::thread::Threads;

/// The most reads of one run.
const BOUND: u32 = 16_777_216;

fn main(rt: HostRuntime) -> ExitCode {
    let _streams = StandardStreams::hold(&rt);
    match words_of(&rt) {
        Ok(words) => answer(&rt, &rt, words.as_slice()),
        Err(error) => misuse(&rt, &error),
    }
}

/// Runs the command of the command line. The second handle is the same one, for code that starts threads and waits.
fn answer<R: Files + Net + Threads + Wait + Clock + Sync>(
    host: &HostRuntime,
    rt: &R,
    words: &[String],
) -> ExitCode {
    match invocation_of(host.alloc(), words) {
        Ok(Invocation::Policy(options)) => match perform(host, rt, &options) {
            Ok(code) => code,
            Err(ending) => fail(host, &ending),
        },
        Ok(Invocation::Administer(administration)) => administer(host, rt, administration),
        Ok(Invocation::Status(socket)) => print_status(host, rt, socket),
        Err(error) => misuse(host, &error),
    }
}

/// Prints what is wrong with the command line, or its help or version.
fn misuse(rt: &HostRuntime, error: &clap::Error) -> ExitCode {
    if error.kind() == ErrorKind::OutOfMemory {
        return fail(rt, &Ending::Memory);
    }
    if error.kind() == ErrorKind::DisplayVersion {
        return version(rt, error);
    }
    // A failure can't be reported anywhere else.
    let _ = eprint!(rt; "{error}");
    ExitCode::from(2)
}

/// Prints the version on standard output.
fn version(rt: &HostRuntime, words: &clap::Error) -> ExitCode {
    match print!(rt; "{words}") {
        Ok(()) => ExitCode::SUCCESS,
        Err(_) => ExitCode::FAILURE,
    }
}

/// Prints why there is no answer.
pub(crate) fn fail(rt: &HostRuntime, ending: &Ending) -> ExitCode {
    fail_at(rt, rt.stderr(), b"", ending)
}

/// Prints why a server has ended, and gives up after a while if standard error takes nothing.
fn fail_server<'a, R: Wait>(host: &'a HostRuntime, rt: &'a R, ending: &Ending) -> ExitCode {
    fail_at(
        host,
        StandardError::new(host, rt, None),
        fault_prefix(host),
        ending,
    )
}

/// Prints why the sockets that systemd passes can't be used.
fn refuse_sockets<'a, R: Wait>(host: &'a HostRuntime, rt: &'a R, unusable: Unusable) -> ExitCode {
    let mut writer = StandardError::new(host, rt, None);
    // A failure can't be reported anywhere else.
    let _ = write_with(&mut writer, fault_prefix(host), unusable.line());
    ExitCode::from(2)
}

fn fault_prefix(host: &HostRuntime) -> &'static [u8] {
    if is_journal(host) {
        Level::Fault.prefix()
    } else {
        b""
    }
}

/// Writes there why there is no answer, after this prefix.
fn fail_at<W: Write + Drop>(
    rt: &HostRuntime,
    mut writer: W,
    prefix: &[u8],
    ending: &Ending,
) -> ExitCode {
    let _ = match ending.line(rt.alloc()) {
        Ok(line) => write_with(&mut writer, prefix, &line),
        Err(_) => write_with(&mut writer, prefix, NO_MEMORY),
    };
    ExitCode::FAILURE
}

fn write_with<W: Write>(writer: &mut W, prefix: &[u8], line: &[u8]) -> io::Result<()> {
    writer.write_all(prefix)?;
    writer.write_all(line)
}

fn perform<'a, R: Files + Net + Threads + Wait + Clock + Sync>(
    host: &HostRuntime,
    rt: &R,
    options: &Options<'a>,
) -> Result<ExitCode, Ending<'a>> {
    match options.mode {
        Mode::Run => run_stdin(host, options),
        Mode::Check { all: false, show } => check_policy(host, options, show),
        Mode::Check { all: true, show } => check_rules(host, options, show),
        Mode::Serve(sockets) => Ok(serve(host, rt, options, sockets)),
        Mode::Ask(question) => Ok(ask(host, options, question)),
        Mode::Rules(words) => Ok(ask_rules(host, options, words)),
        Mode::Suggest => Ok(ask_suggestions(host, options)),
        Mode::Unused => Ok(ask_unused(host, options)),
    }
}

/// Reads a file of the policy.
pub(crate) fn text_of<'a>(rt: &HostRuntime, path: &'a str) -> Result<Vec<u8>, Ending<'a>> {
    read_limited(rt, path).map_err(|error| Ending::of_file(path, error))
}

/// Runs the script on standard input. Replies go to standard output, audit lines to standard error.
fn run_stdin<'a>(rt: &HostRuntime, options: &Options<'a>) -> Result<ExitCode, Ending<'a>> {
    let rules = text_of(rt, options.rules)?;
    let contexts = text_of(rt, options.contexts)?;
    let mut reader = Counted::new(rt.stdin());
    let mut writer = Counted::new(rt.stdout());
    let mut audit = Counted::new(rt.stderr());
    let (ended, manager) = run_script(
        rt.alloc(),
        &rules,
        &contexts,
        options.places,
        BOUND,
        &mut reader,
        &mut writer,
        &mut audit,
    );
    // The program ends, and all of its memory goes with it.
    mem::forget(manager);
    ended?;
    Ok(ExitCode::SUCCESS)
}

/// Serves clients and administrators over sockets, until it is killed or a fault ends it.
fn serve<'a, R: Files + Net + Threads + Wait + Clock + Sync>(
    host: &HostRuntime,
    rt: &R,
    options: &Options<'a>,
    sockets: Sockets<'a>,
) -> ExitCode {
    let passed = match passed_sockets(host) {
        Ok(passed) => passed,
        Err(unusable) => return refuse_sockets(host, rt, unusable),
    };
    match serve_sockets(host, rt, options, sockets, passed) {
        Ok(()) => ExitCode::SUCCESS,
        Err(ending) => fail_server(host, rt, &ending),
    }
}

/// Reads the policy, and serves under it.
fn serve_sockets<'a, R: Files + Net + Threads + Wait + Clock + Sync>(
    host: &HostRuntime,
    rt: &R,
    options: &Options<'a>,
    sockets: Sockets<'a>,
    passed: Passed,
) -> Result<(), Ending<'a>> {
    let rules = text_of(host, options.rules)?;
    let contexts = text_of(host, options.contexts)?;
    let policy = match Prepared::from_texts(host.alloc(), &rules, &contexts) {
        Ok(policy) => policy,
        Err(fault) => return Err(Ending::Script(ScriptFault::Policy(fault))),
    };
    serve_policy(host, rt, policy, options.places, sockets, passed)
}
