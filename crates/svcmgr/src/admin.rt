//! Requests to a running server as its administrator.

use crate::{fail, text_of};
use sm_command::{
    AdminRequest, Administration, Ending, NO_MEMORY, NewFiles, explain_line, is_granted, is_whole,
    reload_request, version_in,
};
use std::alloc::Global;
use std::env::{self, VarError};
use std::io::{self, ErrorKind, Read, Write};
use std::net::{Net, Shutdown};
use std::os::unix::net::UnixStream;
use std::process::ExitCode;
use std::time::Duration;

/// How long a server may take to answer, in seconds. Another administrator who says nothing keeps it for a minute, and
/// a policy of some megabytes takes a second or two.
const PATIENCE: u64 = 120;

/// The most bytes of an answer that are read. 1,024 records of at most some 17 KB each are fewer.
const MOST_ANSWER: u64 = 33_554_432;

/// The environment's variable with the administrators' socket.
const VARIABLE: &str = "SVCMGR_ADMIN";

const NO_SOCKET: &[u8] =
    b"fault: the administrators' socket isn't given, by --admin or SVCMGR_ADMIN\n";

/// Asks the server, and prints its answer on standard output.
pub fn administer<R: Net>(
    rt: &HostRuntime,
    net: &R,
    administration: Administration<'_>,
) -> ExitCode {
    let variable = match variable(rt, VARIABLE) {
        Ok(variable) => variable,
        Err(ending) => return fail(rt, &ending),
    };
    let given = variable.as_ref().map(|path| path.as_str());
    match administration.socket.or(given) {
        Some(path) if !path.is_empty() => tell(rt, ask(rt, net, path, administration.request)),
        _ => {
            // A failure can't be reported anywhere else.
            let _ = rt.stderr().write_all(NO_SOCKET);
            ExitCode::from(2)
        }
    }
}

/// Returns the value of a variable of the environment, if it has one in UTF-8.
pub(crate) fn variable(rt: &HostRuntime, name: &str) -> Result<Option<String>, Ending<'static>> {
    match env::var(rt, name) {
        Ok(value) => Ok(Some(value)),
        Err(VarError::OutOfMemory) => Err(Ending::Memory),
        Err(_) => Ok(None),
    }
}

/// Prints an answer. One that refuses the request has the status 1.
fn tell(rt: &HostRuntime, answer: Result<Vec<u8>, Ending<'_>>) -> ExitCode {
    let answer = match answer {
        Ok(answer) => answer,
        Err(ending) => return fail(rt, &ending),
    };
    match rt.stdout().write_all(&answer) {
        Ok(()) if is_granted(&answer) => ExitCode::SUCCESS,
        Ok(()) => ExitCode::FAILURE,
        Err(_) => {
            let _ = rt.stderr().write_all(b"fault: a write failed\n");
            ExitCode::FAILURE
        }
    }
}

fn ask<'a, R: Net>(
    rt: &HostRuntime,
    net: &R,
    path: &'a str,
    request: AdminRequest<'a>,
) -> Result<Vec<u8>, Ending<'a>> {
    let alloc = rt.alloc();
    match request {
        AdminRequest::Version => exchange(alloc, net, path, b"version\n"),
        AdminRequest::Denials => exchange(alloc, net, path, b"denials\n"),
        AdminRequest::Seal => exchange(alloc, net, path, b"seal\n"),
        AdminRequest::Reload(files) => reload(rt, net, path, files),
        AdminRequest::Explain(words) => {
            let line = explain_line(alloc, words.source, words.target, words.class, words.perm);
            match line {
                Ok(line) => exchange(alloc, net, path, &line),
                Err(_) => Err(Ending::Memory),
            }
        }
    }
}

/// Replaces the policy by that of two files, if nobody else does meanwhile.
fn reload<'a, R: Net>(
    rt: &HostRuntime,
    net: &R,
    path: &'a str,
    files: NewFiles<'a>,
) -> Result<Vec<u8>, Ending<'a>> {
    let rules = text_of(rt, files.rules)?;
    let contexts = text_of(rt, files.contexts)?;
    let answer = exchange(rt.alloc(), net, path, b"version\n")?;
    let Some(version) = version_in(&answer) else {
        return Ok(answer);
    };
    match reload_request(rt.alloc(), version, &rules, &contexts) {
        Ok(request) => exchange(rt.alloc(), net, path, &request),
        Err(_) => Err(Ending::Memory),
    }
}

/// Sends a request over a connection of its own, and returns the answer.
fn exchange<'a, R: Net>(
    alloc: Global,
    net: &R,
    path: &'a str,
    request: &[u8],
) -> Result<Vec<u8>, Ending<'a>> {
    let answer = match answer_to(alloc, net, path, request) {
        Ok(answer) => answer,
        Err(error) => return Err(Ending::of_file(path, in_words(error))),
    };
    match is_whole(alloc, &answer) {
        Ok(true) => Ok(answer),
        Ok(false) => Err(Ending::of_file(path, cut_off())),
        Err(_) => Err(Ending::Memory),
    }
}

fn cut_off() -> io::Error {
    let words = "the server ended the connection: ask for the version to see what was done";
    io::Error::new(ErrorKind::UnexpectedEof, words)
}

/// Returns the error with words of its own where the time limit was exceeded.
pub(crate) fn in_words(error: io::Error) -> io::Error {
    match error.kind() {
        ErrorKind::WouldBlock => io::Error::new(ErrorKind::TimedOut, "no answer for two minutes"),
        _ => error,
    }
}

/// Connects to a server, sends the request, and returns all that comes back.
pub(crate) fn answer_to<R: Net>(
    alloc: Global,
    net: &R,
    path: &str,
    request: &[u8],
) -> io::Result<Vec<u8>> {
    let stream = UnixStream::connect(net, path)?;
    stream.set_read_timeout(Some(Duration::from_secs(PATIENCE)))?;
    stream.set_write_timeout(Some(Duration::from_secs(PATIENCE)))?;
    unless_ended((&stream).write_all(request))?;
    // Of a connection that the server has ended nothing is left to end.
    let _ = stream.shutdown(Shutdown::Write);
    let mut answer = Vec::new(alloc);
    match (&stream).take(MOST_ANSWER).read_to_end(&mut answer) {
        Ok(_) => {}
        Err(error) => unless_ended(Err(error))?,
    }
    Ok(answer)
}

/// Accepts a connection that the server has ended: it says why before that, for example that a file is too large.
fn unless_ended(called: io::Result<()>) -> io::Result<()> {
    match called {
        Err(error)
            if matches!(
                error.kind(),
                ErrorKind::BrokenPipe | ErrorKind::ConnectionReset
            ) => { Ok(()) }
        called => called,
    }
}
