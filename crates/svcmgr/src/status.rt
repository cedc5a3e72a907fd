//! The state of a running server.

use crate::admin::{answer_to, in_words, variable};
use crate::fail;
use sm_command::Ending;
use std::alloc::Global;
use std::io::{self, ErrorKind, Write};
use std::net::Net;
use std::process::ExitCode;

/// The environment's variable with the owner's socket.
const VARIABLE: &str = "SVCMGR_STATUS";

const NO_SOCKET: &[u8] = b"fault: the owner's socket isn't given, by --status or SVCMGR_STATUS\n";

/// Prints the state of the server at this socket, or at that of the environment, on standard output.
pub fn print_status<R: Net>(rt: &HostRuntime, net: &R, socket: Option<&str>) -> ExitCode {
    let variable = match variable(rt, VARIABLE) {
        Ok(variable) => variable,
        Err(ending) => return fail(rt, &ending),
    };
    let given = variable.as_ref().map(|path| path.as_str());
    match socket.or(given) {
        Some(path) if !path.is_empty() => print(rt, state_at(rt.alloc(), net, path)),
        _ => {
            // A failure can't be reported anywhere else.
            let _ = rt.stderr().write_all(NO_SOCKET);
            ExitCode::from(2)
        }
    }
}

fn print(rt: &HostRuntime, state: Result<Vec<u8>, Ending<'_>>) -> ExitCode {
    let state = match state {
        Ok(state) => state,
        Err(ending) => return fail(rt, &ending),
    };
    match rt.stdout().write_all(&state) {
        Ok(()) => ExitCode::SUCCESS,
        Err(_) => {
            let _ = rt.stderr().write_all(b"fault: a write failed\n");
            ExitCode::FAILURE
        }
    }
}

/// Returns the lines of the server at this path.
fn state_at<'a, R: Net>(alloc: Global, net: &R, path: &'a str) -> Result<Vec<u8>, Ending<'a>> {
    match answer_to(alloc, net, path, b"") {
        Ok(state) if is_whole(&state) => Ok(state),
        Ok(_) => {
            let error = io::Error::new(ErrorKind::UnexpectedEof, "the server ended the connection");
            Err(Ending::of_file(path, error))
        }
        Err(error) => Err(Ending::of_file(path, in_words(error))),
    }
}

/// Returns whether the last line is whole, and is the one with which a state ends.
fn is_whole(state: &[u8]) -> bool {
    if !state.ends_with(b"\n") {
        return false;
    }
    let lines = &state[..state.len() - 1];
    match lines.iter().rposition(|byte| *byte == b'\n') {
        Some(end) => lines[end..].starts_with(b"\nwaiting "),
        None => false,
    }
}
