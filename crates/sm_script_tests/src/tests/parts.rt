//! Scripts as tables of their parts.

use super::fixture::Files;
use sm_samples::{Said, Talk};
use sm_values::push_numbered;
use std::alloc::{AllocError, Global};
use std::process::Abort;

/// A part of a script, with what answers it.
#[derive(Clone, Copy)]
pub enum Part {
    /// Request lines, each with the line that answers it.
    Lines(Talk),
    /// Bytes of the script, and of the answers.
    Bytes(&'static [u8], &'static [u8]),
    /// The same, repeated the given number of times. Each `#` is replaced by the number of the repetition, from 1.
    Repeat(u32, &'static [u8], &'static [u8]),
    /// A `reload` line that expects this version, with these files, and what answers it.
    Reload(u64, Files, &'static [u8]),
}

/// The parts of a script.
pub type Parts = &'static [Part];

/// The first client connects.
pub const ONE_CLIENT: Talk = &[("hello 100 1000 u:r:system_server:s0", "client 1")];

/// A system server adds `activity`.
pub const A_SERVICE: Talk = &[
    ("hello 100 1000 u:r:system_server:s0", "client 1"),
    ("1 add activity o1 0 8", "ok"),
];

/// The same, and an application gets it.
pub const A_HANDLE: Talk = &[
    ("hello 100 1000 u:r:system_server:s0", "client 1"),
    ("1 add activity o1 0 8", "ok"),
    ("hello 200 10007 u:r:untrusted_app:s0", "client 2"),
    ("2 get activity", "handle 1"),
];

/// What a script of these parts says, and what it is to be answered.
pub fn said_of(rt: &impl Abort, alloc: Global, parts: Parts) -> Said {
    let mut said = Said::new(alloc);
    for part in parts {
        push(rt, alloc, &mut said, *part).ok().expect(rt, "memory");
    }
    said
}

/// Appends a part.
pub fn push(rt: &impl Abort, alloc: Global, said: &mut Said, part: Part) -> Result<(), AllocError> {
    match part {
        Part::Lines(talk) => said.talk(talk),
        Part::Bytes(script, answers) => {
            said.script.extend_from_slice(script)?;
            said.wanted.extend_from_slice(answers)
        }
        Part::Repeat(count, script, answers) => repeat(said, count, script, answers),
        Part::Reload(expected, files, answer) => {
            said.reload(expected, &files.source(rt, alloc), files.contexts, answer)
        }
    }
}

/// Appends these bytes `count` times, with each `#` replaced by the number of the repetition.
pub fn repeat(
    said: &mut Said,
    count: u32,
    script: &[u8],
    answers: &[u8],
) -> Result<(), AllocError> {
    for n in 1..=count {
        push_with(&mut said.script, script, n)?;
        push_with(&mut said.wanted, answers, n)?;
    }
    Ok(())
}

fn push_with(text: &mut Vec<u8>, bytes: &[u8], n: u32) -> Result<(), AllocError> {
    for byte in bytes {
        if *byte == b'#' {
            push_numbered(text, b"", u64::from(n))?;
        } else {
            text.push(*byte)?;
        }
    }
    Ok(())
}
