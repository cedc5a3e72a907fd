//! What a server left and what a test wanted, as text.

use super::server::{Heard, Left};
use super::steps::Step::{self, Close, Flood, Over, ReloadStricter, Repeat, Say, SayAll, Vanish};
use sm_engine::ServeFault;
use sm_values::push_numbered;
use std::alloc::{AllocError, Global};
use std::process::Abort;
use std::str;

/// Asserts that this is left after an exchange of these lists of steps. A failure shows the step that failed and each
/// field that differs.
pub fn is_left(rt: &impl Abort, alloc: Global, steps: &[&[Step]], left: Left, wanted: Left) {
    if left == wanted {
        return;
    }
    let text = differences(alloc, steps, &left, &wanted);
    let text = text.ok().expect(rt, "memory");
    panic!(rt; "{}", str::from_utf8(&text).unwrap_or("(not UTF-8)"));
}

fn differences(
    alloc: Global,
    steps: &[&[Step]],
    left: &Left,
    wanted: &Left,
) -> Result<Vec<u8>, AllocError> {
    let mut text = Vec::from_slice(alloc, b"the server left something else")?;
    if let Some(index) = left.failed {
        push_numbered(&mut text, b"\nstep ", index as u64)?;
        if let Some(step) = step_at(steps, index) {
            push_step(&mut text, step)?;
        }
    }
    push_fields(&mut text, left, wanted)?;
    push_heard(&mut text, &left.heard, &wanted.heard)?;
    Ok(text)
}

/// The step of this index, counted over all lists.
fn step_at(lists: &[&[Step]], index: usize) -> Option<Step> {
    let mut index = index;
    for steps in lists {
        if index < steps.len() {
            return Some(steps[index]);
        }
        index -= steps.len();
    }
    None
}

/// What a step sends at a connection, or at each one below a number, and the answer that it wants.
fn exchange_of(step: Step) -> (&'static [u8], usize, &'static [u8], &'static [u8]) {
    match step {
        Say(at, sent, wanted) => (b", connection ", at, sent, wanted),
        Repeat(_, at, sent, wanted) => (b", connection ", at, sent, wanted),
        SayAll(count, sent, wanted) => (b", each connection below ", count, sent, wanted),
        ReloadStricter(at, _, wanted) => (b", connection ", at, b"a reload\n", wanted),
        Flood(at, sent) => (b", connection ", at, sent, b"no more room\n"),
        Close(at) => (b", connection ", at, b"its end\n", b"nothing\n"),
        Vanish(at) => (b", connection ", at, b"nothing more\n", b"nothing\n"),
        Over(at) => (b", connection ", at, b"nothing\n", b"the end\n"),
    }
}

/// Adds a step that failed.
fn push_step(text: &mut Vec<u8>, step: Step) -> Result<(), AllocError> {
    let (place, at, sent, wanted) = exchange_of(step);
    push_numbered(text, place, at as u64)?;
    text.extend_from_slice(b", sends\n")?;
    text.extend_from_slice(sent)?;
    text.extend_from_slice(b"and wants\n")?;
    text.extend_from_slice(wanted)
}

/// Adds a field that differs.
fn push_field(text: &mut Vec<u8>, name: &str, came: u64, wanted: u64) -> Result<(), AllocError> {
    if came == wanted {
        return Ok(());
    }
    text.extend_from_slice(b"\n")?;
    text.extend_from_slice(name.as_bytes())?;
    push_numbered(text, b": ", came)?;
    push_numbered(text, b", wanted ", wanted)
}

/// Adds each field that differs, but for what was heard.
fn push_fields(text: &mut Vec<u8>, left: &Left, wanted: &Left) -> Result<(), AllocError> {
    let (came, through) = (left.came_through, wanted.came_through);
    push_field(text, "came_through", u64::from(came), u64::from(through))?;
    push_field(text, "turned_away", left.turned_away, wanted.turned_away)?;
    if left.ending != wanted.ending {
        text.extend_from_slice(b"\nending: ")?;
        text.extend_from_slice(word_of(left.ending).as_bytes())?;
        text.extend_from_slice(b", wanted ")?;
        text.extend_from_slice(word_of(wanted.ending).as_bytes())?;
    }
    Ok(())
}

fn word_of(ending: Result<(), ServeFault>) -> &'static str {
    match ending {
        Ok(()) => "Ok",
        Err(ServeFault::AcceptFault) => "AcceptFault",
        Err(ServeFault::NoThread) => "NoThread",
        Err(ServeFault::Memory) => "Memory",
    }
}

/// Adds each number of notices that differs.
fn push_heard(text: &mut Vec<u8>, came: &Heard, wanted: &Heard) -> Result<(), AllocError> {
    for (name, came, wanted) in [
        ("listening", came.listening, wanted.listening),
        ("delayed", came.delayed, wanted.delayed),
        ("failed", came.failed, wanted.failed),
        ("waits", came.waits, wanted.waits),
        ("others", came.others, wanted.others),
        ("almost_full", came.almost_full, wanted.almost_full),
        ("full", came.full, wanted.full),
        ("short", came.short, wanted.short),
        ("records", came.records, wanted.records),
        ("closed", came.closed, wanted.closed),
    ] {
        push_field(text, name, came, wanted)?;
    }
    Ok(())
}
