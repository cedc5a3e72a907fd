//! Values, request lines and reply lines.

use super::outcome::{same_text, value};
use sm_history::{Event, Outcome, Reply};
use sm_values::{Context, ContextError, Name, ObjRef, Payload, PayloadError, Refs, RefsError};
use sm_wire::{Item, Kind, LineReader, ReadError, Request, Telling, reply_line};
use std::alloc::Global;
use std::process::Abort;
use std::test::*;

const CONTEXT: &[u8] = b"u:r:untrusted_app:s0:c1,c2";

fn context(rt: &impl Abort, alloc: Global) -> Option<()> {
    let context = value(rt, Context::read(alloc, CONTEXT), ContextError::Memory)?;
    same_text(rt, context.text(), CONTEXT);
    same_text(rt, context.type_name(), b"untrusted_app");
    Some(())
}

fn name(rt: &impl Abort, alloc: Global) -> Option<()> {
    let name = Name::new(alloc, b"activity").ok()?;
    same_text(rt, name.bytes(), b"activity");
    Some(())
}

fn payload(rt: &impl Abort, alloc: Global) -> Option<()> {
    let bytes = Vec::from_slice(alloc, b"data").ok()?;
    let payload = value(rt, Payload::from_vec(bytes), PayloadError::Memory)?;
    same_text(rt, payload.bytes(), b"data");
    Some(())
}

fn refs(rt: &impl Abort, alloc: Global) -> Option<()> {
    let list = [ObjRef::Own(5), ObjRef::Handle(9)];
    let copy = Vec::from_slice(alloc, &list).ok()?;
    let refs = value(rt, Refs::from_vec(alloc, copy), RefsError::Memory)?;
    assert!(rt; refs.list() == list.as_slice());
    Some(())
}

#[test]
fn values_are_kept(rt: HostRuntime) {
    let alloc = rt.alloc();
    again!(rt; context(&rt, alloc));
    again!(rt; name(&rt, alloc));
    again!(rt; payload(&rt, alloc));
    again!(rt; refs(&rt, alloc));
}

fn is_call(event: &Event) -> bool {
    match event {
        Event::Call {
            handle: 1,
            payload,
            refs,
        } => payload.bytes() == b"\x00".as_slice() && refs.list().len() == 2,
        _ => false,
    }
}

fn read(rt: &impl Abort, alloc: Global) -> Option<()> {
    let line = b"call 1 00 o5 h9";
    let read = Request::read(alloc, Kind::Client, line);
    match value(rt, read, ReadError::Memory)? {
        Request::Change(None, event) => assert!(rt; is_call(&event)),
        _ => panic!(rt; "another request"),
    }
    Some(())
}

fn answered(rt: &impl Abort, alloc: Global) -> Option<()> {
    let reply = Reply::Done(Outcome::Granted(7));
    let told = reply_line(alloc, Telling::Whole, &reply).ok()?;
    same_text(rt, &told, b"handle 7\n");
    Some(())
}

#[test]
fn a_request_is_read_and_answered(rt: HostRuntime) {
    again!(rt; read(&rt, rt.alloc()));
    again!(rt; answered(&rt, rt.alloc()));
}

/// Whether the items are two `version` lines and a `get`.
fn are_expected(items: &[Item]) -> bool {
    matches!(
        items,
        [
            Item::Asked(Request::Look(None, _)),
            Item::Asked(Request::Look(None, _)),
            Item::Asked(Request::Change(None, Event::Get { .. })),
        ]
    )
}

/// Pieces of two and a half lines and more, each with the number of its bytes that a call reads and with the number of
/// items after it. The name of the last line needs memory.
const PIECES: &[(&[u8], usize, usize)] = &[
    (b"version\nvers", 8, 1),
    (b"vers", 4, 1),
    (b"ion\nget", 4, 2),
    (b"get", 3, 2),
    (b" activity\nlist", 10, 3),
];

/// Reads what is next of a piece. `None` if an allocation failed; then nothing was appended, and the piece may be read
/// again.
fn takes(
    rt: &impl Abort,
    lines: &mut LineReader,
    piece: &[u8],
    items: &mut Vec<Item>,
) -> Option<usize> {
    let before = items.len();
    let taken = lines.take_one(piece, items).ok();
    assert!(rt; taken.is_some() || items.len() == before);
    taken
}

/// Reads a piece, as far as this.
fn reads(
    rt: &impl Abort,
    lines: &mut LineReader,
    piece: &[u8],
    length: usize,
    items: &mut Vec<Item>,
) -> Option<()> {
    let taken = takes(rt, lines, piece, items)?;
    assert!(rt; taken == length);
    Some(())
}

#[test]
fn lines_are_cut(rt: HostRuntime) {
    let alloc = rt.alloc();
    let mut lines = LineReader::new(alloc, Kind::Client);
    let mut items = Vec::new(alloc);
    for (piece, length, count) in PIECES {
        again!(rt; reads(&rt, &mut lines, piece, *length, &mut items));
        assert!(rt; items.len() == *count);
    }
    assert!(rt; are_expected(&items));
}
