//! Requests as lines, and the lines of replies.

use sm_history::{Denial, Event, Outcome, Query, Refusal, Reply, Shared};
use sm_values::{ClientId, Identity, Name, ObjRef, push_access, push_numbered};
use sm_wire::*;
use std::alloc::{AllocError, Global};
use std::process::Abort;
use std::test::*;

// Adds a reference in words.
fn push_reference(out: &mut Vec<u8>, reference: ObjRef) -> Result<(), AllocError> {
    match reference {
        ObjRef::Own(object) => push_numbered(out, b" own ", u64::from(object)),
        ObjRef::Handle(handle) => push_numbered(out, b" handle ", u64::from(handle)),
        ObjRef::Null => out.extend_from_slice(b" null"),
    }
}

// Adds what an event does, and a name.
fn push_named(out: &mut Vec<u8>, words: &[u8], name: &Name) -> Result<(), AllocError> {
    out.extend_from_slice(words)?;
    out.extend_from_slice(name.bytes())
}

// Adds a call's bytes and references in words.
fn push_call(out: &mut Vec<u8>, bytes: &[u8], refs: &[ObjRef]) -> Result<(), AllocError> {
    for byte in bytes {
        push_numbered(out, b" byte ", u64::from(*byte))?;
    }
    for reference in refs {
        push_reference(out, *reference)?;
    }
    Ok(())
}

// Adds an event in words.
fn push_event(out: &mut Vec<u8>, event: &Event) -> Result<(), AllocError> {
    match event {
        Event::Add {
            name,
            obj,
            allow_isolated,
            dump,
        } => {
            push_named(out, b" adds ", name)?;
            push_reference(out, *obj)?;
            push_numbered(out, b" isolated ", u64::from(*allow_isolated))?;
            push_numbered(out, b" flags ", u64::from(*dump))
        }
        Event::Get { name } => push_named(out, b" gets ", name),
        Event::Watch { name, object } => {
            push_named(out, b" watches ", name)?;
            push_numbered(out, b" by ", u64::from(*object))
        }
        Event::Unwatch { name, object } => {
            push_named(out, b" unwatches ", name)?;
            push_numbered(out, b" by ", u64::from(*object))
        }
        Event::Unregister { name, obj } => {
            push_named(out, b" unregisters ", name)?;
            push_reference(out, *obj)
        }
        Event::Call {
            handle,
            payload,
            refs,
        } => {
            push_numbered(out, b" calls ", u64::from(*handle))?;
            push_call(out, payload.bytes(), refs.list())
        }
        Event::Release { handle } => push_numbered(out, b" releases ", u64::from(*handle)),
        Event::Take => out.extend_from_slice(b" takes"),
        Event::Die => out.extend_from_slice(b" dies"),
        _ => out.extend_from_slice(b" does what no line asks"),
    }
}

// Adds who makes a request, where the line says so.
fn push_asker(out: &mut Vec<u8>, client: Option<ClientId>) -> Result<(), AllocError> {
    match client {
        Some(client) => push_numbered(out, b"", u64::from(client.0)),
        None => Ok(()),
    }
}

// Adds a query in words.
fn push_query(out: &mut Vec<u8>, query: &Query) -> Result<(), AllocError> {
    match query {
        Query::Version => out.extend_from_slice(b" asks the version"),
        Query::List(mask) => push_numbered(out, b" asks the names of ", u64::from(*mask)),
        Query::Explain {
            source,
            target,
            class,
            perm,
        } => {
            out.extend_from_slice(b" asks why ")?;
            push_access(out, source.bytes(), target.bytes(), *class, *perm)
        }
    }
}

// Adds a process in words.
fn push_process(out: &mut Vec<u8>, who: &Identity) -> Result<(), AllocError> {
    push_numbered(out, b"hello of ", u64::from(who.pid))?;
    push_numbered(out, b" user ", u64::from(who.uid))?;
    out.extend_from_slice(b" in ")?;
    out.extend_from_slice(who.context.text())
}

// Adds a request in words.
fn push_request(out: &mut Vec<u8>, request: &Request) -> Result<(), AllocError> {
    match request {
        Request::Change(client, event) => {
            push_asker(out, *client)?;
            push_event(out, event)
        }
        Request::Look(client, query) => {
            push_asker(out, *client)?;
            push_query(out, query)
        }
        Request::Hello(who) => push_process(out, who),
        Request::Reload {
            expected,
            rules,
            contexts,
        } => {
            push_numbered(out, b"reload of ", *expected)?;
            push_numbered(out, b" by ", u64::from(*rules))?;
            push_numbered(out, b" and ", u64::from(*contexts))
        }
        Request::Denials => out.extend_from_slice(b"denials"),
        Request::Seal => out.extend_from_slice(b"seal"),
    }
}

// What a line of this kind is read as, in words.
fn read_by(alloc: Global, kind: Kind, line: &[u8]) -> Result<Vec<u8>, AllocError> {
    let mut out = Vec::new(alloc);
    match Request::read(alloc, kind, line) {
        Ok(request) => push_request(&mut out, &request)?,
        Err(ReadError::Malformed) => out.extend_from_slice(b"malformed")?,
        Err(ReadError::Memory) => return Err(AllocError),
    }
    Ok(out)
}

// What a line of a script is read as, in words.
fn read_as(alloc: Global, line: &[u8]) -> Result<Vec<u8>, AllocError> {
    read_by(alloc, Kind::Script, line)
}

/// Request lines, each with what it is read as.
type Readings = &'static [(&'static str, &'static str)];

const WELL_FORMED: Readings = &[
    (
        "1 add a o4294967295 1 8",
        "1 adds a own 4294967295 isolated 1 flags 8",
    ),
    (
        "1 add %612062 null 0 0",
        "1 adds a b null isolated 0 flags 0",
    ),
    ("2 get %2525", "2 gets %%"),
    ("2 check a%", "2 gets a%"),
    ("1 watch a o0", "1 watches a by 0"),
    (
        "4294967295 unwatch % o4294967295",
        "4294967295 unwatches  by 4294967295",
    ),
    ("1 unregister a h2", "1 unregisters a handle 2"),
    ("1 unregister a null", "1 unregisters a null"),
    ("1 call 3 -", "1 calls 3"),
    (
        "1 call 0 00fFAb1c",
        "1 calls 0 byte 0 byte 255 byte 171 byte 28",
    ),
    (
        "1 call 3 0a o1 h2 null o1",
        "1 calls 3 byte 10 own 1 handle 2 null own 1",
    ),
    ("1 release 4294967295", "1 releases 4294967295"),
    ("1 take", "1 takes"),
    ("0 bye", "0 dies"),
    ("1 list 4294967295", "1 asks the names of 4294967295"),
    ("1 version", "1 asks the version"),
    (
        "hello 4294967295 7 u:r:t:s0",
        "hello of 4294967295 user 7 in u:r:t:s0",
    ),
    ("explain a b binder call", " asks why a b binder call"),
    (
        "reload 18446744073709551615 2 4294967295",
        "reload of 18446744073709551615 by 2 and 4294967295",
    ),
];

#[test]
fn well_formed_lines(rt: HostRuntime) -> Result<(), Fail> {
    for (line, wanted) in WELL_FORMED {
        let words = read_as(rt.alloc(), line.as_bytes())?;
        assert_eq!(rt; words.as_slice(), wanted.as_bytes(), "{line}");
    }
    Ok(())
}

/// Lines, each with what a client's connection, an administrator's and a script read it as.
const BY_KIND: &[(&str, &str, &str, &str)] = &[
    (
        "hello 7 0 u:r:t",
        "hello of 7 user 0 in u:r:t",
        "malformed",
        "hello of 7 user 0 in u:r:t",
    ),
    ("get a", " gets a", "malformed", "malformed"),
    ("1 get a", "malformed", "malformed", "1 gets a"),
    ("call 3 -", " calls 3", "malformed", "malformed"),
    ("1 call 3 -", "malformed", "malformed", "1 calls 3"),
    ("list 15", " asks the names of 15", "malformed", "malformed"),
    (
        "1 list 15",
        "malformed",
        "malformed",
        "1 asks the names of 15",
    ),
    ("bye", " dies", "malformed", "malformed"),
    ("1 bye", "malformed", "malformed", "1 dies"),
    (
        "version",
        " asks the version",
        " asks the version",
        "malformed",
    ),
    ("1 version", "malformed", "malformed", "1 asks the version"),
    (
        "explain a b binder call",
        "malformed",
        " asks why a b binder call",
        " asks why a b binder call",
    ),
    (
        "reload 1 2 3",
        "malformed",
        "reload of 1 by 2 and 3",
        "reload of 1 by 2 and 3",
    ),
    ("denials", "malformed", "denials", "denials"),
    ("seal", "malformed", "seal", "seal"),
    ("version ", "malformed", "malformed", "malformed"),
    ("denials 1", "malformed", "malformed", "malformed"),
    ("seal 1", "malformed", "malformed", "malformed"),
    ("", "malformed", "malformed", "malformed"),
];

#[test]
fn lines_of_each_kind(rt: HostRuntime) -> Result<(), Fail> {
    let alloc = rt.alloc();
    for (line, client, admin, script) in BY_KIND {
        let words = read_by(alloc, Kind::Client, line.as_bytes())?;
        assert_eq!(rt; words.as_slice(), client.as_bytes(), "{line}");
        let words = read_by(alloc, Kind::Admin, line.as_bytes())?;
        assert_eq!(rt; words.as_slice(), admin.as_bytes(), "{line}");
        let words = read_by(alloc, Kind::Script, line.as_bytes())?;
        assert_eq!(rt; words.as_slice(), script.as_bytes(), "{line}");
    }
    Ok(())
}

const MALFORMED: &[&str] = &[
    // The number of fields.
    "",
    "1",
    "1 ",
    "1 take 1",
    "1 take ",
    "1 bye 1",
    "1 release",
    "1 release 1 2",
    "1 watch a",
    "1 watch a o1 o2",
    "1 unwatch a",
    "1 unwatch a o1 o2",
    "1 unregister a",
    "1 unregister a o1 o2",
    "1 call",
    "1 call 3",
    "1 call 3 ",
    "1 call 3 - ",
    "1 call 3 -  o1",
    "take",
    "watch a o1",
    // Words are written in small letters.
    "1 Take",
    "1 bye\r",
    // The watcher's object must be the client's own.
    "1 watch a h1",
    "1 watch a null",
    "1 watch a 1",
    "1 watch a o",
    "1 unwatch a h1",
    "1 unwatch a null",
    "1 watch %6 o1",
    "1 watch  o1",
    "1 unregister a o",
    "1 unregister a Null",
    // Bytes are pairs of digits.
    "1 call 3 0",
    "1 call 3 0a1",
    "1 call 3 0g",
    "1 call 3 --",
    "1 call 3 o1",
    "1 call 3 - -",
    "1 call 3 00 00",
    // Numbers have at most 32 bits, and no leading zeros.
    "01 take",
    "4294967296 take",
    "-1 take",
    "1 release 01",
    "1 release 4294967296",
    "1 release h1",
    "1 watch a o01",
    "1 watch a o4294967296",
    "1 call 03 -",
    "1 call 4294967296 -",
    "1 call 3 - o01",
    "1 call 3 - h4294967296",
];

#[test]
fn malformed_lines(rt: HostRuntime) -> Result<(), Fail> {
    for line in MALFORMED {
        let words = read_as(rt.alloc(), line.as_bytes())?;
        assert_eq!(rt; words.as_slice(), b"malformed".as_slice(), "{line}");
    }
    Ok(())
}

// A call with `bytes` bytes, in digits of either case, and `refs` references.
fn call_line(alloc: Global, bytes: usize, refs: usize) -> Result<Vec<u8>, AllocError> {
    let mut line = Vec::from_slice(alloc, b"1 call 1 ")?;
    for _ in 0..bytes {
        line.extend_from_slice(b"aF")?;
    }
    for _ in 0..refs {
        line.extend_from_slice(b" null")?;
    }
    Ok(line)
}

#[test]
fn longest_calls(rt: HostRuntime) -> Result<(), Fail> {
    let alloc = rt.alloc();
    let calls = [
        (1024, 16, true),
        (1025, 0, false),
        (1, 17, false),
        (0, 0, false),
    ];
    for (bytes, refs, fits) in calls {
        let line = call_line(alloc, bytes, refs)?;
        let words = read_as(alloc, &line)?;
        assert!(rt;
            (words.as_slice() != b"malformed".as_slice()) == fits,
            "{bytes} {refs}"
        );
    }
    Ok(())
}

// The reply to a line, if it is a request.
fn answered(rt: &impl Abort, alloc: Global, line: &[u8], reply: &Reply) -> Vec<u8> {
    let asked = Request::read(alloc, Kind::Script, line)
        .ok()
        .expect(rt, "a request");
    reply_line(alloc, asked.telling(), reply).expect(rt, "memory")
}

#[test]
fn replies_to_requests(rt: HostRuntime) -> Result<(), Fail> {
    let alloc = rt.alloc();
    let granted = Reply::Done(Outcome::Granted(3));
    let died = Reply::Done(Outcome::Died);
    let denial = Shared::new(alloc, Denial::Isolated(99001))?;
    let isolated = Reply::Refused(Refusal::Denied(denial));
    // A get hides that the service isn't for isolated processes.
    let replies = [
        ("2 get activity", &granted, "handle 3\n"),
        ("2 get activity", &isolated, "null\n"),
        (
            "2 watch activity o1",
            &isolated,
            "exception -1 isolated 99001\n",
        ),
        ("2 bye", &died, "bye\n"),
    ];
    for (line, reply, wanted) in replies {
        let words = answered(&rt, alloc, line.as_bytes(), reply);
        assert_eq!(rt; words.as_slice(), wanted.as_bytes());
    }
    Ok(())
}

// Adds an item in words, on a line of its own.
fn push_item(out: &mut Vec<u8>, item: &Item) -> Result<(), AllocError> {
    match item {
        Item::Asked(request) => push_request(out, request)?,
        Item::Policy(texts) => {
            push_numbered(out, b"policy for ", texts.expected())?;
            out.extend_from_slice(b" of ")?;
            out.extend_from_slice(texts.rules())?;
            out.extend_from_slice(b" and ")?;
            out.extend_from_slice(texts.contexts())?;
        }
        Item::Malformed => out.extend_from_slice(b"malformed")?,
        Item::LineTooLong => out.extend_from_slice(b"too long")?,
    }
    out.extend_from_slice(b"\n")
}

// The items that a piece completes.
fn taken(alloc: Global, lines: &mut LineReader, piece: &[u8]) -> Result<Vec<Item>, AllocError> {
    let mut items = Vec::new(alloc);
    let mut start = 0;
    while start < piece.len() {
        start += lines.take_one(&piece[start..], &mut items)?;
    }
    Ok(items)
}

// The items that a piece completes, in words.
fn read(alloc: Global, lines: &mut LineReader, piece: &[u8]) -> Result<Vec<u8>, AllocError> {
    let mut out = Vec::new(alloc);
    for item in &taken(alloc, lines, piece)? {
        push_item(&mut out, item)?;
    }
    Ok(out)
}

#[test]
fn lines_in_pieces(rt: HostRuntime) {
    let alloc = rt.alloc();
    let mut lines = LineReader::new(alloc, Kind::Script);
    assert!(rt; !lines.rest() && !lines.is_dead());
    // Each with the items that it completes, and whether an item has begun.
    let pieces = [
        ("2 get act", "", true),
        ("ivity\nreload 1 2 1\na", "2 gets activity\n", true),
        ("bc\n", "policy for 1 of ab and c\nmalformed\n", false),
    ];
    for (piece, wanted, has_begun) in pieces {
        let words = read(alloc, &mut lines, piece.as_bytes()).expect(&rt, "memory");
        assert_eq!(rt;
            (words.as_slice(), lines.rest()),
            (wanted.as_bytes(), has_begun)
        );
    }
}

#[test]
fn one_item_at_a_time(rt: HostRuntime) -> Result<(), Fail> {
    let alloc = rt.alloc();
    let mut lines = LineReader::new(alloc, Kind::Admin);
    let mut items = Vec::new(alloc);
    // What is left of a piece, each with the number of bytes that a call reads, and that of the items so far.
    let pieces = [
        ("version\nreload 1 2 1\nabc\nve", 8, 1),
        ("reload 1 2 1\nabc\nve", 13, 1),
        ("abc\nve", 3, 2),
        ("\nve", 1, 3),
        ("ve", 2, 3),
        ("", 0, 3),
    ];
    for (piece, length, count) in pieces {
        let n = lines.take_one(piece.as_bytes(), &mut items)?;
        assert_eq!(rt; (n, items.len()), (length, count), "{piece}");
    }
    Ok(())
}

/// More names than the cache of a stream holds at two for each of its 1,024 places, so some place is that of three.
const NAMES: u64 = 2049;

// A `get` of the name with this number is read as that, whatever names the stream had before.
fn is_read(
    rt: &impl Abort,
    alloc: Global,
    lines: &mut LineReader,
    number: u64,
) -> Result<(), AllocError> {
    let mut line = Vec::new(alloc);
    push_numbered(&mut line, b"get ", number)?;
    line.push(b'\n')?;
    let mut wanted = Vec::new(alloc);
    push_numbered(&mut wanted, b" gets ", number)?;
    wanted.push(b'\n')?;
    let words = read(alloc, lines, &line)?;
    assert_eq!(rt; words.as_slice(), wanted.as_slice(), "name {number}");
    Ok(())
}

/// Lines after these names, each with what it is read as.
const AFTER_NAMES: Readings = &[
    ("check 7\n", " gets 7\n"),
    ("get %37\n", " gets 7\n"),
    ("get a b\n", "malformed\n"),
    ("get \n", "malformed\n"),
    ("get \x7f\n", "malformed\n"),
    ("check 7\n", " gets 7\n"),
];

#[test]
fn names_that_come_again(rt: HostRuntime) -> Result<(), Fail> {
    let alloc = rt.alloc();
    let mut lines = LineReader::new(alloc, Kind::Client);
    for n in 0..2 * NAMES {
        is_read(&rt, alloc, &mut lines, n % NAMES)?;
    }
    for (line, wanted) in AFTER_NAMES {
        let words = read(alloc, &mut lines, line.as_bytes())?;
        assert_eq!(rt; words.as_slice(), wanted.as_bytes(), "{line}");
    }
    Ok(())
}

#[test]
fn no_line_behind_one_that_is_too_long(rt: HostRuntime) -> Result<(), Fail> {
    let alloc = rt.alloc();
    let mut lines = LineReader::new(alloc, Kind::Script);
    let long = vec![in alloc; b'a'; 4097]?;
    let items = taken(alloc, &mut lines, &long)?;
    assert!(rt; matches!(items.as_slice(), [Item::LineTooLong]));
    assert!(rt; lines.is_dead());
    assert!(rt; taken(alloc, &mut lines, b"\nversion\n")?.is_empty());
    assert!(rt; lines.is_dead());
    Ok(())
}
