//! The reader of service contexts: the labels that it gives, and which fault it names.

use sm_contexts::*;
use sm_samples::DEVICE_LABELS;
use std::alloc::{AllocError, Global};
use std::process::Abort;

fn fault(alloc: Global, text: &[u8]) -> Option<ContextsFault> {
    Contexts::read(alloc, text).err()
}

/// Adds entry lines of distinct keys, the first of them `*`.
fn add_entry_lines(text: &mut Vec<u8>, count: u32) -> Result<(), AllocError> {
    text.extend_from_slice(b"* u:r:t")?;
    for i in 1..count {
        text.push(b'\n')?;
        for digit in [i / 676 % 26, i / 26 % 26, i % 26] {
            text.push(b'a' + digit as u8)?;
        }
        text.extend_from_slice(b" u:r:t")?;
    }
    Ok(())
}

#[test]
fn faults(rt: HostRuntime) {
    let cases: [(&[u8], Option<ContextsFault>); 10] = [
        (
            b"activity u:object_r:x:s0\nactivity u:object_r:x:s0\n* u:object_r:d:s0",
            None,
        ),
        (
            b"activity u:object_r:x:s0\nactivity u:object_r:y:s0\n* u:object_r:d:s0",
            Some(ContextsFault::Conflict(1, 2)),
        ),
        (
            b"activity u:object_r:x:s0\nactivity u:object_r:x:s0\n",
            Some(ContextsFault::NoDefault),
        ),
        (
            b"* u:object_r:d:s0\nactivity",
            Some(ContextsFault::BadLine(2)),
        ),
        (
            b"* u:object_r:d:s0\n* u:object_r:d:s0",
            Some(ContextsFault::TwoDefaults(2)),
        ),
        (
            b"\r\n# labels\r\n\t * \t u:r:d more words\r\n  #* u:r",
            None,
        ),
        (b"* u:r", Some(ContextsFault::BadLine(1))),
        (b"\n\n* u:r:d\n* u:r\n", Some(ContextsFault::BadLine(4))),
        (b"", Some(ContextsFault::NoDefault)),
        (
            b"a u:r:x\na u:r:x\na u:r:y\n",
            Some(ContextsFault::Conflict(1, 3)),
        ),
    ];
    for (text, expected) in cases {
        assert!(rt; fault(rt.alloc(), text) == expected, "at {text:?}");
    }
}

// The greatest lengths of fronts, and what those that are no longer are: a comment, then two entries, each of which has
// no context, a context whose type or range is empty, or a whole one. Only the second is the default.
const FRONTS: [(usize, Option<ContextsFault>); 9] = [
    (9, Some(ContextsFault::NoDefault)),
    (29, Some(ContextsFault::BadLine(2))),
    (45, Some(ContextsFault::NoDefault)),
    (46, Some(ContextsFault::BadLine(2))),
    (49, Some(ContextsFault::NoDefault)),
    (62, Some(ContextsFault::BadLine(3))),
    (85, None),
    (86, Some(ContextsFault::BadLine(3))),
    (89, None),
];

#[test]
fn each_front_of_a_text(rt: HostRuntime) {
    assert_eq!(rt; DEVICE_LABELS.len(), 89);
    let mut from = 0usize;
    for (to, expected) in FRONTS {
        for end in from..=to {
            let front = DEVICE_LABELS.get(..end).expect(&rt, "a front");
            assert!(rt; fault(rt.alloc(), front) == expected, "at {end}");
        }
        from = to.saturating_add(1);
    }
}

const LABELS: &[u8] = b"# labels\n\nactivity\tu:object_r:activity_service:s0\n\
    * u:object_r:default_android_service:s0\r\nactivity u:object_r:activity_service:s0\n\
    phone u:r:radio:s0:c1,c2";

const DEFAULT: &[u8] = b"u:object_r:default_android_service:s0";

/// The line and the type of a key, by its number.
fn entry_of(contexts: &Contexts, index: u32) -> (u32, &[u8]) {
    match contexts.entry(index) {
        Some((line, context)) => (line, context.type_name()),
        None => (0, b"no key"),
    }
}

/// The number of a name's key, and its label.
fn label_of<'a>(contexts: &'a Contexts, name: &[u8]) -> (u32, &'a [u8]) {
    (contexts.place(name), contexts.label(name).text())
}

fn contexts_of(rt: &impl Abort, alloc: Global, text: &[u8]) -> Contexts {
    Contexts::read(alloc, text).ok().expect(rt, "contexts")
}

fn assert_labels(rt: &impl Abort, contexts: &Contexts) {
    for (name, place, label) in [
        (
            b"activity".as_slice(),
            0,
            b"u:object_r:activity_service:s0".as_slice(),
        ),
        (b"phone", 2, b"u:r:radio:s0:c1,c2"),
        (b"*", 1, DEFAULT),
        (b"activit", 1, DEFAULT),
        (b"activity ", 1, DEFAULT),
        (b"", 1, DEFAULT),
    ] {
        assert_eq!(rt; label_of(contexts, name), (place, label));
    }
}

fn assert_entries(rt: &impl Abort, contexts: &Contexts) {
    for (index, line, label_type) in [
        (0, 3, b"activity_service".as_slice()),
        (2, 6, b"radio"),
        (3, 0, b"no key"),
    ] {
        assert_eq!(rt; entry_of(contexts, index), (line, label_type));
    }
}

#[test]
fn labels(rt: HostRuntime) {
    let contexts = contexts_of(&rt, rt.alloc(), LABELS);
    assert_labels(&rt, &contexts);
    assert_entries(&rt, &contexts);
    assert_eq!(rt; contexts.count(), 3);
}

/// The number of keys in a text with this many entry lines, or its fault.
fn keys(rt: &impl Abort, alloc: Global, count: u32) -> Result<u32, ContextsFault> {
    let mut text = Vec::new(alloc);
    let added = add_entry_lines(&mut text, count);
    added.ok().expect(rt, "memory");
    Ok(Contexts::read(alloc, &text)?.count())
}

#[test]
fn most_entries(rt: HostRuntime) {
    for (lines, wanted) in [(16_384, Ok(16_384)), (16_385, Err(ContextsFault::TooLarge))] {
        assert!(rt; keys(&rt, rt.alloc(), lines) == wanted, "at {lines}");
    }
}

#[test]
fn longest_text(rt: HostRuntime) {
    for (length, wanted) in [
        (4_194_304, ContextsFault::NoDefault),
        (4_194_305, ContextsFault::TooLarge),
    ] {
        let comment = vec![in rt.alloc(); b'#'; length];
        let comment = comment.ok().expect(&rt, "memory");
        assert!(rt; fault(rt.alloc(), &comment) == Some(wanted), "at {length}");
    }
}
