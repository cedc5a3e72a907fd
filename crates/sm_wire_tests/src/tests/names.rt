//! Lists of names in replies.

use sm_history::{Answer, NameList, Reply, Shared};
use sm_wire::*;
use std::alloc::{AllocError, Global};
use std::test::*;

fn list_of(alloc: Global, names: &[&[u8]]) -> Result<NameList, AllocError> {
    let mut list = NameList::with_capacity(alloc, names.len())?;
    for name in names {
        list.push(*name)?;
    }
    Ok(list)
}

/// The line of a reply with these names.
fn line_of(alloc: Global, list: NameList) -> Result<Vec<u8>, AllocError> {
    let reply = Reply::Looked {
        version: 1,
        length: 2,
        answer: Answer::Names(Shared::new(alloc, list)?),
    };
    let mut line = Vec::new(alloc);
    push_reply(alloc, &mut line, Telling::Whole, &reply)?;
    Ok(line)
}

/// Names, whether all are valid names of services, and the line of a reply with them.
const LISTS: &[(&[&[u8]], bool, &[u8])] = &[
    (&[], true, b"names 1 2 0\n"),
    (&[b"-/.09", b"AZ_az"], true, b"names 1 2 2 -/.09 AZ_az\n"),
    (&[b"a", b"b", b"c d"], false, b"names 1 2 3 a b %632064\n"),
    (&[b"a\x00", b"b"], false, b"names 1 2 2 %6100 b\n"),
    (&[b"", b"a"], false, b"names 1 2 2 % a\n"),
];

#[test]
fn only_invalid_names_are_written_as_digits(rt: HostRuntime) {
    let alloc = rt.alloc();
    for (names, valid, wanted) in LISTS {
        let list = list_of(alloc, *names).ok().expect(&rt, "memory");
        let is_plain = list.plain_text().is_some();
        let line = line_of(alloc, list).ok().expect(&rt, "memory");
        assert_eq!(rt; (is_plain, line.as_slice()), (*valid, *wanted));
    }
}

#[test]
fn a_name_that_is_too_long_is_written_as_digits(rt: HostRuntime) {
    let alloc = rt.alloc();
    let long = [b'a'; 128];
    // `names 1 2 1 `, the name or `%` and its digits, and the newline.
    for (len, wanted) in [(127, 12 + 127 + 1), (128, 12 + 257 + 1)] {
        let list = list_of(alloc, &[&long[..len]]).ok().expect(&rt, "memory");
        let is_plain = list.plain_text().is_some();
        let line = line_of(alloc, list).ok().expect(&rt, "memory");
        assert_eq!(rt; (len, is_plain, line.len()), (len, len <= 127, wanted));
    }
}
