//! Numbers, names, contexts and permissions: values from their formats and limits.

use sm_values::{
    Class, Context, ContextError, Name, ObjRef, Payload, PayloadError, Perms, Places, Refs,
    RefsError, app_number, is_barred_app, is_isolated, push_access, push_numbered, valid_name,
};
use std::alloc::Global;
use std::process::Abort;

#[test]
fn contexts_have_three_parts_and_perhaps_a_range(rt: HostRuntime) {
    for (text, type_name) in [
        (
            b"u:r:untrusted_app:s0:c1,c2".as_slice(),
            b"untrusted_app".as_slice(),
        ),
        (b"u:r:t", b"t"),
    ] {
        let whole = Context::read(rt.alloc(), text);
        let whole = whole.ok().expect(&rt, "a context");
        let copy = whole.clone().ok().expect(&rt, "a copy");
        assert_eq!(rt; (copy.text(), copy.type_name()), (text, type_name));
    }
}

#[test]
fn what_is_no_context(rt: HostRuntime) {
    let bad: [&[u8]; 7] = [
        b"u:r", b"u:r:", b"u:r:t:", b":r:t", b"u::t", b"", b"u:r:a b",
    ];
    for text in bad {
        let fault = Context::read(rt.alloc(), text).err();
        assert!(rt; fault == Some(ContextError::BadContext), "at {text:?}");
    }
}

#[test]
fn names_have_1_to_127_bytes(rt: HostRuntime) {
    let long = [b'a'; 128];
    for (name, valid) in [
        (&long[..127], true),
        (long.as_slice(), false),
        (b"a-Z_0.9/x", true),
        (b"", false),
        (b"a b", false),
    ] {
        assert_eq!(rt; (name, valid_name(name)), (name, valid));
    }
}

#[test]
fn user_numbers_divide_at_10000_and_90000(rt: HostRuntime) {
    assert_eq!(rt; app_number(1_010_007), 10_007);
    for (uid, barred, isolated) in [
        (1_000, false, false),
        (9_999, false, false),
        (10_000, true, false),
        (89_999, true, false),
        (90_000, true, true),
        (99_999, true, true),
        (109_999, false, false),
    ] {
        assert_eq!(rt;
            (uid, is_barred_app(uid), is_isolated(uid)),
            (uid, barred, isolated)
        );
    }
}

#[test]
fn classes_have_words(rt: HostRuntime) {
    for (word, class) in [
        (b"binder".as_slice(), Some(Class::Binder)),
        (b"service_manager", Some(Class::ServiceManager)),
        (b"file", None),
    ] {
        assert!(rt; Class::read(word) == class);
    }
}

#[test]
fn permissions_are_bits_of_their_class(rt: HostRuntime) {
    for (class, word, perms) in [
        (Class::ServiceManager, b"list".as_slice(), Some(Perms(4))),
        (Class::Binder, b"transfer", Some(Perms(64))),
        (Class::Binder, b"find", None),
    ] {
        assert!(rt; Perms::read(class, word) == perms);
    }
    for (perms, word) in [
        (Perms::SET_CONTEXT_MGR, Some(b"set_context_mgr".as_slice())),
        (Perms(3), None),
    ] {
        assert_eq!(rt; perms.word(), word);
    }
}

#[test]
fn a_journal_has_2_to_1048576_places(rt: HostRuntime) {
    for (entries, places) in [
        (1, None),
        (2, Some(2)),
        (1_048_576, Some(1_048_576)),
        (1_048_577, None),
    ] {
        assert_eq!(rt; places_of(entries), places);
    }
}

fn places_of(entries: u32) -> Option<u32> {
    Some(Places::new(entries)?.entries())
}

/// A list of a copy of some values.
fn list<T: Copy>(rt: &impl Abort, alloc: Global, values: &[T]) -> Vec<T> {
    Vec::from_slice(alloc, values).ok().expect(rt, "memory")
}

#[test]
fn a_payload_has_1024_bytes_at_most(rt: HostRuntime) {
    let long = [7u8; 1_025];
    for bytes in [b"data".as_slice(), &long[..1_024]] {
        let payload = Payload::from_vec(list(&rt, rt.alloc(), bytes));
        let payload = payload.ok().expect(&rt, "a payload");
        let copy = payload.clone().ok().expect(&rt, "a copy");
        assert_eq!(rt; copy.bytes(), bytes);
    }
    let fault = Payload::from_vec(list(&rt, rt.alloc(), &long)).err();
    assert!(rt; fault == Some(PayloadError::TooLong));
}

#[test]
fn a_call_has_16_references_at_most(rt: HostRuntime) {
    let refs = [ObjRef::Own(1); 17];
    let kept = Refs::from_vec(rt.alloc(), list(&rt, rt.alloc(), &refs[..16]));
    assert_eq!(rt; kept.ok().expect(&rt, "references").list().len(), 16);
    let fault = Refs::from_vec(rt.alloc(), list(&rt, rt.alloc(), &refs)).err();
    assert!(rt; fault == Some(RefsError::TooMany));
}

#[test]
fn messages_name_numbers(rt: HostRuntime) {
    let mut text = list(&rt, rt.alloc(), b"failed ");
    let added = push_numbered(&mut text, b"out-of-turn ", 18_446_744_073_709_551_615);
    added.ok().expect(&rt, "memory");
    assert_eq!(rt;
        text.as_slice(),
        b"failed out-of-turn 18446744073709551615".as_slice()
    );
}

#[test]
fn messages_name_accesses(rt: HostRuntime) {
    for (front, source, target, class, perm, wanted) in [
        (
            b"denied ".as_slice(),
            b"system_server".as_slice(),
            b"servicemanager".as_slice(),
            Class::Binder,
            Perms::CALL,
            b"denied system_server servicemanager binder call".as_slice(),
        ),
        (
            b"",
            b"a",
            b"b",
            Class::ServiceManager,
            Perms(3),
            b"a b service_manager ",
        ),
    ] {
        let mut text = list(&rt, rt.alloc(), front);
        let added = push_access(&mut text, source, target, class, perm);
        added.ok().expect(&rt, "memory");
        assert_eq!(rt; text.as_slice(), wanted);
    }
}
