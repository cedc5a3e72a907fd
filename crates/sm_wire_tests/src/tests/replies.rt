//! The answers to lines, and the files after a `reload` line.

use sm_history::{Denial, Outcome, Record, Reply};
use sm_policy::{PolicyFault, Violation};
use sm_values::{Class, ClientId, Context, Identity, Name, Perms};
use sm_wire::*;
use std::alloc::Global;
use std::test::*;

fn context(alloc: Global, text: &[u8]) -> Result<Context, Fail> {
    Ok(Context::read(alloc, text).ok().ok_or("a context")?)
}

/// What is kept of an application that may not do something, at length 6 and version 1.
fn barred(
    alloc: Global,
    denial: Denial,
    target: Option<Context>,
    name: &[u8],
) -> Result<Record, Fail> {
    let context = context(alloc, b"u:r:untrusted_app:s0")?;
    let name = Some(Name::new(alloc, name)?);
    Ok(Record {
        length: 6,
        version: 1,
        denial,
        permissive: false,
        who: Identity {
            pid: 200,
            uid: 10007,
            context,
        },
        target,
        name,
    })
}

/// That `find` is missing for a name.
fn find_missing(alloc: Global, name: &[u8]) -> Result<Record, Fail> {
    let target = context(alloc, b"u:object_r:default_android_service:s0")?;
    let denial = Denial::Rule {
        source: Name::new(alloc, b"untrusted_app")?,
        target: Name::new(alloc, b"default_android_service")?,
        class: Class::ServiceManager,
        perm: Perms::FIND,
    };
    barred(alloc, denial, Some(target), name)
}

const TWO_DENIALS: &[u8] =
    b"null\ndenials 2\njournal=6 version=1 clause: denied app for pid=200 uid=10007 name=activity scontext=u:r:untrusted_app:s0\njournal=6 version=1 avc: denied { find } for pid=200 uid=10007 name=foo scontext=u:r:untrusted_app:s0 tcontext=u:object_r:default_android_service:s0 tclass=service_manager permissive=0\n";

#[test]
fn denials_are_counted_and_come_in_their_order(rt: HostRuntime) -> Result<(), Fail> {
    let alloc = rt.alloc();
    let mut records = Vec::new(alloc);
    records.push(barred(alloc, Denial::App(10007), None, b"activity")?)?;
    records.push(find_missing(alloc, b"foo")?)?;
    let mut out = Vec::from_slice(alloc, b"null\n")?;
    push_denials(alloc, &mut out, &records)?;
    assert_eq!(rt; out.as_slice(), TWO_DENIALS);
    Ok(())
}

#[test]
fn a_refused_policy_says_why(rt: HostRuntime) -> Result<(), Fail> {
    let alloc = rt.alloc();
    let fault = PolicyFault::Neverallow(Violation {
        never_line: 16,
        allow_line: 17,
        source: Name::new(alloc, b"untrusted_app")?,
        target: Name::new(alloc, b"activity_service")?,
        class: Class::ServiceManager,
        perm: Perms::ADD,
    });
    let mut out = Vec::from_slice(alloc, b"ok\n")?;
    push_policy_refused(alloc, &mut out, &fault)?;
    assert_eq!(rt;
        out.as_slice(),
        b"ok\nrefused neverallow at line 16 by allow at line 17: untrusted_app activity_service service_manager add\n".as_slice()
    );
    Ok(())
}

#[test]
fn a_reply_goes_behind_what_is_there(rt: HostRuntime) -> Result<(), Fail> {
    let alloc = rt.alloc();
    let reply = Reply::Done(Outcome::Connected(ClientId(1)));
    let mut out = Vec::from_slice(alloc, b"ok\n")?;
    push_reply(alloc, &mut out, Telling::Whole, &reply)?;
    assert_eq!(rt; out.as_slice(), b"ok\nclient 1\n".as_slice());
    Ok(())
}
