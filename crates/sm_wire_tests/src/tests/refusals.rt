//! The text of a refusal is its reply line.

use sm_history::{Denial, Exception, Failure, Refusal, Reply, Shared};
use sm_values::{Class, Name, Perms};
use sm_wire::{Telling, reply_line};
use std::alloc::{AllocError, Global};
use std::process::Abort;
use std::test::Fail;

const EXCEPTIONS: [Exception; 10] = [
    Exception::NotAdder,
    Exception::InvalidName,
    Exception::NullService,
    Exception::NullBinder,
    Exception::DeadOwner,
    Exception::TableFull,
    Exception::NothingToUnregister,
    Exception::NotRegistered,
    Exception::OtherObject,
    Exception::InUse,
];

const FAILURES: [Failure; 5] = [
    Failure::NotYours,
    Failure::NotConnected,
    Failure::OutOfTurn(7),
    Failure::BadHandle,
    Failure::TargetFull,
];

fn denied(alloc: Global, denial: Denial) -> Result<Refusal, AllocError> {
    Ok(Refusal::Denied(Shared::new(alloc, denial)?))
}

fn denial(alloc: Global, class: Class, perm: Perms) -> Result<Refusal, AllocError> {
    let missing = Denial::Rule {
        source: Name::new(alloc, b"untrusted_app")?,
        target: Name::new(alloc, b"system_server")?,
        class,
        perm,
    };
    denied(alloc, missing)
}

// Asserts that a refusal's text is its reply line without the newline.
fn prints_its_line(rt: &impl Abort, alloc: Global, refusal: Refusal) -> Result<(), AllocError> {
    let text = format!(in alloc; "{refusal}\n")?;
    let line = reply_line(alloc, Telling::Whole, &Reply::Refused(refusal))?;
    assert_eq!(rt; text.as_bytes(), line.as_slice());
    Ok(())
}

#[test]
fn the_text_of_a_refusal_is_its_line(rt: HostRuntime) -> Result<(), Fail> {
    let alloc = rt.alloc();
    for exception in EXCEPTIONS {
        prints_its_line(&rt, alloc, Refusal::Exception(exception))?;
    }
    for failure in FAILURES {
        prints_its_line(&rt, alloc, Refusal::Failed(failure))?;
    }
    prints_its_line(&rt, alloc, Refusal::Dead)?;
    prints_its_line(&rt, alloc, Refusal::Empty)?;
    prints_its_line(&rt, alloc, Refusal::TooManyClients)?;
    prints_its_line(&rt, alloc, Refusal::VersionMoved(8))?;
    prints_its_line(&rt, alloc, Refusal::JournalFull)?;
    prints_its_line(&rt, alloc, Refusal::Memory)?;
    prints_its_line(&rt, alloc, Refusal::NoSeat)?;
    Ok(())
}

#[test]
fn the_text_of_a_denial_is_its_line(rt: HostRuntime) -> Result<(), Fail> {
    let alloc = rt.alloc();
    prints_its_line(&rt, alloc, denied(alloc, Denial::App(10007))?)?;
    prints_its_line(&rt, alloc, denied(alloc, Denial::Isolated(99001))?)?;
    for perm in [Perms::ADD, Perms::FIND, Perms::LIST] {
        prints_its_line(&rt, alloc, denial(alloc, Class::ServiceManager, perm)?)?;
    }
    for perm in [
        Perms::IMPERSONATE,
        Perms::CALL,
        Perms::SET_CONTEXT_MGR,
        Perms::TRANSFER,
    ] {
        prints_its_line(&rt, alloc, denial(alloc, Class::Binder, perm)?)?;
    }
    Ok(())
}
