//! Refusals in reply lines.

ghost use Rattle.std.specs.Prelude.{◌≡◌, ◌++◌, OnOk, codes};
ghost use Rattle.sm_wire.specs.Replies.{exception_text, failure_text, denied_by, rule_text, denial_text, refusal_text};

use sm_history::{Denial, Exception, Failure, Refusal};
use sm_values::{Class, Perms, push_access, push_numbered};
use std::alloc::AllocError;

/// Appends the words of a refusal.
#[tactic(auto, unfolding(crate::specs::Replies::refusal_text))]
pub fn push_refusal(out: &mut Vec<u8>, refusal: &Refusal) -> Result<(), AllocError>
    ensures { OnOk result (out.new.items ≡ out.old.items ++ refusal_text refusal.now) }
{
    match refusal {
        Refusal::Denied(denial) => push_denial(out, denial.get()),
        Refusal::Exception(exception) => out.extend_from_slice(exception_words(*exception)),
        Refusal::Failed(failure) => push_failure(out, *failure),
        Refusal::Dead => out.extend_from_slice(b"dead"),
        Refusal::Empty => out.extend_from_slice(b"empty"),
        Refusal::TooManyClients => out.extend_from_slice(b"failed too-many-clients"),
        Refusal::VersionMoved(now) => push_numbered(out, b"moved ", *now),
        Refusal::JournalFull => out.extend_from_slice(b"failed journal-full"),
        Refusal::Memory => out.extend_from_slice(b"failed memory"),
        Refusal::NoSeat => out.extend_from_slice(b"failed no-seat"),
    }
}

#[tactic(auto, unfolding(crate::specs::Replies::denial_text))]
fn push_denial(out: &mut Vec<u8>, denial: &Denial) -> Result<(), AllocError>
    ensures { OnOk result (out.new.items ≡ out.old.items ++ denial_text denial.now) }
{
    match denial {
        Denial::Rule {
            source,
            target,
            class,
            perm,
        } => push_rule(out, source.bytes(), target.bytes(), *class, *perm),
        Denial::App(uid) => push_numbered(out, b"exception -1 app ", u64::from(*uid)),
        Denial::Isolated(uid) => push_numbered(out, b"exception -1 isolated ", u64::from(*uid)),
    }
}

// Appends the missing rule.
#[tactic(auto, unfolding(crate::specs::Replies::rule_text))]
fn push_rule(
    out: &mut Vec<u8>,
    source: &[u8],
    target: &[u8],
    class: Class,
    perm: Perms,
) -> Result<(), AllocError>
    ensures { OnOk result (out.new.items ≡ out.old.items ++ rule_text source.now target.now class perm) }
{
    out.extend_from_slice(denied_by(class))?;
    push_access(out, source, target, class, perm)
}

fn denied_by(class: Class) -> &'static [u8]
    ensures { result.now ≡ denied_by class }
{
    match class {
        Class::ServiceManager => b"exception -1 denied ",
        Class::Binder => b"failed denied ",
    }
}

// Binder's exception codes: EX_SECURITY -1, EX_ILLEGAL_ARGUMENT -3, EX_NULL_POINTER -4, EX_ILLEGAL_STATE -5.
fn exception_words(exception: Exception) -> &'static [u8]
    ensures { result.now ≡ exception_text exception }
{
    match exception {
        Exception::NotAdder => b"exception -1 not-adder",
        Exception::InvalidName => b"exception -3 invalid-name",
        Exception::NullService => b"exception -3 null-binder",
        Exception::NullBinder => b"exception -4 null-binder",
        Exception::DeadOwner => b"exception -5 dead-owner",
        Exception::TableFull => b"exception -5 table-full",
        Exception::NothingToUnregister => b"exception -5 nothing-to-unregister",
        Exception::NotRegistered => b"exception -5 not-registered",
        Exception::OtherObject => b"exception -5 other-object",
        Exception::InUse => b"exception -5 in-use",
    }
}

#[tactic(auto, unfolding(crate::specs::Replies::failure_text))]
fn push_failure(out: &mut Vec<u8>, failure: Failure) -> Result<(), AllocError>
    ensures { OnOk result (out.new.items ≡ out.old.items ++ failure_text failure) }
{
    match failure {
        Failure::NotYours => out.extend_from_slice(b"failed not-yours"),
        Failure::NotConnected => out.extend_from_slice(b"failed not-connected"),
        Failure::OutOfTurn(have) => push_numbered(out, b"failed out-of-turn ", have),
        Failure::BadHandle => out.extend_from_slice(b"failed bad-handle"),
        Failure::TargetFull => out.extend_from_slice(b"failed target-full"),
    }
}
