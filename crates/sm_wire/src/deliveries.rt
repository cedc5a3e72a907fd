//! Deliveries in reply lines.

ghost use Rattle.std.specs.Prelude.{◌≡◌, ◌++◌, ◌≤◌, OnOk, codes, length};
ghost use Rattle.std.specs.List.{flat_map};
ghost use Rattle.sm_wire.specs.Replies.{spaced_given, payload_text, caller_text, registered_text};
ghost use Rattle.sm_wire.specs.Replies.{message_text};
ghost use Rattle.hex.specs.Hex.{encode_lower};
ghost use Rattle.sm_values.specs.declared.limits.TheConstants.{MOST_PAYLOAD_BYTES};

use crate::decimals::push_numbered;
use crate::names::push_spaced_name;
use sm_history::{Delivery, Given, Message};
use sm_values::Payload;
use std::alloc::{AllocError, Global};

/// Appends the words of a delivery.
pub fn push_delivery(
    alloc: Global,
    out: &mut Vec<u8>,
    delivery: &Delivery,
) -> Result<(), AllocError>
    ensures { OnOk result (out.new.items ≡ out.old.items ++ message_text delivery.now.object delivery.now.what) }
{
    push_message(alloc, out, delivery.object, &delivery.what)
}

#[tactic(auto, unfolding(crate::specs::Replies::message_text))]
fn push_message(
    alloc: Global,
    out: &mut Vec<u8>,
    object: u32,
    message: &Message,
) -> Result<(), AllocError>
    ensures { OnOk result (out.new.items ≡ out.old.items ++ message_text object message.now) }
{
    match message {
        Message::Called {
            pid,
            uid,
            payload,
            refs,
        } => {
            push_caller(out, object, *pid, *uid)?;
            push_payload(out, payload)?;
            push_refs(out, refs.list())
        }
        Message::Registered { name, given } => {
            push_registered(alloc, out, object, name.bytes(), *given)
        }
    }
}

#[tactic(auto, unfolding(crate::specs::Replies::registered_text))]
fn push_registered(
    alloc: Global,
    out: &mut Vec<u8>,
    object: u32,
    name: &[u8],
    given: Given,
) -> Result<(), AllocError>
    ensures { OnOk result (out.new.items ≡ out.old.items ++ registered_text object name.now given) }
{
    push_numbered(out, b"registered o", u64::from(object))?;
    push_spaced_name(alloc, out, name)?;
    push_spaced_given(out, given)
}

#[tactic(auto, unfolding(crate::specs::Replies::caller_text))]
fn push_caller(out: &mut Vec<u8>, object: u32, pid: u32, uid: u32) -> Result<(), AllocError>
    ensures { OnOk result (out.new.items ≡ out.old.items ++ caller_text object pid uid) }
{
    push_numbered(out, b"call o", u64::from(object))?;
    push_numbered(out, b" ", u64::from(pid))?;
    push_numbered(out, b" ", u64::from(uid))?;
    out.push(b' ')?;
    Ok(())
}

#[tactic(auto, unfolding(crate::specs::Replies::payload_text))]
pub fn push_payload(out: &mut Vec<u8>, payload: &Payload) -> Result<(), AllocError>
    ensures { OnOk result (out.new.items ≡ out.old.items ++ payload_text payload.now) }
{
    match payload.bytes() {
        [] => out.extend_from_slice(b"-"),
        bytes => push_hex(out, bytes),
    }
}

// Appends two hexadecimal digits for each byte, which are written where they stay.
fn push_hex(out: &mut Vec<u8>, bytes: &[u8]) -> Result<(), AllocError>
    requires { length bytes.now ≤ MOST_PAYLOAD_BYTES }
    ensures { OnOk result (out.new.items ≡ out.old.items ++ encode_lower bytes.now) }
{
    let front = out.len();
    out.resize(front + 2 * bytes.len(), 0)?;
    hex::encode_to_slice(bytes, &mut out[front..]).unwrap();
    Ok(())
}

// Appends each reference after a space.
fn push_refs(out: &mut Vec<u8>, refs: &[Given]) -> Result<(), AllocError>
    ensures { OnOk result (out.new.items ≡ out.old.items ++ flat_map spaced_given refs.now) }
{
    for given in refs {
        push_spaced_given(out, *given)?;
    }
    Ok(())
}

#[tactic(auto, unfolding(crate::specs::Replies::given_text))]
fn push_spaced_given(out: &mut Vec<u8>, given: Given) -> Result<(), AllocError>
    ensures { OnOk result (out.new.items ≡ out.old.items ++ spaced_given given) }
{
    match given {
        Given::Handle(n) => push_numbered(out, b" h", u64::from(n)),
        Given::Own(n) => push_numbered(out, b" o", u64::from(n)),
        Given::Null => out.extend_from_slice(b" null"),
    }
}
