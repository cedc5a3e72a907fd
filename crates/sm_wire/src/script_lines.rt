//! The lines of a script that make changes, as they are written.

ghost use Rattle.std.specs.Prelude.{◌≡◌, ◌≤◌, ◌++◌, OnOk, codes, map, true};
ghost use Rattle.std.specs.List.{AllByRecursion, flat_map};
ghost use Rattle.hex.specs.Hex.{IsBytes};
ghost use Rattle.sm_values.specs.Messages.{name_text, numbered};
ghost use Rattle.sm_history.specs.declared.event.Event.TheVariants.{Add, Call, Unregister};
ghost use Rattle.sm_wire.specs.ScriptLines.{change_text, event_text, flag_text, hello_text, reference_text, reload_text};
ghost use Rattle.sm_wire.specs.Number.{u32_max};
ghost use Rattle.sm_wire.specs.ScriptLines.{spaced, FitsLine, FitsReference};

use crate::decimals::push_numbered;
use crate::deliveries::push_payload;
use crate::names::push_spaced_name;
use sm_history::Event;
use sm_values::{ClientId, Identity, MOST_PAYLOAD_BYTES, MOST_REFS, ObjRef, Payload};
use std::alloc::{AllocError, Global};

/// Appends `hello PID UID CONTEXT`, without a newline. On error a part may have been appended.
#[tactic(auto, unfolding(crate::specs::ScriptLines::hello_text))]
pub fn push_hello(out: &mut Vec<u8>, who: &Identity) -> Result<(), AllocError>
    ensures { OnOk result (out.new.items ≡ out.old.items ++ hello_text who.now) }
{
    push_numbered(out, b"hello ", u64::from(who.pid))?;
    push_numbered(out, b" ", u64::from(who.uid))?;
    out.extend_from_slice(b" ")?;
    out.extend_from_slice(who.context.text())
}

/// Appends `reload EXPECTED R C` for two files, without a newline. On error a part may have been appended.
#[tactic(auto, unfolding(crate::specs::ScriptLines::reload_text))]
pub fn push_reload(
    out: &mut Vec<u8>,
    expected: u64,
    rules: &[u8],
    contexts: &[u8],
) -> Result<(), AllocError>
    ensures { OnOk result (out.new.items ≡ out.old.items ++ reload_text expected rules.now contexts.now) }
{
    push_numbered(out, b"reload ", expected)?;
    push_numbered(out, b" ", rules.len() as u64)?;
    push_numbered(out, b" ", contexts.len() as u64)
}

/// Appends the line by which a client makes an event, without a newline. Only the client's number if no client makes
/// such an event. On error a part may have been appended.
#[tactic(auto, unfolding(crate::specs::ScriptLines::change_text))]
pub fn push_change(
    alloc: Global,
    out: &mut Vec<u8>,
    client: ClientId,
    event: &Event,
) -> Result<(), AllocError>
    ensures { OnOk result (out.new.items ≡ out.old.items ++ change_text client event.now) }
{
    push_numbered(out, b"", u64::from(client.0))?;
    push_event(alloc, out, event)
}

// Appends what follows the client's number.
#[tactic(auto, unfolding(crate::specs::ScriptLines::event_text))]
fn push_event(alloc: Global, out: &mut Vec<u8>, event: &Event) -> Result<(), AllocError>
    ensures { OnOk result (out.new.items ≡ out.old.items ++ event_text event.now) }
{
    match event {
        Event::Get { name } => push_named(alloc, out, b" get", name.bytes()),
        Event::Add {
            name,
            obj,
            allow_isolated,
            dump,
        } => push_add(alloc, out, name.bytes(), *obj, *allow_isolated, *dump),
        Event::Watch { name, object } => push_watch(alloc, out, b" watch", name.bytes(), *object),
        Event::Unwatch { name, object } => {
            push_watch(alloc, out, b" unwatch", name.bytes(), *object)
        }
        Event::Unregister { name, obj } => push_unregister(alloc, out, name.bytes(), *obj),
        Event::Call {
            handle,
            payload,
            refs,
        } => push_call(out, *handle, payload, refs.list()),
        Event::Release { handle } => push_numbered(out, b" release ", u64::from(*handle)),
        Event::Take => out.extend_from_slice(b" take"),
        Event::Die => out.extend_from_slice(b" bye"),
        Event::Open(_, _) => Ok(()),
        Event::Connect(_) => Ok(()),
        Event::Reload {
            expected: _,
            prepared: _,
        } => Ok(()),
    }
}

// Appends a word and a name.
#[inline(always)]
fn push_named(alloc: Global, out: &mut Vec<u8>, word: &[u8], name: &[u8]) -> Result<(), AllocError>
    ensures { OnOk result (out.new.items ≡ out.old.items ++ word.now ++ spaced (name_text name.now)) }
{
    out.extend_from_slice(word)?;
    push_spaced_name(alloc, out, name)
}

#[tactic(auto, unfolding(crate::specs::ScriptLines::event_text))]
fn push_add(
    alloc: Global,
    out: &mut Vec<u8>,
    name: &[u8],
    obj: ObjRef,
    allow: bool,
    dump: u32,
) -> Result<(), AllocError>
    ensures { OnOk result (out.new.items ≡ out.old.items ++ event_text (Add name.now obj allow dump)) }
{
    push_named(alloc, out, b" add", name)?;
    push_spaced_reference(out, obj)?;
    push_flag(out, allow)?;
    push_numbered(out, b" ", u64::from(dump))
}

// Appends a word, a name and an object of the client's own.
fn push_watch(
    alloc: Global,
    out: &mut Vec<u8>,
    word: &[u8],
    name: &[u8],
    object: u32,
) -> Result<(), AllocError>
    ensures { OnOk result (out.new.items
        ≡ out.old.items ++ word.now ++ spaced (name_text name.now) ++ spaced (numbered (codes "o") object)) }
{
    push_named(alloc, out, word, name)?;
    push_numbered(out, b" o", u64::from(object))
}

#[tactic(auto, unfolding(crate::specs::ScriptLines::event_text))]
fn push_unregister(
    alloc: Global,
    out: &mut Vec<u8>,
    name: &[u8],
    obj: ObjRef,
) -> Result<(), AllocError>
    ensures { OnOk result (out.new.items ≡ out.old.items ++ event_text (Unregister name.now obj)) }
{
    push_named(alloc, out, b" unregister", name)?;
    push_spaced_reference(out, obj)
}

#[tactic(auto, unfolding(crate::specs::ScriptLines::event_text))]
fn push_call(
    out: &mut Vec<u8>,
    handle: u32,
    payload: &Payload,
    refs: &[ObjRef],
) -> Result<(), AllocError>
    ensures { OnOk result (out.new.items ≡ out.old.items ++ event_text (Call handle payload.now refs.now)) }
{
    push_numbered(out, b" call ", u64::from(handle))?;
    out.extend_from_slice(b" ")?;
    push_payload(out, payload)?;
    push_references(out, refs)
}

#[tactic(auto, unfolding(crate::specs::ScriptLines::flag_text))]
fn push_flag(out: &mut Vec<u8>, flag: bool) -> Result<(), AllocError>
    ensures { OnOk result (out.new.items ≡ out.old.items ++ spaced (flag_text flag)) }
{
    if flag {
        out.extend_from_slice(b" 1")
    } else {
        out.extend_from_slice(b" 0")
    }
}

// Appends each reference after a space.
fn push_references(out: &mut Vec<u8>, refs: &[ObjRef]) -> Result<(), AllocError>
    ensures { OnOk result (out.new.items ≡ out.old.items ++ flat_map spaced (map reference_text refs.now)) }
{
    for reference in refs {
        push_spaced_reference(out, *reference)?;
    }
    Ok(())
}

#[tactic(auto, unfolding(crate::specs::ScriptLines::reference_text))]
fn push_spaced_reference(out: &mut Vec<u8>, reference: ObjRef) -> Result<(), AllocError>
    ensures { OnOk result (out.new.items ≡ out.old.items ++ spaced (reference_text reference)) }
{
    match reference {
        ObjRef::Own(n) => push_numbered(out, b" o", u64::from(n)),
        ObjRef::Handle(n) => push_numbered(out, b" h", u64::from(n)),
        ObjRef::Null => out.extend_from_slice(b" null"),
    }
}

/// Returns whether a client may make such an event, and the values that it is written with are in their ranges, as those
/// of each event are.
pub fn has_line(event: &Event) -> bool
    ensures { result ≡ true → FitsLine event.now }
{
    match event {
        Event::Get { name } => are_bytes(name.bytes()),
        Event::Add {
            name,
            obj,
            allow_isolated: _,
            dump,
        } => fits_add(name.bytes(), *obj, *dump),
        Event::Watch { name, object } => fits_watch(name.bytes(), *object),
        Event::Unwatch { name, object } => fits_watch(name.bytes(), *object),
        Event::Unregister { name, obj } => fits_unregister(name.bytes(), *obj),
        Event::Call {
            handle,
            payload,
            refs,
        } => fits_call(*handle, payload.bytes(), refs.list()),
        Event::Release { handle } => is_number(*handle),
        Event::Take => true,
        Event::Die => true,
        Event::Open(_, _) => false,
        Event::Connect(_) => false,
        Event::Reload {
            expected: _,
            prepared: _,
        } => false,
    }
}

fn are_bytes(_bytes: &[u8]) -> bool
    ensures { IsBytes _bytes.now }
{
    true
}

fn is_number(n: u32) -> bool
    ensures { n ≤ u32_max }
{
    u64::from(n) <= 4_294_967_295
}

fn fits_reference(reference: ObjRef) -> bool
    ensures { FitsReference reference }
{
    match reference {
        ObjRef::Own(n) => is_number(n),
        ObjRef::Handle(n) => is_number(n),
        ObjRef::Null => true,
    }
}

fn fits_add(name: &[u8], obj: ObjRef, dump: u32) -> bool
    ensures { IsBytes name.now × FitsReference obj × (dump ≤ u32_max) }
{
    are_bytes(name) && fits_reference(obj) && is_number(dump)
}

fn fits_watch(name: &[u8], object: u32) -> bool
    ensures { IsBytes name.now × (object ≤ u32_max) }
{
    are_bytes(name) && is_number(object)
}

fn fits_unregister(name: &[u8], obj: ObjRef) -> bool
    ensures { IsBytes name.now × FitsReference obj }
{
    are_bytes(name) && fits_reference(obj)
}

fn fits_call(handle: u32, payload: &[u8], refs: &[ObjRef]) -> bool
    ensures { result ≡ true → FitsLine (Call handle payload.now refs.now) }
{
    is_number(handle)
        && are_bytes(payload)
        && payload.len() <= MOST_PAYLOAD_BYTES
        && refs.len() <= MOST_REFS
        && fit_references(refs)
}

fn fit_references(refs: &[ObjRef]) -> bool
    ensures { AllByRecursion FitsReference refs.now }
{
    for reference in refs {
        fits_reference(*reference);
    }
    true
}
