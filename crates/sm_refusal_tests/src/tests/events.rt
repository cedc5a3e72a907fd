//! Each event at a manager.

use super::manager::{ADMIN, Call, SERVER, makes_all, prepared, process};
use sm_history::{By, Event};
use sm_samples::stricter_rules;
use sm_values::{ClientId, Name, ObjRef, Payload, Refs};
use std::alloc::Global;
use std::process::Abort;

const APPLICATION: By = By::Client(ClientId(2));

/// An event.
#[derive(Clone, Copy)]
pub enum Step {
    ConnectsServer,
    ConnectsApplication,
    Adds,
    Gets,
    Watches,
    Unwatches,
    Unregisters,
    Calls,
    Releases,
    Takes,
    Dies,
    Reloads,
}

fn name(alloc: Global) -> Option<Name> {
    Name::new(alloc, b"activity").ok()
}

/// `activity`, an object of the client's own.
pub fn activity(alloc: Global) -> Option<Event> {
    Some(Event::Add {
        name: name(alloc)?,
        obj: ObjRef::Own(1),
        allow_isolated: false,
        dump: 8,
    })
}

fn connects(alloc: Global, context: &[u8]) -> Option<Event> {
    Some(Event::Connect(process(alloc, context)?))
}

/// A call with two references to one object.
fn call(alloc: Global) -> Option<Event> {
    let payload = Payload::from_vec(Vec::from_slice(alloc, b"\x00").ok()?).ok()?;
    let refs = Vec::from_slice(alloc, &[ObjRef::Own(5), ObjRef::Own(5)]).ok()?;
    let refs = Refs::from_vec(alloc, refs).ok()?;
    Some(Event::Call {
        handle: 1,
        payload,
        refs,
    })
}

fn reload(rt: &impl Abort, alloc: Global) -> Option<Event> {
    let rules = stricter_rules(alloc).ok()?;
    Some(Event::Reload {
        expected: 1,
        prepared: prepared(rt, alloc, &rules)?,
    })
}

/// The event of a step. `None` if an allocation failed.
pub fn event_of(rt: &impl Abort, alloc: Global, step: Step) -> Option<Event> {
    match step {
        Step::ConnectsServer => connects(alloc, b"u:r:system_server:s0"),
        Step::ConnectsApplication => connects(alloc, b"u:r:untrusted_app:s0"),
        Step::Adds => activity(alloc),
        Step::Gets => Some(Event::Get { name: name(alloc)? }),
        Step::Watches => Some(Event::Watch {
            name: name(alloc)?,
            object: 3,
        }),
        Step::Unwatches => Some(Event::Unwatch {
            name: name(alloc)?,
            object: 3,
        }),
        Step::Unregisters => Some(Event::Unregister {
            name: name(alloc)?,
            obj: ObjRef::Own(1),
        }),
        Step::Calls => call(alloc),
        Step::Releases => Some(Event::Release { handle: 1 }),
        Step::Takes => Some(Event::Take),
        Step::Dies => Some(Event::Die),
        Step::Reloads => reload(rt, alloc),
    }
}

/// Changes that are all done: each event but the opening. The application calls with two references to one object, so
/// the server is granted its handle twice, and releases one. After the reload the application may not find the name that
/// it watches, so the second add leaves a record.
const CALLS: [Call; 18] = [
    Call::Changes(By::Manager, Step::ConnectsServer),
    Call::Changes(SERVER, Step::Watches),
    Call::Changes(SERVER, Step::Adds),
    Call::Changes(SERVER, Step::Takes),
    Call::Changes(By::Manager, Step::ConnectsApplication),
    Call::Changes(APPLICATION, Step::Gets),
    Call::Changes(APPLICATION, Step::Calls),
    Call::Changes(SERVER, Step::Takes),
    Call::Changes(SERVER, Step::Releases),
    Call::Changes(SERVER, Step::Unwatches),
    Call::Changes(APPLICATION, Step::Watches),
    Call::Changes(APPLICATION, Step::Releases),
    Call::Changes(APPLICATION, Step::Releases),
    Call::Changes(ADMIN, Step::Reloads),
    Call::Changes(SERVER, Step::Adds),
    Call::HasRecords(1),
    Call::Changes(SERVER, Step::Unregisters),
    Call::Changes(APPLICATION, Step::Dies),
];

#[test]
fn each_event_is_done(rt: HostRuntime) {
    makes_all(&rt, rt.alloc(), &CALLS);
}
