//! Notices to watchers in the outcomes of an Add and a Watch.

use super::acts::{ADMIN, APPLICATION, Act, Became, SERVER, Seen, event, opened, seen_of, steps};
use sm_core::Manager;
use sm_history::{By, Effect};
use std::alloc::Global;
use std::process::Abort;

/// Makes an actor's next change. Returns its notices, and the number of its audit records.
fn noted(rt: &impl Abort, alloc: Global, manager: &mut Manager, by: By, act: Act) -> (Seen, usize) {
    let turn = manager.turn(by);
    let (reply, records) = manager.step(by, turn, event(rt, alloc, act));
    (seen_of(&reply), records.len())
}

const TWO_CLIENTS: &[(By, Act, Seen)] = &[
    (By::Manager, Act::ConnectServer, Seen::Connected(1)),
    (By::Manager, Act::ConnectApplication, Seen::Connected(2)),
    (SERVER, Act::Add, Seen::Unheard),
];

const A_WATCHER: &[(By, Act, Seen)] = &[
    (APPLICATION, Act::Watch(7), Seen::Heard(2, 7, Became::Told)),
    (SERVER, Act::Add, Seen::Heard(2, 7, Became::Told)),
    (ADMIN, Act::ReloadStricter(1), Seen::Reloaded(2)),
    (SERVER, Act::Add, Seen::Heard(2, 7, Became::Denied)),
];

// Under the second policy an application may not find `activity` any more. The denied notice is recorded.
#[test]
fn a_watcher_is_told_of_what_it_may_find(rt: HostRuntime) {
    let alloc = rt.alloc();
    let mut manager = opened(&rt, alloc, 1000);
    steps(&rt, alloc, &mut manager, TWO_CLIENTS);
    steps(&rt, alloc, &mut manager, A_WATCHER);
    let noted = noted(&rt, alloc, &mut manager, SERVER, Act::Add);
    assert!(rt; noted == (Seen::Heard(2, 7, Became::Denied), 1));
}

const A_GET: &[(By, Act, Seen)] = &[(APPLICATION, Act::Get, Seen::Done)];

const A_CALL: &[(By, Act, Seen)] = &[(APPLICATION, Act::Call, Seen::Done)];

const FULL: Seen = Seen::Heard(1, 7, Became::TargetFull);

const A_FULL_WATCHER: &[(By, Act, Seen)] = &[(SERVER, Act::Watch(7), FULL)];

/// The client to whom an actor's next change would deliver something, or 0. The change isn't made.
fn receiver(rt: &impl Abort, alloc: Global, manager: &mut Manager, by: By, act: Act) -> u32 {
    let turn = manager.turn(by);
    let Ok(ready) = manager.ready(by, turn, event(rt, alloc, act)) else {
        panic!(rt; "an event that isn't done");
    };
    let mut receiver = 0;
    for effect in manager.drafted() {
        if let Effect::Delivers {
            client,
            delivery: _,
        } = effect
        {
            receiver = *client;
        }
    }
    manager.cancel(ready);
    receiver
}

#[test]
fn a_drafted_change_tells_its_receiver(rt: HostRuntime) {
    let alloc = rt.alloc();
    let mut manager = opened(&rt, alloc, 1000);
    steps(&rt, alloc, &mut manager, TWO_CLIENTS);
    steps(&rt, alloc, &mut manager, A_GET);
    assert!(rt; receiver(&rt, alloc, &mut manager, APPLICATION, Act::Call) == 1);
    assert!(rt; receiver(&rt, alloc, &mut manager, APPLICATION, Act::Get) == 0);
    assert!(rt; receiver(&rt, alloc, &mut manager, APPLICATION, Act::Watch(7)) == 2);
    assert!(rt; manager.turn(APPLICATION) == 1);
}

// The server's inbox has 256 calls when it watches the name of its own service. A full inbox is no denial, so it is
// not recorded.
#[test]
fn a_watcher_whose_inbox_is_full(rt: HostRuntime) {
    let alloc = rt.alloc();
    let mut manager = opened(&rt, alloc, 1000);
    steps(&rt, alloc, &mut manager, TWO_CLIENTS);
    steps(&rt, alloc, &mut manager, A_GET);
    for _ in 0..256 {
        steps(&rt, alloc, &mut manager, A_CALL);
    }
    steps(&rt, alloc, &mut manager, A_FULL_WATCHER);
    let noted = noted(&rt, alloc, &mut manager, SERVER, Act::Watch(7));
    assert!(rt; noted == (FULL, 0));
}
