//! Views of a manager: each is shown before its change is made, and stays as it is.
ghost use Rattle.std.specs.Prelude.{◌≡◌};

use super::acts::{ADMIN, Act, SERVER, Seen, event, opened, seen_of};
use sm_core::{Manager, View};
use sm_history::{By, Query};
use sm_values::ClientId;
use std::alloc::Global;
use std::process::Abort;

/// A system server connects.
const A_CONNECTION: (By, Act) = (By::Manager, Act::ConnectServer);

/// Builds the view with an actor's next change, and then makes the change, which has to succeed.
fn shown(
    rt: &impl Abort,
    alloc: Global,
    manager: &mut Manager,
    last: &View,
    change: (By, Act),
) -> View
    requires { last.now ≡ manager.old.book }
    ensures { result ≡ manager.new.book }
{
    let (by, act) = change;
    let turn = manager.turn(by);
    let Ok(ready) = manager.ready(by, turn, event(rt, alloc, act)) else {
        panic!(rt; "an event that isn't done");
    };
    let Ok(view) = manager.view_after(&ready, last) else {
        panic!(rt; "no memory for a view");
    };
    let _ = manager.commit(ready);
    view
}

/// What a client's list in a view shows.
fn lists(rt: &impl Abort, view: &View, client: u32, wanted: Seen) {
    let reply = view.look(By::Client(ClientId(client)), Query::List(15));
    assert!(rt; seen_of(&reply) == wanted);
}

/// What the administrator sees of the version in a view.
fn has_version(rt: &impl Abort, view: &View, wanted: Seen) {
    let reply = view.look(ADMIN, Query::Version);
    assert!(rt; seen_of(&reply) == wanted);
}

/// The view of a manager that was just opened.
fn opening(rt: &impl Abort, manager: &Manager) -> View
    ensures { result ≡ manager.now.book }
{
    let Ok(view) = manager.view() else {
        panic!(rt; "no memory for a view");
    };
    view
}

// Two connect, the first adds a name twice: the other one's views list it, and the earlier ones stay as they were.
#[test]
fn a_name_is_listed_from_its_change_on(rt: HostRuntime) {
    let alloc = rt.alloc();
    let mut manager = opened(&rt, alloc, 1000);
    let opening = opening(&rt, &manager);
    let one = shown(&rt, alloc, &mut manager, &opening, A_CONNECTION);
    let two = shown(&rt, alloc, &mut manager, &one, A_CONNECTION);
    let added = shown(&rt, alloc, &mut manager, &two, (SERVER, Act::Add));
    let again = shown(&rt, alloc, &mut manager, &added, (SERVER, Act::Add));
    lists(&rt, &opening, 2, Seen::NotConnected);
    lists(&rt, &two, 2, Seen::Names(1, 3, 0));
    lists(&rt, &added, 2, Seen::Names(1, 4, 1));
    lists(&rt, &again, 2, Seen::Names(1, 5, 1));
    assert!(rt; again.turn(SERVER) == 2 && two.turn(SERVER) == 0);
}

// The names of a client that dies go, and it isn't there any more.
#[test]
fn a_death_takes_its_names(rt: HostRuntime) {
    let alloc = rt.alloc();
    let mut manager = opened(&rt, alloc, 1000);
    let opening = opening(&rt, &manager);
    let one = shown(&rt, alloc, &mut manager, &opening, A_CONNECTION);
    let added = shown(&rt, alloc, &mut manager, &one, (SERVER, Act::Add));
    let dead = shown(&rt, alloc, &mut manager, &added, (SERVER, Act::Die));
    lists(&rt, &added, 1, Seen::Names(1, 3, 1));
    lists(&rt, &dead, 1, Seen::NotConnected);
    let two = shown(&rt, alloc, &mut manager, &dead, A_CONNECTION);
    lists(&rt, &two, 2, Seen::Names(1, 5, 0));
    assert!(rt; two.turn(SERVER) == 2);
}

// A view of the policy before a reload answers by it.
#[test]
fn a_reload_is_seen_from_its_change_on(rt: HostRuntime) {
    let alloc = rt.alloc();
    let mut manager = opened(&rt, alloc, 1000);
    let opening = opening(&rt, &manager);
    let reloaded = shown(&rt, alloc, &mut manager, &opening, (ADMIN, Act::Reload(1)));
    has_version(&rt, &opening, Seen::Version(1, 1));
    has_version(&rt, &reloaded, Seen::Version(2, 2));
}
