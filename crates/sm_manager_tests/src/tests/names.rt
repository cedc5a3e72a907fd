//! The table of services and watches.

use sm_history::{MOST_WATCHES, Service, Watch, WatchPair};
use sm_names::NameTable;
use sm_values::{ClientId, Name, Node, push_numbered};
use std::alloc::{AllocError, Global};
use std::process::Abort;
use std::test::*;

fn service(owner: u32, object: u32, dump: u32) -> Service {
    Service {
        node: Node {
            owner: ClientId(owner),
            object,
        },
        adder: owner,
        allow_isolated: false,
        dump,
    }
}

/// Puts a service as the manager does.
fn add(rt: &impl Abort, names: &mut NameTable, alloc: Global, name: &[u8], service: Service) {
    let name = Name::new(alloc, name).ok().expect(rt, "a name");
    names.reserve(1).ok().expect(rt, "memory");
    if names.is_ready() {
        names.put(name, service);
    }
}

fn watch_of(rt: &impl Abort, alloc: Global, client: u32, name: &[u8], object: u32) -> WatchPair {
    let name = Name::new(alloc, name).ok().expect(rt, "a name");
    let pair = WatchPair::new(client, &name, object);
    pair.ok().expect(rt, "memory")
}

/// Watches a name as the manager does, if there aren't too many watches.
fn watch(rt: &impl Abort, names: &mut NameTable, watch: WatchPair) {
    names.reserve(1).ok().expect(rt, "memory");
    if names.is_ready() && names.watches() < MOST_WATCHES {
        names.watch(watch);
    }
}

/// The names whose services have a bit of the mask, with a blank behind each.
fn listed(rt: &impl Abort, names: &NameTable, alloc: Global, mask: u32) -> Vec<u8> {
    let mut text = Vec::new(alloc);
    let names = names.by_mask(alloc, mask).ok().expect(rt, "memory");
    for i in 0..names.len() {
        text.extend_from_slice(names.name(i))
            .ok()
            .expect(rt, "memory");
        text.push(b' ').ok().expect(rt, "memory");
    }
    text
}

/// The object of a service.
fn object_of(service: Option<Service>) -> Option<u32> {
    match service {
        Some(service) => Some(service.node.object),
        None => None,
    }
}

/// The object under a name.
fn stands(rt: &impl Abort, names: &NameTable, name: &[u8], wanted: Option<u32>) {
    assert_eq!(rt; (name, object_of(names.get(name))), (name, wanted));
}

#[test]
fn services_stand_under_their_names(rt: HostRuntime) {
    let mut names = NameTable::new(rt.alloc());
    let power = b"power".as_slice();
    let rows = [
        (power, service(1, 5, 1)),
        (b"audio", service(2, 6, 8)),
        (power, service(2, 7, 9)),
    ];
    for (name, service) in rows {
        add(&rt, &mut names, rt.alloc(), name, service);
        stands(&rt, &names, name, Some(service.node.object));
    }
    assert!(rt; names.has_room(b"wifi"));
    for (mask, wanted) in [(8, b"audio power ".as_slice()), (1, b"power ")] {
        assert_eq!(rt; listed(&rt, &names, rt.alloc(), mask).as_slice(), wanted);
    }
    names.remove(power);
    stands(&rt, &names, power, None);
    names.remove_client(2);
    stands(&rt, &names, b"audio", None);
}

#[test]
fn a_copy_of_the_services_goes_its_own_way(rt: HostRuntime) {
    let mut names = NameTable::new(rt.alloc());
    add(&rt, &mut names, rt.alloc(), b"power", service(1, 5, 1));
    add(&rt, &mut names, rt.alloc(), b"audio", service(2, 6, 8));
    let copy = names.services().copy(rt.alloc(), 1);
    let mut copy = copy.ok().expect(&rt, "memory");
    copy.remove(b"power");
    for (name, wanted) in [(b"power", None), (b"audio", Some(6))] {
        assert_eq!(rt; (name, object_of(copy.get(name))), (name, wanted));
    }
    assert!(rt; copy.len() == 1);
    stands(&rt, &names, b"power", Some(5));
}

/// Four watches, the first of which is made again at the end: the client, the name and the object of each.
const WATCHES: [(u32, &[u8], u32); 4] = [
    (7, b"power", 1),
    (8, b"audio", 1),
    (8, b"power", 2),
    (7, b"power", 1),
];

/// These are the watches: the client, the name and the object of each.
fn are_told(rt: &impl Abort, alloc: Global, watches: &[Watch], wanted: &[u8]) {
    let mut text = Vec::new(alloc);
    for watch in watches {
        push_watch(&mut text, watch).ok().expect(rt, "memory");
    }
    assert_eq!(rt; text.as_slice(), wanted);
}

fn push_watch(text: &mut Vec<u8>, watch: &Watch) -> Result<(), AllocError> {
    push_numbered(text, b"", u64::from(watch.client))?;
    text.extend_from_slice(b" ")?;
    text.extend_from_slice(watch.name.bytes())?;
    push_numbered(text, b" ", u64::from(watch.object))?;
    text.extend_from_slice(b"\n")
}

#[test]
fn a_watch_made_twice_is_there_twice(rt: HostRuntime) {
    let mut names = NameTable::new(rt.alloc());
    for (client, name, object) in WATCHES {
        watch(
            &rt,
            &mut names,
            watch_of(&rt, rt.alloc(), client, name, object),
        );
    }
    assert!(rt; names.watches() == 4);
    assert!(rt; names.watching(7, b"power", 1) == 2);
    let power = b"7 power 1\n8 power 2\n7 power 1\n";
    are_told(&rt, rt.alloc(), names.watchers(b"power"), power);
    let all = names.listed_watches(rt.alloc()).ok().expect(&rt, "memory");
    are_told(
        &rt,
        rt.alloc(),
        &all,
        b"7 power 1\n8 audio 1\n8 power 2\n7 power 1\n",
    );
    assert!(rt; names.is_watching(8, b"power", 2) && !names.is_watching(8, b"power", 1));
    assert!(rt; names.unwatch(7, b"power", 1) == 2);
    are_told(&rt, rt.alloc(), names.watchers(b"power"), b"8 power 2\n");
    names.remove_client(8);
    assert!(rt; names.watches() == 0);
}
