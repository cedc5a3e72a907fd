//! The table of inboxes.

use sm_history::{Delivery, Given, Message, Shared};
use sm_inbox::Inboxes;
use sm_values::Name;
use std::alloc::Global;
use std::process::Abort;
use std::test::*;

fn delivery(rt: &impl Abort, alloc: Global, object: u32) -> Shared<Delivery> {
    let name = Name::new(alloc, b"power").ok().expect(rt, "a name");
    let delivery = Delivery {
        object,
        what: Message::Registered {
            name,
            given: Given::Null,
        },
    };
    let boxed = Shared::new(alloc, delivery);
    boxed.ok().expect(rt, "memory")
}

/// A delivery as the manager makes it, if there is room for it.
fn deliver(
    rt: &impl Abort,
    inboxes: &mut Inboxes,
    alloc: Global,
    client: u32,
    object: u32,
) -> bool {
    inboxes.reserve(client).ok().expect(rt, "memory");
    inboxes.put_if_room(client, delivery(rt, alloc, object))
}

fn oldest(inboxes: &Inboxes, client: u32) -> u32 {
    match inboxes.first(client) {
        Some(delivery) => delivery.get().object,
        None => 0,
    }
}

fn taken(inboxes: &mut Inboxes, client: u32) -> u32 {
    match inboxes.take(client) {
        Some(delivery) => delivery.get().object,
        None => 0,
    }
}

#[test]
fn the_oldest_is_taken_first(rt: HostRuntime) {
    let mut inboxes = Inboxes::new(rt.alloc());
    assert!(rt; !inboxes.put_if_room(7, delivery(&rt, rt.alloc(), 1)));
    assert!(rt; inboxes.has_room(7));
    assert!(rt; deliver(&rt, &mut inboxes, rt.alloc(), 7, 1));
    assert!(rt; deliver(&rt, &mut inboxes, rt.alloc(), 8, 5));
    assert!(rt; deliver(&rt, &mut inboxes, rt.alloc(), 7, 2));
    assert!(rt; inboxes.free(7) == 254);
    assert!(rt; oldest(&inboxes, 7) == 1);
    assert!(rt; taken(&mut inboxes, 7) == 1);
    assert!(rt; taken(&mut inboxes, 7) == 2);
    assert!(rt; taken(&mut inboxes, 7) == 0);
    assert!(rt; oldest(&inboxes, 8) == 5);
    inboxes.remove_client(8);
    assert!(rt; oldest(&inboxes, 8) == 0);
    assert!(rt; !inboxes.put_if_room(8, delivery(&rt, rt.alloc(), 6)));
    assert!(rt; inboxes.put_if_room(7, delivery(&rt, rt.alloc(), 3)));
}
