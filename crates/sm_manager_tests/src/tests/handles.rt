//! The table of handles.

use arrayvec::ArrayVec;
use sm_grants::Grants;
use sm_values::{ClientId, Node, ObjRef};
use std::process::Abort;
use std::test::*;

fn object(owner: u32, object: u32) -> Node {
    Node {
        owner: ClientId(owner),
        object,
    }
}

/// A grant as the manager makes it: 0 where there is no room.
fn give(rt: &impl Abort, grants: &mut Grants, client: u32, node: Node) -> u32 {
    grants.reserve(client, 1).ok().expect(rt, "memory");
    grants.grant(client, node, 0).unwrap_or(0)
}

#[test]
fn numbers_are_used_again(rt: HostRuntime) {
    let mut grants = Grants::new(rt.alloc());
    assert!(rt; grants.number_for(7, object(1, 5)) == 1);
    assert!(rt; give(&rt, &mut grants, 7, object(1, 5)) == 1);
    assert!(rt; give(&rt, &mut grants, 7, object(1, 6)) == 2);
    assert!(rt; give(&rt, &mut grants, 7, object(1, 5)) == 1);
    assert!(rt; give(&rt, &mut grants, 7, object(2, 5)) == 3);
    assert!(rt; grants.release_held(7, object(1, 5), 1));
    assert!(rt; grants.node(7, 1).is_some());
    // A number that isn't the object's is passed over.
    assert!(rt; grants.release_held(7, object(1, 5), 2));
    assert!(rt; !grants.release_held(7, object(1, 5), 1));
    assert!(rt; grants.node(7, 2) == Some(object(1, 6)));
    assert!(rt; grants.resolve(7, ObjRef::Handle(1)).is_none());
    assert!(rt; grants.resolve(7, ObjRef::Own(4)) == Some(object(7, 4)));
    assert!(rt; give(&rt, &mut grants, 7, object(3, 5)) == 1);
    assert!(rt; grants.node(7, 1) == Some(object(3, 5)));
    grants.remove_client(7);
    assert!(rt; grants.node(7, 1).is_none());
    assert!(rt; grants.number_for(7, object(2, 5)) == 1);
}

#[test]
fn holders_of_an_object(rt: HostRuntime) {
    let mut grants = Grants::new(rt.alloc());
    let node = object(1, 5);
    let _ = give(&rt, &mut grants, 7, node);
    let _ = give(&rt, &mut grants, 8, node);
    let _ = give(&rt, &mut grants, 9, object(1, 6));
    assert!(rt; grants.holders(node, 1) == 2);
    assert!(rt; grants.holders(node, 7) == 1);
    assert!(rt; grants.release_held(8, node, 0));
    assert!(rt; grants.holders(node, 7) == 0);
}

#[test]
fn references_of_a_call(rt: HostRuntime) {
    let mut grants = Grants::new(rt.alloc());
    for i in 1..5 {
        let _ = give(&rt, &mut grants, 7, object(1, i));
    }
    assert!(rt; grants.release_held(7, object(1, 2), 2));
    let nodes = [object(2, 1), object(1, 3), object(2, 2), object(2, 1)];
    let mut numbers = ArrayVec::new();
    assert!(rt; grants.numbers_if_room(7, &nodes, &mut numbers));
    assert!(rt; numbers.as_slice() == [2, 3, 5, 2].as_slice());
    let mut others = ArrayVec::new();
    assert!(rt; grants.numbers_if_room(8, &nodes, &mut others));
    assert!(rt; others.as_slice() == [1, 2, 3, 1].as_slice());
    assert!(rt; grants.room(7, &nodes) && grants.room(8, &[]));
}
