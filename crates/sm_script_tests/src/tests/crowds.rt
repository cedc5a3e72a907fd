//! Tables of handles and watches that are full.

use super::fixture::{Fixture, hold};
use super::parts::Part::{Lines, Repeat};
use super::parts::{ONE_CLIENT, Parts, repeat};
use sm_samples::Said;
use std::alloc::{AllocError, Global};

// The service becomes another object each time, and an application gets it.
const A_FULL_TABLE_OF_HANDLES: Parts = &[
    Lines(&[
        ("hello 100 1000 u:r:system_server:s0", "client 1"),
        ("hello 200 10007 u:r:untrusted_app:s0", "client 2"),
    ]),
    Repeat(
        65_536,
        b"1 add activity o# 0 8\n2 get activity\n",
        b"ok\nhandle #\n",
    ),
    Lines(&[
        ("1 add activity o70000 0 8", "ok"),
        ("2 get activity", "failed target-full"),
        ("2 release 40001", "ok"),
        ("2 release 30001", "ok"),
        ("2 get activity", "handle 30001"),
        ("2 get activity", "handle 30001"),
    ]),
];

// All 4,096 watches are equal; one `unwatch` removes them all.
const A_FULL_TABLE_OF_WATCHES: Parts = &[
    Lines(ONE_CLIENT),
    Repeat(4096, b"1 watch activity o3\n", b"ok\n"),
    Lines(&[
        ("1 watch activity o4", "exception -5 table-full"),
        ("1 unwatch activity o3", "ok"),
        ("1 watch activity o4", "ok"),
    ]),
];

#[test]
fn a_full_table_of_handles(rt: HostRuntime) {
    let device = Fixture::device();
    hold(&rt, rt.alloc(), device, &[A_FULL_TABLE_OF_HANDLES]);
}

#[test]
fn a_full_table_of_watches(rt: HostRuntime) {
    let device = Fixture::device();
    hold(&rt, rt.alloc(), device, &[A_FULL_TABLE_OF_WATCHES]);
}

// A client connects, and 64 of its objects watch the name.
fn connect_watching(said: &mut Said, alloc: Global, client: u32) -> Result<(), AllocError> {
    let connected = format!(in alloc; "client {client}\n")?;
    repeat(
        said,
        1,
        b"hello 100 1000 u:r:system_server:s0\n",
        connected.as_bytes(),
    )?;
    let watch = format!(in alloc; "{client} watch activity o#\n")?;
    repeat(said, 64, watch.as_bytes(), b"ok\n")
}

// A client takes the deliveries to its objects, in the order of their watches.
fn take_all(said: &mut Said, alloc: Global, client: u32) -> Result<(), AllocError> {
    let take = format!(in alloc; "{client} take\n")?;
    let given = if client == 1 { "o1" } else { "h1" };
    let answer = format!(in alloc; "registered o# activity {given}\n")?;
    repeat(said, 64, take.as_bytes(), answer.as_bytes())
}

// Each of 64 clients watches the name 64 times, the name is registered, and each client is told so 64 times.
fn watches(alloc: Global) -> Result<Said, AllocError> {
    let mut said = Said::new(alloc);
    for client in 1..=64u32 {
        connect_watching(&mut said, alloc, client)?;
    }
    said.talk(&[("1 add activity o1 0 8", "ok")])?;
    for client in 1..=64u32 {
        take_all(&mut said, alloc, client)?;
    }
    Ok(said)
}

#[test]
fn as_many_watches_of_one_name_as_there_may_be(rt: HostRuntime) {
    let said = watches(rt.alloc()).ok().expect(&rt, "memory");
    Fixture::device().replies(&rt, rt.alloc(), &said.script, &said.wanted);
}
