//! Scripts in which the administrator seals the journal.

use super::fixture::{Fixture, hold};
use super::parts::Part::Lines;
use super::parts::Parts;

// Of four slots one is kept for the death of each live client.
const A_JOURNAL_OF_FOUR: Parts = &[Lines(&[
    ("hello 100 1000 u:r:system_server:s0", "client 1"),
    ("1 add activity o1 0 8", "ok"),
    ("1 add activity o1 0 8", "failed journal-full"),
    ("seal", "sealed 1 3"),
    ("1 add activity o1 0 8", "ok"),
    ("1 list 15", "names 1 4 1 activity"),
    ("hello 200 10007 u:r:untrusted_app:s0", "client 2"),
    ("2 get activity", "failed journal-full"),
    ("seal", "sealed 2 5"),
    ("2 get activity", "handle 1"),
    ("2 get activity", "handle 1"),
    ("seal", "sealed 3 7"),
    ("2 release 1", "ok"),
    ("2 release 1", "ok"),
    ("2 release 1", "failed bad-handle"),
    ("seal", "sealed 4 9"),
    ("seal", "empty"),
])];

// What waits, who watches and who added a service stay; a death between two seals takes its own along.
const WHAT_A_SEAL_KEEPS: Parts = &[Lines(&[
    ("hello 100 1000 u:r:system_server:s0", "client 1"),
    ("hello 200 10007 u:r:untrusted_app:s0", "client 2"),
    ("2 watch activity o7", "ok"),
    ("1 add activity o1 0 8", "ok"),
    ("seal", "sealed 1 5"),
    ("2 take", "registered o7 activity h1"),
    ("2 call 1 00 o5", "ok"),
    ("1 seal", "malformed"),
    ("seal ", "malformed"),
    ("seal", "sealed 2 7"),
    ("1 take", "call o1 200 10007 00 h1"),
    ("1 bye", "bye"),
    ("seal", "sealed 3 9"),
    ("1 take", "failed not-connected"),
    ("2 get activity", "null"),
    ("2 call 1 00", "dead"),
    ("hello 101 1000 u:r:system_server:s0", "client 3"),
    ("3 add activity o1 0 8", "ok"),
    ("2 take", "registered o7 activity h2"),
    ("2 version", "version 1 12"),
    (
        "explain untrusted_app system_server binder call",
        "allowed 1 15",
    ),
])];

#[test]
fn seals(rt: HostRuntime) {
    let device = Fixture::device();
    hold(&rt, rt.alloc(), device.with_places(4), &[A_JOURNAL_OF_FOUR]);
    hold(&rt, rt.alloc(), device, &[WHAT_A_SEAL_KEEPS]);
}
