//! The conversations that the account of a server keeps.

use super::differences::is_left;
use super::remembers::{Conversation, Remembers};
use super::server::{
    ALL_IS_WELL, Ended, Heard, LISTENING, Left, at_a_door_with_chronicle, numbers,
};
use super::steps::Step::{self, Close, Over, Say};
use super::steps::connected;
use sm_history::NoGate;
use sm_values::push_numbered;
use std::alloc::{AllocError, Global};
use std::process::Abort;
use std::str;
use std::test::Fail;

/// The number of clients in the exchange below.
const CLIENTS: u64 = 16;

/// The number of its administrators.
const ADMINISTRATORS: u64 = 4;

const CONNECTIONS: u64 = CLIENTS + ADMINISTRATORS;

/// The audit records of an application that may not add services, of an isolated process, and of a service that may not
/// add a name without a label of its own.
const DENIALS: &[u8] = b"denials 3
journal=6 version=1 clause: denied app for pid=101 uid=10007 name=activity scontext=u:r:untrusted_app:s0
journal=13 version=1 clause: denied isolated for pid=106 uid=99001 name=activity scontext=u:r:isolated_app:s0
journal=14 version=1 avc: denied { add } for pid=107 uid=1000 name=foo scontext=u:r:system_server:s0 tcontext=u:object_r:default_android_service:s0 tclass=service_manager permissive=0
";

/// Clients 0 to 15, and administrators 16 to 19, each of whom leaves before the next one speaks.
const TWENTY_CONNECTIONS: &[Step] = &[
    // A service, an application that finds it and may not add one, and a list.
    Say(0, b"hello 100 1000 u:r:system_server:s0\n", b"client 1\n"),
    Say(1, b"hello 101 10007 u:r:untrusted_app:s0\n", b"client 2\n"),
    Say(0, b"add activity o1 0 8\n", b"ok\n"),
    Say(2, b"hello 102 1000 u:r:sys", b""),
    Say(1, b"get activity\n", b"handle 1\n"),
    Say(2, b"tem_server:s0\n", b"client 3\n"),
    Say(16, b"version\n", b"version 1 6\n"),
    Say(1, b"add activity o1 0 8\n", b"exception -1 app 10007\n"),
    Say(3, b"hello 103 1000 u:r:system_server:s0\n", b"client 4\n"),
    Say(2, b"list 15\n", b"names 1 7 1 activity\n"),
    Close(16),
    Over(16),
    // A watcher of the service, and a connection that is cut inside a line between two seals.
    Say(4, b"hello 104 1000 u:r:system_server:s0\n", b"client 5\n"),
    Say(3, b"watch activity o1\n", b"ok\n"),
    Say(3, b"take\n", b"registered o1 activity h1\n"),
    Say(5, b"hello 105 1000 u:r:system_server:s0\n", b"client 6\n"),
    Say(5, b"get activ", b""),
    Say(4, b"version\n", b"version 1 11\n"),
    Say(17, b"seal\n", b"sealed 1 11\n"),
    Close(5),
    Say(5, b"", b"fault cut\n"),
    Over(5),
    Say(17, b"seal\nseal\n", b"sealed 2 12\nempty\n"),
    Close(17),
    Over(17),
    // Two more denials, a call with a reference, and an administrator who asks for what was denied.
    Say(6, b"hello 106 99001 u:r:isolated_app:s0\n", b"client 7\n"),
    Say(6, b"get activity\n", b"null\n"),
    Say(7, b"hello 107 1000 u:r:system_server:s0\n", b"client 8\n"),
    Say(
        7,
        b"add foo o1 0 8\n",
        b"exception -1 denied system_server default_android_service service_manager add\n",
    ),
    Say(18, b"denials\n", DENIALS),
    Say(1, b"call 1 C0FFEE o2\n", b"ok\n"),
    Say(0, b"take\n", b"call o1 101 10007 c0ffee h1\n"),
    Say(0, b"release 1\n", b"ok\n"),
    Say(18, b"version\n", b"version 1 17\n"),
    Close(18),
    Over(18),
    // The service dies, and another one takes its name, which the watcher is told.
    Say(8, b"hello 108 1000 u:r:system_server:s0\n", b"client 9\n"),
    Say(0, b"bye\n", b"bye\n"),
    Over(0),
    Say(1, b"get activity\n", b"null\n"),
    Say(1, b"call 1 -\n", b"dead\n"),
    Say(4, b"add activity o7 1 1\n", b"ok\n"),
    Say(3, b"take\n", b"registered o1 activity h2\n"),
    Say(9, b"hello 109 10042 u:r:untrusted_app:s0\n", b"client 10\n"),
    Say(
        9,
        b"list 15\n",
        b"exception -1 denied untrusted_app servicemanager service_manager list\n",
    ),
    Say(2, b"list 8\n", b"names 1 22 0\n"),
    // Lines in the wrong order, and several lines at once.
    Say(10, b"version\n", b"malformed\n"),
    Say(10, b"hello 110 1000 u:r:system_server:s0\n", b"client 11\n"),
    Say(11, b"hello 111 1000 u:r:system_server:s0\n", b"client 12\n"),
    Say(11, b"hello 111 1000 u:r:system_server:s0\n", b"malformed\n"),
    Say(6, b"get activity\n", b"handle 1\n"),
    Say(
        12,
        b"hello 112 1000 u:r:system_server:s0\nversion\nbye\n",
        b"client 13\nversion 1 26\nbye\n",
    ),
    Over(12),
    // A watch that is cancelled, and a client that leaves without a `bye`.
    Say(13, b"hello 113 1000 u:r:system_server:s0\n", b"client 14\n"),
    Say(13, b"watch activity o3\n", b"ok\n"),
    Say(13, b"unwatch activity o3\n", b"ok\n"),
    Say(3, b"get activity\n", b"handle 2\n"),
    Say(14, b"hello 114 1000 u:r:system_server:s0\n", b"client 15\n"),
    Close(14),
    Over(14),
    Say(19, b"version\n", b"version 1 33\n"),
    Say(
        15,
        b"hello 115 10043 u:r:untrusted_app:s0\n",
        b"client 16\n",
    ),
    Say(15, b"get activity\n", b"handle 1\n"),
    Say(4, b"unregister activity o7\n", b"exception -5 in-use\n"),
    Say(
        19,
        b"explain untrusted_app activity_service service_manager find\n",
        b"allowed 1 13\n",
    ),
    Say(8, b"take\n", b"empty\n"),
    // All leave.
    Say(15, b"bye\n", b"bye\n"),
    Say(1, b"bye\n", b"bye\n"),
    Say(13, b"bye\n", b"bye\n"),
    Say(4, b"bye\n", b"bye\n"),
    Say(6, b"get activity\nbye\n", b"null\nbye\n"),
    Say(2, b"bye\n", b"bye\n"),
    Say(3, b"bye\n", b"bye\n"),
    Say(7, b"bye\n", b"bye\n"),
    Say(8, b"bye\n", b"bye\n"),
    Say(9, b"bye\n", b"bye\n"),
    Say(10, b"bye\n", b"bye\n"),
    Say(11, b"bye\n", b"bye\n"),
    Say(19, b"seal\n", b"sealed 3 47\n"),
    Close(19),
    Over(19),
];

#[test]
fn the_account_tells_what_went_over_the_wire(rt: HostRuntime) -> Result<(), Fail> {
    let steps = TWENTY_CONNECTIONS;
    let numbers = numbers(16, CLIENTS, ADMINISTRATORS);
    let (visits, exchange) = connected(&rt, rt.alloc(), numbers, steps)?;
    let ended = at_a_door_with_chronicle(&rt, rt.alloc(), 1000, NoGate, visits, exchange);
    let Ended {
        left,
        beats: _,
        chronicle,
    } = ended;
    let heard = Heard {
        // Those of `DENIALS`, and that of a list.
        records: 4,
        ..LISTENING
    };
    let wanted = Left {
        heard,
        ..ALL_IS_WELL
    };
    is_left(&rt, rt.alloc(), &[steps], left, wanted);
    keeps_each_conversation(&rt, rt.alloc(), steps, CONNECTIONS, &chronicle);
    Ok(())
}

/// Asserts that the chronicle keeps one conversation for each connection, with all that these steps say there, and no
/// other one. A failure shows a connection, and the kept conversation that is most like it.
fn keeps_each_conversation(
    rt: &impl Abort,
    alloc: Global,
    steps: &'static [Step],
    connections: u64,
    chronicle: &Remembers,
) {
    for at in 0..connections {
        let said = said_at(alloc, steps, at).ok().expect(rt, "memory");
        if chronicle.times(&said) != 1 {
            let text = difference(alloc, at, &said, chronicle);
            let text = text.ok().expect(rt, "memory");
            panic!(rt; "{}", str::from_utf8(&text).unwrap_or("(not UTF-8)"));
        }
    }
    assert_eq!(rt; chronicle.conversations.len() as u64, connections);
    assert_eq!(rt; chronicle.added, connections);
}

/// All that `Say` steps send at this connection, and all that they are answered.
fn said_at(
    alloc: Global,
    steps: &'static [Step],
    connection: u64,
) -> Result<Conversation, AllocError> {
    let mut said = Conversation::new(alloc);
    for step in steps {
        if let Say(at, sent, answer) = *step {
            if at as u64 == connection {
                said.read.extend_from_slice(sent)?;
                said.written.extend_from_slice(answer)?;
            }
        }
    }
    Ok(said)
}

/// The conversation of a connection and the nearest one that was kept, as text.
fn difference(
    alloc: Global,
    connection: u64,
    said: &Conversation,
    chronicle: &Remembers,
) -> Result<Vec<u8>, AllocError> {
    let mut text = Vec::from_slice(alloc, b"the account keeps something else")?;
    push_numbered(&mut text, b"\nconnection ", connection)?;
    let times = chronicle.times(said) as u64;
    push_numbered(&mut text, b", times that it was kept: ", times)?;
    if let Some(kept) = chronicle.nearest(said) {
        text.extend_from_slice(b"\nthe nearest that was kept:\n")?;
        push_conversation(&mut text, kept)?;
    }
    text.extend_from_slice(b"\nwanted:\n")?;
    push_conversation(&mut text, said)?;
    Ok(text)
}

/// Adds what was read and what was written.
fn push_conversation(text: &mut Vec<u8>, said: &Conversation) -> Result<(), AllocError> {
    text.extend_from_slice(b"the server read\n")?;
    text.extend_from_slice(&said.read)?;
    text.extend_from_slice(b"\nand wrote\n")?;
    text.extend_from_slice(&said.written)
}
