//! Whole runs: a check, a script and a session.

use super::outcome::same_text;
use sm_connection::{Command, Desk, Response, session};
use sm_engine::{Counted, Fault};
use sm_history::{Event, NoGate, Outcome, Refusal, Reply};
use sm_policy::PolicyFault;
use sm_questions::check;
use sm_samples::{DEVICE_LABELS, DEVICE_RULES, ONE_LABEL, PLAIN_RULES};
use sm_script::{ScriptFault, run_script};
use sm_values::{ClientId, Places};
use sm_wire::{Kind, Request};
use std::alloc::Global;
use std::process::Abort;

fn checked(rt: &impl Abort, alloc: Global) -> Option<()> {
    let mut writer = Counted::new(Vec::new(alloc));
    match check(alloc, DEVICE_RULES, DEVICE_LABELS, &mut writer) {
        Ok(refusal) => {
            assert!(rt; refusal.is_none());
            let told = b"policy ok: 6 types, 2 attributes, 8 rules, 2 labels\n";
            same_text(rt, &writer.into_inner(), told);
            Some(())
        }
        Err(fault) => {
            assert!(rt; matches!(fault, Fault::Memory | Fault::WriteFault));
            None
        }
    }
}

#[test]
fn a_policy_is_checked(rt: HostRuntime) {
    again!(rt; checked(&rt, rt.alloc()));
}

/// Whether these lines are the expected ones. `None` if lines are missing at the end, or if the first one that differs
/// says that an allocation failed.
fn is_told(rt: &impl Abort, told: &[u8], wanted: &[u8]) -> Option<()> {
    let mut lines = told.split(|byte| *byte == b'\n');
    for line in wanted.split(|byte| *byte == b'\n') {
        let came = lines.next()?;
        if came != line {
            assert!(rt; came == b"failed memory".as_slice() || line.starts_with(came));
            return None;
        }
    }
    Some(())
}

const SCRIPT: &[u8] = b"hello 100 1000 u:r:system_server:s0
1 add activity o1 0 8
hello 101 1000 u:r:system_server:s0
2 get activity
1 get activity
2 list 8
";

const REPLIES: &[u8] = b"client 1
ok
client 2
handle 1
own 1
names 1 5 1 activity
";

fn is_refused(fault: &ScriptFault) -> bool {
    match fault {
        ScriptFault::Policy(PolicyFault::Memory) => true,
        ScriptFault::Opening(Refusal::Memory) => true,
        ScriptFault::Engine(Fault::Memory | Fault::WriteFault) => true,
        _ => false,
    }
}

fn scripted(rt: &impl Abort, alloc: Global) -> Option<()> {
    let places = Places::new(1000).expect(rt, "places");
    let mut reader = Counted::new(SCRIPT);
    let mut writer = Counted::new(Vec::new(alloc));
    let mut audit = Counted::new(Vec::new(alloc));
    let (ended, _) = run_script(
        alloc,
        PLAIN_RULES,
        ONE_LABEL,
        places,
        1000,
        &mut reader,
        &mut writer,
        &mut audit,
    );
    let told = is_told(rt, writer.into_inner().as_slice(), REPLIES);
    if let Err(fault) = ended {
        assert!(rt; is_refused(&fault));
        return None;
    }
    told
}

#[test]
fn a_script_is_run(rt: HostRuntime) {
    again!(rt; scripted(&rt, rt.alloc()));
}

/// A desk with one client, which finds nothing.
#[derive(Drop)]
struct Deaf;

impl Desk for Deaf {
    ghost answers = { λ _ _ _ _. Unit {0} };

    fn answer(&mut self, command: Command) -> Response {
        match &command {
            Command::Hello(_) => Response::Replied(Reply::Done(Outcome::Connected(ClientId(1)))),
            Command::Line(Request::Change(_, Event::Die)) => {
                Response::Replied(Reply::Done(Outcome::Died))
            }
            _ => Response::Replied(Reply::GotNull),
        }
    }
}

const CONNECTION: &[u8] = b"hello 100 1000 u:r:system_server:s0\nget activity\nget power\nbye\n";

fn attended(rt: &impl Abort, alloc: Global) -> Option<()> {
    let mut reader = Counted::new(CONNECTION);
    let mut writer = Counted::new(Vec::new(alloc));
    let (_, ended) = session(
        alloc,
        Kind::Client,
        &mut reader,
        &mut writer,
        Deaf,
        &NoGate,
        1000,
    );
    let told = writer.into_inner();
    let told = is_told(rt, &told, b"client 1\nnull\nnull\nbye\n");
    if let Err(fault) = ended {
        assert!(rt; matches!(fault, Fault::Memory | Fault::WriteFault));
        return None;
    }
    told
}

#[test]
fn a_connection_is_attended(rt: HostRuntime) {
    again!(rt; attended(&rt, rt.alloc()));
}
