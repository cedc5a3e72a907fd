//! One connection's session, from its first line to its end.

ghost use Rattle.sm_wire.specs.declared.kind.Kind.TheVariants.{Client as AsClient, Admin as AsAdmin};
ghost use Rattle.sm_account.specs.Served.{Attended};

use crate::entrance::Entrance;
use crate::operator::{Milestone, Operator};
use crate::pace::{Pace, PacedRead, PacedWrite, READS};
use crate::patience::{Limited, Patience, limit_administrator};
use crate::queue::Queue;
use crate::sealing::seal_if_due;
use crate::shared_admin::SharedAdmin;
use crate::turned_away::TurnedAway;
use crate::uninterrupted::Uninterrupted;
use crate::visitor::{Lobby, Visitor};
use sm_account::{
    Account, Chronicle, Monitor, Occasion, Supervisor, at_rest, serve_administrator, serve_client,
};
use sm_bells::Doorstep;
use sm_door::{Admin, Door, Naming, Seat, SeatOrSession};
use sm_engine::{Counted, Fault};
use sm_history::Gate;
use std::alloc::Global;
use std::io::{Read, Write};
use std::rt::Clock;
use std::sync::Wait;
use std::time::Instant;

/// Serves a client's connection at a worker's seat, and adds it to the worker's account. A `take` may wait at the step.
/// After each change the journal is sealed if it is due; an answer to a read never waits for that. Returns the account
/// with the seat, or with the session of a client that couldn't die, and both ends of the connection. If the time can't
/// be read or limited, nothing is served.
pub fn attend_client<
    J: Naming,
    K: Chronicle,
    G: Gate + Drop,
    H: Operator,
    R: Wait + Clock,
    I: Read + Limited,
    O: Write + Limited,
>(
    rt: &R,
    alloc: Global,
    door: &Door<J, G>,
    account: Account<Seat<J>, K>,
    sealer: &SharedAdmin<J>,
    host: &H,
    monitor: &Monitor<H>,
    patience: Patience,
    queue: &Queue,
    step: &Doorstep<'_, G, R>,
    input: I,
    output: O,
) -> (Account<SeatOrSession<J>, K>, I, O)
    ensures { Attended AsClient account result.0 (I.remaining input) (I.remaining result.1) (O.contents output)
        (O.contents result.2) }
{
    if patience.limit_replies(&output).is_err() {
        return (at_rest(account), input, output);
    }
    let Ok(pace) = Pace::new(rt, patience, queue) else {
        return (at_rest(account), input, output);
    };
    let attended = attend_stream(
        rt, alloc, door, account, sealer, host, monitor, &pace, step, input, output,
    );
    seal_if_due(rt, door, sealer, monitor);
    attended
}

// Serves a client's connection at this pace. A new client may idle once it is connected.
fn attend_stream<
    J: Naming,
    K: Chronicle,
    G: Gate + Drop,
    H: Operator,
    R: Wait + Clock,
    I: Read + Limited,
    O: Write + Limited,
>(
    rt: &R,
    alloc: Global,
    door: &Door<J, G>,
    account: Account<Seat<J>, K>,
    sealer: &SharedAdmin<J>,
    host: &H,
    monitor: &Monitor<H>,
    pace: &Pace<'_, R>,
    step: &Doorstep<'_, G, R>,
    input: I,
    output: O,
) -> (Account<SeatOrSession<J>, K>, I, O)
    ensures { Attended AsClient account result.0 (I.remaining input) (I.remaining result.1) (O.contents output)
        (O.contents result.2) }
{
    let mut reader = Counted::new(Uninterrupted::new(PacedRead::new(&*pace, input)));
    let mut writer = Counted::new(Uninterrupted::new(PacedWrite::new(&*pace, output)));
    let (account, _, ended) = serve_client(
        rt,
        alloc,
        door,
        account,
        |occasion| {
            match occasion {
                Occasion::Connected(client) => {
                    pace.connect();
                    step.connect(client.0);
                    host.reach(Milestone::Connected);
                }
                Occasion::Taken => step.take(),
                Occasion::FoundEmpty => step.find_empty(),
                Occasion::Changed | Occasion::Answered => {}
            }
            if pace.nears_the_last_read() {
                host.reach(Milestone::AlmostAllReads);
            }
            if is_change(occasion) {
                seal_if_due(rt, door, sealer, monitor);
            }
        },
        monitor,
        monitor.sink(),
        step,
        &mut reader,
        &mut writer,
        READS,
    );
    note_end(monitor, ended);
    if matches!(ended, Err(Fault::TooManyReads)) {
        host.reach(Milestone::AllReads);
    }
    let input = reader.into_inner().into_inner().into_inner();
    let output = writer.into_inner().into_inner().into_inner();
    (account, input, output)
}

// Returns whether a change was made, or was refused because no slot was free or an allocation failed: a seal may be due.
fn is_change(occasion: Occasion) -> bool {
    !matches!(occasion, Occasion::FoundEmpty | Occasion::Answered)
}

// A session ends early where its requests or replies find no memory.
fn note_end<H: Supervisor>(monitor: &Monitor<H>, ended: Result<(), Fault>) {
    if matches!(ended, Err(Fault::Memory)) {
        monitor.run_short();
    }
}

/// Serves an administrator's connection, which may take `seconds` for each line and each reply, and adds it to the
/// account. While another one waits in the lobby, it has less time for a line, and a turn of some seconds in all. After
/// each change the journal is sealed if it is due. If the time can't be read or limited, nothing is served.
pub fn attend_administrator<
    J: Naming,
    K: Chronicle,
    G: Gate + Drop,
    A: Entrance,
    H: Supervisor,
    R: Wait + Clock,
    I: Read + Limited,
    O: Write + Limited,
>(
    rt: &R,
    alloc: Global,
    door: &Door<J, G>,
    account: Account<Admin<J>, K>,
    sealer: &SharedAdmin<J>,
    monitor: &Monitor<H>,
    seconds: u64,
    input: I,
    output: O,
    lobby: &mut Lobby<A>,
    turned: &TurnedAway,
) -> (Account<Admin<J>, K>, I, O)
    ensures { Attended AsAdmin account result.0 (I.remaining input) (I.remaining result.1) (O.contents output)
        (O.contents result.2) }
{
    if limit_administrator(seconds, &input, &output).is_err() {
        return (account, input, output);
    }
    let Ok(now) = Instant::now(rt) else {
        return (account, input, output);
    };
    let visitor = Visitor::new(rt, input, lobby, turned, seconds, now);
    let mut reader = Counted::new(Uninterrupted::new(visitor));
    let mut writer = Counted::new(Uninterrupted::new(output));
    let (account, _, ended) = serve_administrator(
        rt,
        alloc,
        door,
        account,
        |occasion| {
            if is_change(occasion) {
                seal_if_due(rt, door, sealer, monitor);
            }
        },
        monitor,
        monitor.sink(),
        &mut reader,
        &mut writer,
        READS,
    );
    note_end(monitor, ended);
    seal_if_due(rt, door, sealer, monitor);
    let input = reader.into_inner().into_inner().into_inner();
    let output = writer.into_inner().into_inner();
    (account, input, output)
}
