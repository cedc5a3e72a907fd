//! A connection's session over any reader and writer.

ghost use Rattle.std.specs.Prelude.{◌≡◌, ◌<◌, ◌-◌};
ghost use Rattle.sm_engine.specs.Counts.{failures_of, calls_of, inner_of, greatest_count};
ghost use Rattle.sm_wire.specs.declared.kind.Kind.TheVariants.{Client as AsClient, Admin as AsAdmin};
ghost use Rattle.sm_connection.specs.Desks.{DeskAnswers, DeskDeath};
ghost use Rattle.sm_connection.specs.Sessions.{Attends, Counts};
ghost use Rattle.sm_connection.specs.Connections.{ClientGives, AdminGives, ComesAfter, GoesOn};
ghost use Rattle.sm_connection.specs.Held.{Puts, holding};

use crate::administrator::Administrator;
use crate::audit_sink::AuditSink;
use crate::client::Client;
use crate::connection::Connection;
use crate::door_desk::{DoorDesk, Occasion};
use crate::monitor::Monitor;
use crate::sessions::session;
use crate::supervisor::Supervisor;
use sm_door::{Admin, Door, Naming, Seat, SeatOrSession};
use sm_engine::{Counted, Fault};
use sm_history::Gate;
use sm_wire::Kind;
use std::alloc::Global;
use std::io::{Read, Write};
use std::sync::Wait;

/// Serves a client's connection over any reader and writer, at this seat, or without one if there is none. Each allowed
/// line is answered once, in order, from the history behind the door. That ends with the lines, with a `bye` that is
/// answered by `bye`, with a fault, or after `bound` reads. The sink is given the audit records of each answer once, in
/// order. The gate is called at each line. Returns the seat, or the session of a client that couldn't die, and the
/// sink.
pub fn serve_client<
    J: Naming,
    G: Gate + Drop,
    B: FnMut(Occasion) + Drop,
    H: Supervisor,
    L: AuditSink,
    R: Wait,
    W: Gate,
    I: Read,
    O: Write,
>(
    rt: &R,
    alloc: Global,
    door: &Door<J, G>,
    seat: Option<Seat<J>>,
    tend: B,
    monitor: &Monitor<H>,
    sink: L,
    gate: &W,
    reader: &mut Counted<I>,
    writer: &mut Counted<O>,
    bound: u32,
) -> (Option<SeatOrSession<J>>, L, Result<(), Fault>)
    requires tend { B.IsAlwaysCallable tend }
    requires reader { failures_of reader.old < greatest_count }
    requires writer { failures_of writer.old < greatest_count }
    ensures attends { Attends AsClient (DeskAnswers (Puts ClientGives)) (DeskDeath (Puts ClientGives)) result.2 bound
        (calls_of reader.new - calls_of reader.old) (holding seat (L.given sink))
        (I.remaining (inner_of reader.old)) (I.remaining (inner_of reader.new))
        (O.contents (inner_of writer.old)) (O.contents (inner_of writer.new))
        (holding result.0 (L.given result.1)) }
    ensures goes_on { ComesAfter seat result.0 }
    ensures counts { Counts result.2 bound reader.old reader.new writer.old writer.new }
{
    let client = Client::new(rt, alloc, door);
    let held = slot_of(seat);
    attend(
        alloc,
        Kind::Client,
        &client,
        held,
        tend,
        monitor,
        sink,
        gate,
        reader,
        writer,
        bound,
    )
}
/// Serves an administrator's connection over any reader and writer, as `serve_client` does a client's, from what the
/// token has seen. Returns the token.
pub fn serve_administrator<
    J: Naming,
    G: Gate + Drop,
    B: FnMut(Occasion) + Drop,
    H: Supervisor,
    L: AuditSink,
    R: Wait,
    I: Read,
    O: Write,
>(
    rt: &R,
    alloc: Global,
    door: &Door<J, G>,
    admin: Admin<J>,
    tend: B,
    monitor: &Monitor<H>,
    sink: L,
    reader: &mut Counted<I>,
    writer: &mut Counted<O>,
    bound: u32,
) -> (Admin<J>, L, Result<(), Fault>)
    requires tend { B.IsAlwaysCallable tend }
    requires reader { failures_of reader.old < greatest_count }
    requires writer { failures_of writer.old < greatest_count }
    ensures attends { Attends AsAdmin (DeskAnswers (Puts AdminGives)) (DeskDeath (Puts AdminGives)) result.2 bound
        (calls_of reader.new - calls_of reader.old) (holding admin (L.given sink))
        (I.remaining (inner_of reader.old)) (I.remaining (inner_of reader.new))
        (O.contents (inner_of writer.old)) (O.contents (inner_of writer.new))
        (holding result.0 (L.given result.1)) }
    ensures goes_on { GoesOn admin result.0 }
    ensures counts { Counts result.2 bound reader.old reader.new writer.old writer.new }
{
    let administrator = Administrator::new(rt, alloc, door, monitor);
    attend(
        alloc,
        Kind::Admin,
        &administrator,
        admin,
        tend,
        monitor,
        sink,
        door.gate(),
        reader,
        writer,
        bound,
    )
}
// The slot of a seat, if there is one.
fn slot_of<J: Naming>(seat: Option<Seat<J>>) -> Option<SeatOrSession<J>>
    ensures { result ≡ seat }
{
    match seat {
        Some(seat) => Some(SeatOrSession::of_seat(seat)),
        None => None,
    }
}

// Serves a connection that holds this, and returns what it holds then, and the sink.
fn attend<
    C: Connection<S>,
    S,
    B: FnMut(Occasion) + Drop,
    H: Supervisor,
    L: AuditSink,
    G: Gate,
    I: Read,
    O: Write,
>(
    alloc: Global,
    kind: Kind,
    connection: &C,
    held: S,
    tend: B,
    monitor: &Monitor<H>,
    sink: L,
    gate: &G,
    reader: &mut Counted<I>,
    writer: &mut Counted<O>,
    bound: u32,
) -> (S, L, Result<(), Fault>)
    requires tend { B.IsAlwaysCallable tend }
    requires reader { failures_of reader.old < greatest_count }
    requires writer { failures_of writer.old < greatest_count }
    ensures attends { Attends kind (DeskAnswers (Puts C.gives)) (DeskDeath (Puts C.gives)) result.2 bound
        (calls_of reader.new - calls_of reader.old) (holding held (L.given sink))
        (I.remaining (inner_of reader.old)) (I.remaining (inner_of reader.new))
        (O.contents (inner_of writer.old)) (O.contents (inner_of writer.new))
        (holding result.0 (L.given result.1)) }
    ensures counts { Counts result.2 bound reader.old reader.new writer.old writer.new }
{
    let desk = DoorDesk::new(connection, held, tend, monitor, sink);
    let (desk, ended) = session(alloc, kind, reader, writer, desk, gate, bound);
    let (held, sink) = desk.into_parts();
    (held, sink, ended)
}
