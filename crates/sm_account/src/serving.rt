//! One connection of an account.

ghost use Rattle.std.specs.Prelude.{◌≡◌, ◌<◌, ◌-◌};
ghost use Rattle.sm_engine.specs.Counts.{failures_of, calls_of, inner_of, greatest_count};
ghost use Rattle.sm_wire.specs.declared.kind.Kind.TheVariants.{Client as AsClient, Admin as AsAdmin};
ghost use Rattle.sm_connection.specs.Sessions.{Counts};
ghost use Rattle.sm_connection.specs.Connections.{GoesOn};
ghost use Rattle.sm_account.specs.Served.{visit, with_served};

use crate::account::Account;
use crate::chronicle::Chronicle;
use crate::visit::{Moment, Visit};
use sm_connection::{AuditSink, Monitor, Occasion, Supervisor};
use sm_door::{Admin, Door, Naming, Seat, SeatOrSession};
use sm_engine::{Counted, Fault};
use sm_history::Gate;
use sm_wire::Kind;
use std::alloc::Global;
use std::io::{Read, Write};
use std::sync::Wait;

/// Serves a client's connection at the seat of this account, as `serve_client` of `sm_connection` does, and adds it to
/// the account.
pub fn serve_client<
    J: Naming,
    K: Chronicle,
    G: Gate + Drop,
    B: FnMut(Occasion) + Drop,
    H: Supervisor,
    L: AuditSink,
    R: Wait,
    W: Gate,
    I: Read,
    O: Write,
>(
    rt: &R,
    alloc: Global,
    door: &Door<J, G>,
    account: Account<Seat<J>, K>,
    tend: B,
    monitor: &Monitor<H>,
    sink: L,
    gate: &W,
    reader: &mut Counted<I>,
    writer: &mut Counted<O>,
    bound: u32,
) -> (Account<SeatOrSession<J>, K>, L, Result<(), Fault>)
    requires tend { B.IsAlwaysCallable tend }
    requires reader { failures_of reader.old < greatest_count }
    requires writer { failures_of writer.old < greatest_count }
    ensures told { result.0.told ≡ with_served account.told (visit AsClient result.2 bound
        (calls_of reader.new - calls_of reader.old) account.token result.0.token (L.given sink) (L.given result.1)
        (I.remaining (inner_of reader.old)) (I.remaining (inner_of reader.new))
        (O.contents (inner_of writer.old)) (O.contents (inner_of writer.new))) }
    ensures goes_on { GoesOn account.token result.0.token }
    ensures counts { Counts result.2 bound reader.old reader.new writer.old writer.new }
{
    let (seat, mut chronicle) = account.into_parts();
    let before = Moment::of(&seat, &*reader, &*writer, &sink);
    let (slot, sink, result) = sm_connection::serve_client(
        rt,
        alloc,
        door,
        Some(seat),
        tend,
        monitor,
        sink,
        gate,
        reader,
        writer,
        bound,
    );
    let slot = slot.unwrap();
    let after = Moment::of(&slot, &*reader, &*writer, &sink);
    let visit = Visit {
        kind: Kind::Client,
        bound,
        result,
        before,
        after,
    };
    chronicle.add(&visit);
    (Account::new(slot, chronicle), sink, result)
}

/// Serves an administrator's connection under the token of this account, as `serve_administrator` of `sm_connection`
/// does, and adds it to the account.
pub fn serve_administrator<
    J: Naming,
    K: Chronicle,
    G: Gate + Drop,
    B: FnMut(Occasion) + Drop,
    H: Supervisor,
    L: AuditSink,
    R: Wait,
    I: Read,
    O: Write,
>(
    rt: &R,
    alloc: Global,
    door: &Door<J, G>,
    account: Account<Admin<J>, K>,
    tend: B,
    monitor: &Monitor<H>,
    sink: L,
    reader: &mut Counted<I>,
    writer: &mut Counted<O>,
    bound: u32,
) -> (Account<Admin<J>, K>, L, Result<(), Fault>)
    requires tend { B.IsAlwaysCallable tend }
    requires reader { failures_of reader.old < greatest_count }
    requires writer { failures_of writer.old < greatest_count }
    ensures told { result.0.told ≡ with_served account.told (visit AsAdmin result.2 bound
        (calls_of reader.new - calls_of reader.old) account.token result.0.token (L.given sink) (L.given result.1)
        (I.remaining (inner_of reader.old)) (I.remaining (inner_of reader.new))
        (O.contents (inner_of writer.old)) (O.contents (inner_of writer.new))) }
    ensures goes_on { GoesOn account.token result.0.token }
    ensures counts { Counts result.2 bound reader.old reader.new writer.old writer.new }
{
    let (admin, mut served) = account.into_parts();
    let before = Moment::of(&admin, &*reader, &*writer, &sink);
    let (admin, sink, result) = sm_connection::serve_administrator(
        rt, alloc, door, admin, tend, monitor, sink, reader, writer, bound,
    );
    let after = Moment::of(&admin, &*reader, &*writer, &sink);
    let visit = Visit {
        kind: Kind::Admin,
        bound,
        result,
        before,
        after,
    };
    served.add(&visit);
    (Account::new(admin, served), sink, result)
}
