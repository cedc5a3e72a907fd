//! One connection's session.

ghost use Rattle.std.specs.Prelude.{◌<◌, ◌-◌};
ghost use Rattle.sm_engine.specs.Counts.{failures_of, calls_of, inner_of, greatest_count};
ghost use Rattle.sm_connection.specs.Desks.{DeskAnswers, DeskDeath};
ghost use Rattle.sm_connection.specs.Sessions.{Attends, Counts};

use crate::desk::Desk;
use crate::gated_session::GatedSession;
use sm_engine::{Counted, Fault, run};
use sm_history::Gate;
use sm_wire::Kind;
use std::alloc::Global;
use std::io::{Read, Write, sink};

/// Serves one connection of a client or an administrator: passes its lines to the desk until they end, until a `bye` is
/// answered by `bye`, until a fault, or until `bound` reads were made. Returns the desk, which was told of
/// its client's death if it had one.
pub fn session<D: Desk, G: Gate, R: Read, W: Write>(
    alloc: Global,
    kind: Kind,
    reader: &mut Counted<R>,
    writer: &mut Counted<W>,
    desk: D,
    gate: &G,
    bound: u32,
) -> (D, Result<(), Fault>)
    requires can { D.can_answer desk }
    requires reader { failures_of reader.old < greatest_count }
    requires writer { failures_of writer.old < greatest_count }
    ensures attends { Attends kind (DeskAnswers D.answers) (DeskDeath D.answers) result.1 bound
        (calls_of reader.new - calls_of reader.old) desk
        (R.remaining (inner_of reader.old)) (R.remaining (inner_of reader.new))
        (W.contents (inner_of writer.old)) (W.contents (inner_of writer.new)) result.0 }
    ensures counts { Counts result.1 bound reader.old reader.new writer.old writer.new }
{
    let mut gated_session = GatedSession::new(alloc, kind, desk, gate);
    // A session's answers have no audit lines.
    let mut unaudited = Counted::new(sink());
    let result = run(
        alloc,
        kind,
        &mut gated_session,
        bound,
        reader,
        writer,
        &mut unaudited,
    );
    (gated_session.close(), result)
}
