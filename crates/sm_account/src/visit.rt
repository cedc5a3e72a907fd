//! A connection that was served, in proofs only.

ghost use Rattle.std.specs.Prelude.{◌≡◌};

use crate::holds::Holds;
use sm_connection::AuditSink;
use sm_engine::{Counted, Fault};
use sm_wire::Kind;
use std::io::{Read, Write};
use std::snapshot::Snapshot;

/// What a connection holds, has read, has written and has recorded at one moment. It takes no bytes.
#[derive(Drop)]
pub struct Moment<T, I, O, L> {
    pub token: Snapshot<T>,
    pub reader: Snapshot<Counted<I>>,
    pub writer: Snapshot<Counted<O>>,
    pub sink: Snapshot<L>,
}

impl<T, I, O, L> Moment<T, I, O, L> {
    /// This moment.
    pub fn of(token: &T, reader: &Counted<I>, writer: &Counted<O>, sink: &L) -> Moment<T, I, O, L>
        ensures token { result.token.value ≡ token.now }
        ensures reader { result.reader.value ≡ reader.now }
        ensures writer { result.writer.value ≡ writer.now }
        ensures sink { result.sink.value ≡ sink.now }
    {
        Moment {
            token: Snapshot::of(token),
            reader: Snapshot::of(reader),
            writer: Snapshot::of(writer),
            sink: Snapshot::of(sink),
        }
    }
}

/// A connection that was served: its kind, its limit, its result, and the moments before and after.
#[derive(Drop)]
pub struct Visit<T, U, I, O, L> {
    pub kind: Kind,
    pub bound: u32,
    pub result: Result<(), Fault>,
    pub before: Moment<T, I, O, L>,
    pub after: Moment<U, I, O, L>,
}

/// Values that stand for a connection that was served.
pub trait Visited {
    ghost use Rattle.sm_account.specs.Served.{Served};

    ghost served: { Self → Served };
}

impl<T: Holds, U: Holds, I: Read, O: Write, L: AuditSink> Visited for Visit<T, U, I, O, L> {
    ghost use Rattle.std.specs.Prelude.{◌-◌};
    ghost use Rattle.sm_engine.specs.Counts.{calls_of, inner_of};
    ghost use Rattle.sm_account.specs.Served.{visit};

    ghost served = { λ v. visit v.kind v.result v.bound (calls_of v.after.reader.value - calls_of v.before.reader.value)
        (T.knows v.before.token.value) (U.knows v.after.token.value)
        (L.given v.before.sink.value) (L.given v.after.sink.value)
        (I.remaining (inner_of v.before.reader.value)) (I.remaining (inner_of v.after.reader.value))
        (O.contents (inner_of v.before.writer.value)) (O.contents (inner_of v.after.writer.value)) };
}
