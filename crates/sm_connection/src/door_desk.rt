//! A session's desk at a door.

ghost use Rattle.std.specs.Prelude.{◌≡◌};
ghost use Rattle.sm_connection.specs.Held.{Puts, holding};

use crate::answered::Answered;
use crate::audit_sink::AuditSink;
use crate::command::Command;
use crate::connection::Connection;
use crate::desk::Desk;
use crate::monitor::Monitor;
use crate::owned::{command_bytes, outcome_bytes};
use crate::response::Response;
use crate::supervisor::Supervisor;
use sm_history::{Outcome, Refusal, Reply};
use sm_values::ClientId;

/// When a connection's desk calls the function beside it.
#[derive(Clone, Copy)]
pub enum Occasion {
    /// A client was connected.
    Connected(ClientId),
    /// A delivery was taken.
    Taken,
    /// There was no delivery to take.
    FoundEmpty,
    /// Another change was made, or one was refused because no slot was free or an allocation failed.
    Changed,
    /// Anything else was answered.
    Answered,
}

fn occasion_of(response: &Response) -> Occasion {
    match response {
        Response::Replied(Reply::Done(Outcome::Connected(client))) => Occasion::Connected(*client),
        Response::Replied(Reply::Done(Outcome::Taken(_))) => Occasion::Taken,
        Response::Replied(Reply::Refused(Refusal::Empty)) => Occasion::FoundEmpty,
        Response::Replied(Reply::Done(_)) => Occasion::Changed,
        Response::Replied(Reply::Refused(Refusal::JournalFull)) => Occasion::Changed,
        Response::Replied(Reply::Refused(Refusal::Memory)) => Occasion::Changed,
        _ => Occasion::Answered,
    }
}

/// A session's desk at a door: it lets the connection answer, shows the monitor each answer, gives its audit records to
/// the sink, and then calls a function.
#[derive(Drop)]
pub struct DoorDesk<'a, C, S, B, H, L> {
    connection: &'a C,
    held: S,
    tend: B,
    monitor: &'a Monitor<'a, H>,
    sink: L,
}

impl<'a, C, S, B, H, L> DoorDesk<'a, C, S, B, H, L>
where
    C: Connection<S>,
    B: FnMut(Occasion),
    H: Supervisor,
    L: AuditSink,
{
    /// Makes the desk of a new session of a connection that holds this.
    pub fn new(
        connection: &'a C,
        held: S,
        tend: B,
        monitor: &'a Monitor<'a, H>,
        sink: L,
    ) -> DoorDesk<'a, C, S, B, H, L>
        ensures held { result.held ≡ held }
        ensures tend { result.tend ≡ tend }
        ensures sink { result.sink ≡ sink }
    {
        DoorDesk {
            connection,
            held,
            tend,
            monitor,
            sink,
        }
    }

    /// Returns what the connection holds, and the sink.
    pub fn into_parts(self) -> (S, L)
        ensures held { result.0 ≡ self.entry.held }
        ensures sink { result.1 ≡ self.entry.sink }
    {
        let DoorDesk {
            connection: _,
            held,
            tend: _,
            monitor: _,
            sink,
        } = self;
        (held, sink)
    }
}

impl<'a, C: Connection<S>, S, B: FnMut(Occasion), H: Supervisor, L: AuditSink> Desk
    for DoorDesk<'a, C, S, B, H, L> {
    ghost can_answer = { λ desk. B.IsAlwaysCallable desk.tend };

    ghost answers = { λ old command response new. Puts C.gives (holding old.held (L.given old.sink)) command response
        (holding new.held (L.given new.sink)) };

    fn answer(&mut self, command: Command) -> Response {
        let asked = command_bytes(&command);
        let Answered { response, records } = self.connection.answer(&mut self.held, command);
        match &response {
            Response::Replied(Reply::Done(outcome)) => {
                self.monitor
                    .count(asked.saturating_add(outcome_bytes(outcome)));
            }
            Response::Replied(Reply::Refused(Refusal::JournalFull)) => self.monitor.refuse(),
            Response::Replied(Reply::Refused(Refusal::Memory)) => self.monitor.run_short(),
            _ => {}
        }
        self.sink.give(&records);
        (self.tend)(occasion_of(&response));
        response
    }
}
