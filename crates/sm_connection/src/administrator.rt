//! An administrator's connection at the door.

ghost use Rattle.std.specs.Prelude.{◌≡◌};
ghost use Rattle.sm_connection.specs.Connections.{AdminAnswers, AdminGives, AdminGivesLine, AdminInstalls, AdminReads};
ghost use Rattle.sm_connection.specs.Connections.{AdminSeals};
ghost use Rattle.sm_history.specs.declared.event.Event.TheVariants.{Reload};
ghost use Rattle.sm_wire.specs.declared.request.Request.TheVariants.{Denials};

use crate::answered::Answered;
use crate::command::Command;
use crate::connection::Connection;
use crate::monitor::Monitor;
use crate::refusals::not_yours;
use crate::response::Response;
use crate::supervisor::Supervisor;
use sm_door::{Admin, Door, Naming};
use sm_history::{Gate, Outcome, Query, Reply};
use sm_policy::Prepared;
use sm_values::drop_fields;
use sm_wire::Request;
use std::alloc::Global;
use std::sync::Wait;

/// An administrator's connection at the door, under the token that all connections of administrators use in turn.
pub struct Administrator<'a, J: Naming, G: Gate, H, R> {
    rt: &'a R,
    alloc: Global,
    door: &'a Door<J, G>,
    monitor: &'a Monitor<'a, H>,
}

impl<'a, J: Naming, G: Gate, H, R> Drop for Administrator<'a, J, G, H, R> {
    fn drop(self) {
        drop_fields!(self: rt, alloc, door, monitor);
    }
}

impl<'a, J: Naming, G: Gate + Drop, H: Supervisor, R: Wait> Administrator<'a, J, G, H, R> {
    /// Makes a connection that has sent nothing.
    pub fn new(
        rt: &'a R,
        alloc: Global,
        door: &'a Door<J, G>,
        monitor: &'a Monitor<'a, H>,
    ) -> Administrator<'a, J, G, H, R> {
        Administrator {
            rt,
            alloc,
            door,
            monitor,
        }
    }

    fn response(&self, admin: &mut Admin<J>, command: Command) -> Response
        ensures { AdminAnswers admin.old command result admin.new }
    {
        match command {
            Command::Hello(_) => Response::Replied(not_yours()),
            Command::Line(request) => self.line(admin, request),
            Command::Install { expected, prepared } => {
                Response::Replied(self.install(admin, expected, prepared))
            }
            Command::Death => Response::Replied(not_yours()),
        }
    }

    fn line(&self, admin: &mut Admin<J>, request: Request) -> Response
        ensures { AdminGivesLine admin.old request result admin.new }
    {
        match request {
            Request::Look(_, query) => Response::Replied(self.look(admin, query)),
            Request::Denials => self.denials(admin),
            Request::Seal => Response::Replied(self.seal(admin)),
            _ => Response::Replied(not_yours()),
        }
    }

    fn look(&self, admin: &mut Admin<J>, query: Query) -> Reply
        ensures { AdminReads admin.old query result admin.new }
    {
        match query {
            Query::Version => self.door.version(admin),
            Query::Explain {
                source,
                target,
                class,
                perm,
            } => self.door.explain(admin, source, target, class, perm),
            Query::List(_) => not_yours(),
        }
    }

    fn denials(&self, admin: &mut Admin<J>) -> Response
        ensures { AdminGivesLine admin.old Denials result admin.new }
    {
        match self.door.denials(self.rt, admin) {
            Ok(records) => Response::Denied(records),
            Err(refusal) => Response::Replied(Reply::Refused(refusal)),
        }
    }

    // Closes the open segment, if memory is short by the reserve.
    fn seal(&self, admin: &mut Admin<J>) -> Reply
        ensures { AdminSeals admin.old result admin.new }
    {
        self.monitor.begin_seal(self.rt);
        let reply = self.close_segment(admin);
        self.monitor.keep_reserve(self.rt);
        reply
    }

    // Closes the open segment, and drops it.
    fn close_segment(&self, admin: &mut Admin<J>) -> Reply
        ensures { AdminSeals admin.old result admin.new }
    {
        match self.door.seal(self.rt, admin) {
            Ok(segment) => {
                let length = segment.history_length();
                let number = segment.number();
                self.monitor.sealed(length);
                Reply::Sealed { number, length }
            }
            Err(refusal) => Reply::Refused(refusal),
        }
    }

    fn install(&self, admin: &mut Admin<J>, expected: u64, prepared: Prepared) -> Reply
        ensures { AdminInstalls admin.old (Reload expected prepared) (Response.Replied result) admin.new }
    {
        match self.door.install(self.rt, admin, expected, prepared) {
            Ok(version) => Reply::Done(Outcome::Reloaded(version)),
            Err((refusal, _)) => Reply::Refused(refusal),
        }
    }
}

impl<'a, J: Naming, G: Gate + Drop, H: Supervisor, R: Wait> Connection<Admin<J>>
    for Administrator<'a, J, G, H, R> {
    ghost gives = { AdminGives };

    fn answer(&self, admin: &mut Admin<J>, command: Command) -> Answered {
        Answered::plain(self.alloc, self.response(admin, command))
    }
}
