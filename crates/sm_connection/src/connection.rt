//! What a connection's answers promise.

use crate::answered::Answered;
use crate::command::Command;
use crate::response::Response;

/// A connection at the door, which holds an `S` there, with what its answers and their audit records promise of the
/// histories that are seen.
pub trait Connection<S> {
    ghost use Rattle.std.specs.Prelude.{List};
    ghost use Rattle.sm_history.specs.declared.records.Record.{Record};
    ghost use Rattle.sm_connection.specs.declared.response.Response.{Response};
    ghost use Rattle.sm_connection.specs.declared.command.Command.{Command};

    // A connection that holds this may answer the command so, with these audit records, and then holds that.
    ghost gives: { S → Command → Response → List Record → S → Type 0 };

    /// Answers a command. The answer to a client's death is ignored.
    fn answer(&self, held: &mut S, command: Command) -> Answered
        ensures { gives held.old command result.response result.records.items held.new };
}
