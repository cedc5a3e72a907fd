//! Desks, which answer the commands of a session.

ghost use Rattle.sm_connection.specs.declared.command.Command.{Command};
ghost use Rattle.sm_connection.specs.declared.response.Response.{Response};

use crate::command::Command;
use crate::response::Response;

/// Answers the commands of a session. A session passes each line to it at most once.
pub trait Desk {
    // It may be asked in this state.
    ghost can_answer: { Self → Type 0 } = { λ _. Unit {0} };

    // The command may be answered so, with the desk in this state afterwards.
    ghost answers: { Self → Command → Response → Self → Type 0 };

    /// Answers a command. The answer to `Command::Death` is ignored.
    fn answer(&mut self, command: Command) -> Response
        requires can { can_answer self.old }
        ensures can { can_answer self.new }
        ensures answers { answers self.old command result self.new };
}
