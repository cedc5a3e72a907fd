//! Requests.

ghost use Rattle.std.specs.Prelude.{◌≡◌};
ghost use Rattle.sm_history.specs.declared.reply.Reply.{Reply};
ghost use Rattle.sm_wire.specs.Reading.{ReadsAs};
ghost use Rattle.sm_wire.specs.Grammar.{request_of};
ghost use Rattle.sm_wire.specs.Spelling.{ReadsSpelled};
ghost use Rattle.sm_wire.specs.Replies.{visible_reply, told_in};

use crate::grammar::request;
use crate::kind::Kind;
use crate::read_error::ReadError;
use crate::telling::Telling;
use sm_history::{Event, Query};
use sm_values::{ClientId, Identity};
use std::alloc::Global;

/// The request of a line.
#[derive(Drop)]
pub enum Request {
    /// A process connects.
    Hello(Identity),
    /// A client makes a change. Only a script names the client.
    Change(Option<ClientId>, Event),
    /// A client or an administrator makes a query. Only a script names the client; the administrator has no number.
    Look(Option<ClientId>, Query),
    /// The administrator replaces the policy, if it has the expected version, by that of the two files after the line,
    /// which have these sizes in bytes.
    Reload {
        expected: u64,
        rules: u32,
        contexts: u32,
    },
    /// The administrator asks for the last denials.
    Denials,
    /// The administrator closes the open segment of the journal.
    Seal,
}

impl Request {
    /// Parses a line of this kind, given without its newline.
    pub fn read(alloc: Global, kind: Kind, line: &[u8]) -> Result<Request, ReadError>
        ensures reads { ReadsAs result (request_of kind line.now) }
        ensures spelled { ReadsSpelled kind line.now result }
    {
        request(alloc, kind, line)
    }

    /// Returns how much of the reply is visible to whoever asked.
    pub fn telling(&self) -> Telling
        ensures { (reply : Reply) → visible_reply self.now reply ≡ told_in result reply }
    {
        match self {
            Request::Change(_, Event::Get { name: _ }) => Telling::ToGet,
            _ => Telling::Whole,
        }
    }
}
