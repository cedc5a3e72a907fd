//! The state of a session.

ghost use Rattle.std.specs.Prelude.{◌≡◌, ◌++◌, [], OnOk, false, if◌then◌else◌};
ghost use Rattle.sm_wire.specs.declared.item.Item.TheVariants.{Asked, Policy};
ghost use Rattle.sm_connection.specs.Desks.{DeskAnswers};
ghost use Rattle.sm_connection.specs.Sessions.{is_asked, Asks, said_to};

use crate::command::Command;
use crate::desk::Desk;
use crate::response::Response;
use sm_history::{Outcome, Reply, is_death};
use sm_policy::Prepared;
use sm_wire::{Item, Kind, PolicyTexts, Request, push_malformed};
use std::alloc::{AllocError, Global};

/// A desk with the state of a session.
pub struct SessionState<D> {
    /// The kind of the session's peer.
    pub kind: Kind,
    pub desk: D,
    /// Whether a `hello` was answered by a client's number.
    pub connected: bool,
    /// Whether a `bye` was answered by `bye`.
    pub over: bool,
}

impl<D: Desk> SessionState<D> {
    /// Returns whether the desk will be asked this item.
    #[tactic(auto, unfolding(crate::specs::Sessions::client_may, crate::specs::Sessions::admin_may))]
    pub fn will_ask(&self, item: &Item) -> bool
        ensures { result ≡ (if self.now.over then false else is_asked self.now.kind self.now.connected item.now) }
    {
        if self.over {
            return false;
        }
        match (self.kind, item) {
            (Kind::Client, Item::Asked(Request::Hello(_))) => !self.connected,
            (Kind::Client, Item::Asked(Request::Change(_, _) | Request::Look(_, _))) =>
                self.connected,
            (Kind::Admin, Item::Asked(Request::Look(_, _) | Request::Denials | Request::Seal)) =>
                true,
            (Kind::Admin, Item::Policy(_)) => true,
            _ => false,
        }
    }

    /// Appends the answer to an item that isn't passed to the desk.
    pub fn turn_down(&self, item: &Item, replies: &mut Vec<u8>) -> Result<(), AllocError>
        ensures { OnOk result (replies.new.items ≡ replies.old.items ++ (if self.now.over then [] else said_to item.now)) }
    {
        if self.over {
            return Ok(());
        }
        match item {
            Item::LineTooLong => replies.extend_from_slice(b"fault long\n"),
            _ => push_malformed(replies),
        }
    }

    /// Asks the desk once, and records whether there is a client now, or its client has died.
    #[tactic(auto, unfolding(crate::specs::Sessions::is_connected, crate::specs::Sessions::is_died))]
    pub fn ask(&mut self, request: Request) -> Response
        requires can { D.can_answer self.old.desk }
        ensures can { D.can_answer self.new.desk }
        ensures asks { Asks (DeskAnswers D.answers) self.old (Asked request) result self.new }
    {
        match request {
            Request::Hello(who) => {
                let response = self.desk.answer(Command::Hello(who));
                let done = matches!(
                    &response,
                    Response::Replied(Reply::Done(Outcome::Connected(_)))
                );
                self.connected = done | self.connected;
                response
            }
            Request::Change(client, event) => {
                let dies = is_death(&event);
                let request = Request::Change(client, event);
                let response = self.desk.answer(Command::Line(request));
                let died = matches!(&response, Response::Replied(Reply::Done(Outcome::Died)));
                self.over = (dies & died) | self.over;
                response
            }
            _ => self.desk.answer(Command::Line(request)),
        }
    }

    /// Has the desk install the policy of these files, if it isn't refused.
    pub fn reload(&mut self, alloc: Global, texts: &PolicyTexts) -> Response
        requires can { D.can_answer self.old.desk }
        ensures can { D.can_answer self.new.desk }
        ensures asks { Asks (DeskAnswers D.answers) self.old (Policy texts.now) result self.new }
    {
        match Prepared::from_texts(alloc, texts.rules(), texts.contexts()) {
            Ok(prepared) => self.desk.answer(Command::Install {
                expected: texts.expected(),
                prepared,
            }),
            Err(fault) => Response::PolicyRefused(fault),
        }
    }
}
