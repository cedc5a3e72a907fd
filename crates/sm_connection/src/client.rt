//! A client's connection at the door.

ghost use Rattle.std.specs.Prelude.{◌≡◌, MatchBool, []};
ghost use Rattle.sm_history.specs.Tokens.{Knows};
ghost use Rattle.sm_history.specs.Verdict.{is_die};
ghost use Rattle.sm_connection.specs.declared.response.Response.TheVariants.{Replied};
ghost use Rattle.sm_connection.specs.Connections.{ClientGives, GivesHello, GivesLook, GivesChange, GivesDeath};
ghost use Rattle.sm_connection.specs.Connections.{GivesDeathAfterTries, Greets, DiesAtDoor, Reads, TakesSession};

use crate::answered::Answered;
use crate::command::Command;
use crate::connection::Connection;
use crate::refusals::{not_connected, not_yours};
use crate::response::Response;
use sm_door::{Door, Naming, Seat, SeatOrSession, Session};
use sm_history::{Event, Gate, Outcome, Query, Refusal, Reply, is_death};
use sm_values::{Identity, drop_fields};
use sm_wire::Request;
use std::alloc::Global;
use std::sync::Wait;

/// How often a client's death is tried at the end of its connection, before the last time. Only a failed allocation
/// refuses it, which may pass.
const TRIES: u32 = 15;

/// A client's connection at the door.
pub struct Client<'a, J: Naming, G: Gate, R> {
    rt: &'a R,
    alloc: Global,
    door: &'a Door<J, G>,
}

impl<'a, J: Naming, G: Gate, R> Drop for Client<'a, J, G, R> {
    fn drop(self) {
        drop_fields!(self: rt, alloc, door);
    }
}

impl<'a, J: Naming, G: Gate + Drop, R: Wait> Client<'a, J, G, R> {
    /// Makes a connection at this door.
    pub fn new(rt: &'a R, alloc: Global, door: &'a Door<J, G>) -> Client<'a, J, G, R> {
        Client { rt, alloc, door }
    }

    fn hello(&self, held: &mut Option<SeatOrSession<J>>, who: Identity) -> Reply
        ensures { GivesHello held.old who result held.new }
    {
        let Some(token) = held.take() else {
            return Reply::Refused(Refusal::TooManyClients);
        };
        match token.into_session() {
            Ok(session) => {
                *held = Some(SeatOrSession::of_session(session));
                not_yours()
            }
            Err(seat) => self.connect(held, seat, who),
        }
    }

    fn connect(&self, held: &mut Option<SeatOrSession<J>>, seat: Seat<J>, who: Identity) -> Reply
        ensures { (token : Knows) × Greets seat who result token × (held.new ≡ Some token) }
    {
        match self.door.connect(self.rt, seat, who) {
            Ok(session) => {
                let client = session.client();
                *held = Some(SeatOrSession::of_session(session));
                Reply::Done(Outcome::Connected(client))
            }
            Err((refusal, seat)) => {
                *held = Some(SeatOrSession::of_seat(seat));
                Reply::Refused(refusal)
            }
        }
    }

    fn change(&self, held: &mut Option<SeatOrSession<J>>, event: Event) -> Answered
        ensures { (reply : _) × (result.response ≡ Replied reply)
            × MatchBool (is_die event) (GivesDeath held.old reply held.new × (result.records.items ≡ []))
            (GivesChange held.old event reply result.records.items held.new) }
    {
        if is_death(&event) {
            return self.replied(self.die(held));
        }
        let Some(mut session) = session_of(held) else {
            return self.replied(not_connected());
        };
        let (reply, records) = self.door.submit_recorded(self.rt, &mut session, event);
        *held = Some(SeatOrSession::of_session(session));
        let response = Response::Replied(reply);
        Answered { response, records }
    }

    fn look(&self, held: &mut Option<SeatOrSession<J>>, query: Query) -> Answered
        ensures { (reply : _) × (result.response ≡ Replied reply)
            × GivesLook held.old query reply result.records.items held.new }
    {
        let Some(mut session) = session_of(held) else {
            return self.replied(not_connected());
        };
        let answered = self.read(&mut session, query);
        *held = Some(SeatOrSession::of_session(session));
        answered
    }

    fn read(&self, session: &mut Session<J>, query: Query) -> Answered
        ensures { (reply : _) × (result.response ≡ Replied reply)
            × Reads session.old query reply result.records.items (Some session.new) }
    {
        match query {
            Query::List(mask) => {
                let (reply, records) = self.door.list_recorded(session, mask);
                let response = Response::Replied(reply);
                return Answered { response, records };
            }
            Query::Version => return self.replied(self.door.version(session)),
            Query::Explain { .. } => {}
        }
        self.replied(not_yours())
    }

    fn die(&self, held: &mut Option<SeatOrSession<J>>) -> Reply
        ensures { GivesDeath held.old result held.new }
    {
        match session_of(held) {
            Some(session) => self.die_at_door(held, session),
            None => not_connected(),
        }
    }

    fn die_at_door(&self, held: &mut Option<SeatOrSession<J>>, session: Session<J>) -> Reply
        ensures { DiesAtDoor session result held.new }
    {
        match self.door.die(self.rt, session) {
            Ok(seat) => {
                *held = Some(SeatOrSession::of_seat(seat));
                Reply::Done(Outcome::Died)
            }
            Err((refusal, session)) => {
                *held = Some(SeatOrSession::of_session(session));
                Reply::Refused(refusal)
            }
        }
    }

    // The client dies, unless it is dead.
    #[tactic(auto, using(crate::proofs::Growing::still_itself, crate::proofs::Growing::still_tried))]
    fn die_after_tries(&self, held: &mut Option<SeatOrSession<J>>) -> Reply
        ensures { GivesDeathAfterTries held.old result held.new }
    {
        for _ in 0..TRIES {
            let reply = self.die(held);
            if !matches!(reply, Reply::Refused(Refusal::Memory)) {
                return reply;
            }
        }
        self.die(held)
    }

    // A reply without records.
    fn replied(&self, reply: Reply) -> Answered
        ensures response { result.response ≡ Replied reply }
        ensures records { result.records.items ≡ [] }
    {
        Answered::plain(self.alloc, Response::Replied(reply))
    }
}

impl<'a, J: Naming, G: Gate + Drop, R: Wait> Connection<Option<SeatOrSession<J>>>
    for Client<'a, J, G, R> {
    ghost gives = { ClientGives };

    fn answer(&self, held: &mut Option<SeatOrSession<J>>, command: Command) -> Answered {
        match command {
            Command::Hello(who) => self.replied(self.hello(held, who)),
            Command::Line(Request::Change(_, event)) => self.change(held, event),
            Command::Line(Request::Look(_, query)) => self.look(held, query),
            Command::Line(_) => self.replied(not_yours()),
            Command::Install { .. } => self.replied(not_yours()),
            Command::Death => self.replied(self.die_after_tries(held)),
        }
    }
}

/// Takes the session from what is held. A free seat stays.
fn session_of<J: Naming>(held: &mut Option<SeatOrSession<J>>) -> Option<Session<J>>
    ensures { TakesSession held.old result held.new }
{
    match held.take()?.into_session() {
        Ok(session) => Some(session),
        Err(seat) => {
            *held = Some(SeatOrSession::of_seat(seat));
            None
        }
    }
}
