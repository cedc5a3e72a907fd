//! A desk that holds one service manager.

use super::acts::{ADMIN, Act, event, opened_under};
use sm_connection::{Command, Desk, Response};
use sm_core::Manager;
use sm_history::{By, Event, Failure, Outcome, Refusal, Reply};
use sm_policy::Prepared;
use sm_values::{ClientId, Identity, drop_fields};
use sm_wire::Request;
use std::alloc::Global;
use std::process::Abort;

/// A desk that holds one service manager, for one connection after another.
pub struct ManagerDesk {
    alloc: Global,
    manager: Manager,
    /// The client that the connection made, until it has died.
    pub client: Option<ClientId>,
    /// How often it was asked.
    pub asked: u32,
    /// How often it was told of a client's death.
    pub deaths: u32,
}

impl Drop for ManagerDesk {
    fn drop(self) {
        drop_fields!(self: alloc, manager, client, asked, deaths);
    }
}

impl ManagerDesk {
    /// Opens a manager under this policy.
    pub fn open(rt: &impl Abort, alloc: Global, policy: &Prepared) -> ManagerDesk {
        let policy = policy.share().ok().expect(rt, "memory");
        ManagerDesk {
            alloc,
            manager: opened_under(rt, alloc, policy, 1000),
            client: None,
            asked: 0,
            deaths: 0,
        }
    }

    /// Whether this is done for an actor beside the connections.
    pub fn does(&mut self, rt: &impl Abort, by: By, act: Act) -> bool {
        matches!(&self.step(by, event(rt, self.alloc, act)), Reply::Done(_))
    }

    // An actor's event, at the turn that the actor has.
    fn step(&mut self, by: By, event: Event) -> Reply {
        let turn = self.manager.turn(by);
        self.manager.step(by, turn, event).0
    }

    // Whose connection it is.
    fn by(&self) -> By {
        match self.client {
            Some(client) => By::Client(client),
            None => ADMIN,
        }
    }

    fn change(&mut self, event: Event) -> Response {
        let by = self.by();
        let reply = self.step(by, event);
        if matches!(&reply, Reply::Done(Outcome::Died)) {
            self.client = None;
        }
        Response::Replied(reply)
    }

    fn hello(&mut self, who: Identity) -> Response {
        self.asked = self.asked.saturating_add(1);
        let reply = self.step(By::Manager, Event::Connect(who));
        if let Reply::Done(Outcome::Connected(client)) = &reply {
            self.client = Some(*client);
        }
        Response::Replied(reply)
    }

    fn line(&mut self, request: Request) -> Response {
        self.asked = self.asked.saturating_add(1);
        match request {
            Request::Change(_, event) => self.change(event),
            Request::Look(_, query) => Response::Replied(self.manager.look(self.by(), query)),
            Request::Denials => self.denials(),
            Request::Seal => Response::Replied(self.seal()),
            _ => Response::Replied(Reply::Refused(Refusal::Failed(Failure::NotYours))),
        }
    }

    fn die(&mut self) -> Response {
        self.deaths = self.deaths.saturating_add(1);
        match self.client {
            Some(_) => self.change(Event::Die),
            None => Response::Replied(Reply::Refused(Refusal::Failed(Failure::NotConnected))),
        }
    }

    fn seal(&mut self) -> Reply {
        match self.manager.seal() {
            Ok(segment) => Reply::Sealed {
                number: segment.number(),
                length: segment.history_length(),
            },
            Err(refusal) => Reply::Refused(refusal),
        }
    }

    fn denials(&self) -> Response {
        match self.manager.records() {
            Ok(records) => Response::Denied(records),
            Err(_) => Response::Replied(Reply::Refused(Refusal::Memory)),
        }
    }
}

impl Desk for ManagerDesk {
    ghost answers = { λ _ _ _ _. Unit {0} };

    fn answer(&mut self, command: Command) -> Response {
        match command {
            Command::Hello(who) => self.hello(who),
            Command::Line(request) => self.line(request),
            Command::Install { expected, prepared } => {
                self.asked = self.asked.saturating_add(1);
                self.change(Event::Reload { expected, prepared })
            }
            Command::Death => self.die(),
        }
    }
}
