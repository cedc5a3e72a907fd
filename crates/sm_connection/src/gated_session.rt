//! A session that calls its gate at each line.

ghost use Rattle.std.specs.Prelude.{◌≡◌};
ghost use Rattle.sm_connection.specs.Desks.{DeskAnswers, DeskDeath};
ghost use Rattle.sm_connection.specs.Sessions.{AnswersItem, TellsDeath, begins, held_limit, is_over};

use crate::command::Command;
use crate::desk::Desk;
use crate::responses::push_response;
use crate::session_state::SessionState;
use sm_engine::Machine;
use sm_history::{Event, Gate};
use sm_wire::{Item, Kind, Request, Telling};
use std::alloc::{AllocError, Global};
use std::marker::Model;

/// Replies are written once they have this number of bytes.
const HELD_LIMIT: usize = 8192;

/// A session that calls its gate at each line that it passes to the desk.
pub struct GatedSession<'a, D: Desk, G> {
    alloc: Global,
    session_state: SessionState<D>,
    gate: &'a G,
    line: u64,
    // The lines that were asked and whose replies aren't written yet.
    unwritten: Vec<u64>,
}

impl<'a, D: Desk, G> Model for GatedSession<'a, D, G> {
    ghost use Rattle.sm_connection.specs.declared.session_state.SessionState.{SessionState};

    ghost Value = { SessionState D };

    ghost view = { λ g. g.session_state };

    ghost invariant = { λ g. D.can_answer g.session_state.desk };
}

impl<'a, D: Desk, G: Gate> GatedSession<'a, D, G> {
    /// Makes a session before its first line.
    pub fn new(alloc: Global, kind: Kind, desk: D, gate: &'a G) -> GatedSession<'a, D, G>
        requires { D.can_answer desk }
        ensures { result ≡ begins kind desk }
    {
        GatedSession {
            alloc,
            session_state: SessionState {
                kind,
                desk,
                connected: false,
                over: false,
            },
            gate,
            line: 0,
            unwritten: Vec::new(alloc),
        }
    }

    // Lets the gate hold a `take` before it is asked. It isn't held while the client waits for other replies.
    #[inline(always)]
    fn hold_take(&self, request: &Request) {
        if matches!(request, Request::Change(_, Event::Take)) && self.unwritten.len() == 1 {
            self.gate.before_take();
        }
    }

    /// Ends the session: tells the desk of its client's death, if it has one.
    pub fn close(self) -> D
        ensures { TellsDeath (DeskDeath D.answers) self.entry result }
    {
        let GatedSession {
            alloc: _,
            session_state,
            gate: _,
            line: _,
            unwritten: _,
        } = self;
        let SessionState {
            kind: _,
            desk,
            connected,
            over: _,
        } = session_state;
        if !connected {
            return desk;
        }
        let mut desk = desk;
        desk.answer(Command::Death);
        desk
    }
}

impl<'a, D: Desk, G: Gate> Machine for GatedSession<'a, D, G> {
    ghost answers = { AnswersItem (DeskAnswers D.answers) };

    ghost over = { is_over };

    ghost hold_limit = { held_limit };

    fn answer(
        &mut self,
        item: Item,
        replies: &mut Vec<u8>,
        _audit: &mut Vec<u8>,
    ) -> Result<(), AllocError> {
        self.line = self.line.saturating_add(1);
        if !self.session_state.will_ask(&item) {
            return self.session_state.turn_down(&item, replies);
        }
        self.unwritten.push(self.line)?;
        self.gate.enter(self.line);
        match item {
            Item::Asked(request) => {
                self.hold_take(&request);
                let telling = request.telling();
                let response = self.session_state.ask(request);
                push_response(self.alloc, replies, telling, &response)
            }
            Item::Policy(texts) => {
                let response = self.session_state.reload(self.alloc, &texts);
                push_response(self.alloc, replies, Telling::Whole, &response)
            }
            Item::Malformed => unreachable!(),
            Item::LineTooLong => unreachable!(),
        }
    }

    fn is_over(&self) -> bool {
        self.session_state.over
    }

    // Replies are held back until all lines of one read are answered.
    fn hold_limit(&self) -> usize {
        HELD_LIMIT
    }

    #[inline(always)]
    fn written(&mut self) {
        for line in &self.unwritten {
            self.gate.leave(*line);
        }
        self.unwritten.clear();
    }
}
