//! Clients' sessions.

ghost use Rattle.std.specs.Prelude.{◌≡◌};
ghost use Rattle.sm_history.specs.declared.by.By.TheVariants.{Manager, Client};
ghost use Rattle.sm_history.specs.Tokens.{token};

use crate::actor::Actor;
use crate::registry::Naming;
use crate::seat::Seat;
use sm_values::{ClientId, drop_fields};
use std::marker::Model;

/// A connected client's token. It can't be copied, and serves the door that made it. A session that is dropped without
/// `Door::die` stays a live client until the door ends.
pub struct Session<J: Naming> {
    pub(crate) client: ClientId,
    pub(crate) actor: Actor<J>,
}

impl<J: Naming> Drop for Session<J> {
    fn drop(self) {
        drop_fields!(self: client, actor);
    }
}

impl<J: Naming> Model for Session<J> {
    ghost use Rattle.std.specs.Prelude.{◌≡◌};
    ghost use Rattle.sm_history.specs.declared.by.By.TheVariants.{Client};
    ghost use Rattle.sm_history.specs.Tokens.{Knows};

    ghost Value = { Knows };

    ghost view = { λ s. s.actor };

    ghost invariant = { λ s. s.actor.by ≡ Client s.client };
}

impl<J: Naming> Session<J> {
    /// Returns the client's number.
    pub fn client(&self) -> ClientId
        ensures { self.now.by ≡ Client result }
    {
        self.client
    }

    /// Returns the free seat of a client that has died.
    pub(crate) fn into_seat(self) -> Seat<J>
        ensures { result ≡ token Manager self.seen self.reads }
    {
        let Session { client: _, actor } = self;
        Seat { actor }
    }
}
