//! Free seats.

ghost use Rattle.std.specs.Prelude.{◌≡◌};
ghost use Rattle.sm_history.specs.declared.by.By.TheVariants.{Manager, Client};
ghost use Rattle.sm_history.specs.Histories.{turn_of};
ghost use Rattle.sm_history.specs.Tokens.{token};

use crate::actor::Actor;
use crate::registry::Naming;
use crate::session::Session;
use sm_history::By;
use sm_values::ClientId;
use std::marker::Model;

/// A free seat for a client. It can't be copied, and serves the door that made it. Contracts see it as a token of the
/// manager, because the manager connects clients.
pub struct Seat<J: Naming> {
    pub(crate) actor: Actor<J>,
}

impl<J: Naming> Drop for Seat<J> {
    fn drop(self) {
        let Seat { actor: _ } = self;
    }
}

impl<J: Naming> Model for Seat<J> {
    ghost use Rattle.sm_history.specs.declared.by.By.TheVariants.{Manager};
    ghost use Rattle.sm_history.specs.Tokens.{Knows, token};

    ghost Value = { Knows };

    ghost view = { λ s. token Manager s.actor.seen s.actor.reads };
}

impl<J: Naming> Seat<J> {
    /// Makes the session of a client that made `turn` changes.
    pub(crate) fn into_session(self, client: ClientId, turn: u64) -> Session<J>
        requires { turn ≡ turn_of self.seen.history (Client client) }
        ensures { result ≡ token (Client client) self.seen self.reads }
    {
        let Seat { actor } = self;
        let actor = actor.passed(By::Client(client), turn);
        Session { client, actor }
    }
}
