//! A client's slot at the door, with or without a client.

ghost use Rattle.std.specs.Prelude.{◌≡◌, MatchResult};
ghost use Rattle.sm_values.specs.declared.number.ClientId.{ClientId};
ghost use Rattle.sm_history.specs.declared.by.By.TheVariants.{Manager, Client};

use crate::registry::Naming;
use crate::seat::Seat;
use crate::session::Session;
use std::marker::Model;

/// A client's slot at the door, with or without a client: what a server keeps for a connection that may have sent
/// nothing yet. Contracts see it as the free seat or the session of which it was made.
pub struct SeatOrSession<J: Naming> {
    held: Result<Session<J>, Seat<J>>,
}

impl<J: Naming> Drop for SeatOrSession<J> {
    fn drop(self) {
        let SeatOrSession { held: _ } = self;
    }
}

impl<J: Naming> Model for SeatOrSession<J> {
    ghost use Rattle.std.specs.Prelude.{◌≡◌, MatchResult};
    ghost use Rattle.sm_values.specs.declared.number.ClientId.{ClientId};
    ghost use Rattle.sm_history.specs.declared.by.By.TheVariants.{Manager, Client};
    ghost use Rattle.sm_history.specs.Tokens.{Knows};
    ghost use Rattle.sm_door.specs.SeatsOrSessions.{sits};

    ghost Value = { Knows };

    ghost view = { λ c. sits c.held };

    ghost invariant = { λ c. MatchResult c.held (λ session. (client : ClientId) × (session.by ≡ Client client))
        (λ seat. seat.by ≡ Manager) };
}

impl<J: Naming> SeatOrSession<J> {
    /// Makes a slot without a client.
    pub fn of_seat(seat: Seat<J>) -> SeatOrSession<J>
        ensures same { result ≡ seat }
        ensures by { seat.by ≡ Manager }
    {
        let _ = &seat.actor;
        SeatOrSession { held: Err(seat) }
    }

    /// Makes a slot with a client's session.
    pub fn of_session(session: Session<J>) -> SeatOrSession<J>
        ensures { result ≡ session }
    {
        let _ = &session.client;
        SeatOrSession { held: Ok(session) }
    }

    /// Returns the session of its client, or the free seat if it has no client.
    pub fn into_session(self) -> Result<Session<J>, Seat<J>>
        ensures { MatchResult result (λ session. (session ≡ self) × ((client : ClientId) × (self.by ≡ Client client)))
            (λ seat. (seat ≡ self) × (self.by ≡ Manager)) }
    {
        let SeatOrSession { held } = self;
        held
    }
}
