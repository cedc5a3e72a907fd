//! Tokens of connections.

use sm_door::{Admin, Naming, Seat, SeatOrSession};

/// Tokens that a connection holds at the door.
pub trait Holds {
    ghost use Rattle.sm_history.specs.Tokens.{Knows};

    ghost knows: { Self → Knows };
}

impl<J: Naming> Holds for Seat<J> {
    ghost knows = { λ t. t };
}

impl<J: Naming> Holds for SeatOrSession<J> {
    ghost knows = { λ t. t };
}

impl<J: Naming> Holds for Admin<J> {
    ghost knows = { λ t. t };
}
