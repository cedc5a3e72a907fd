//! Administrators' tokens.

ghost use Rattle.std.specs.Prelude.{◌≡◌};
ghost use Rattle.sm_history.specs.declared.by.By.TheVariants.{Admin as TheAdmin};
ghost use Rattle.sm_history.specs.BookOrder.{Begins, IsLawfulBook};

use crate::actor::Actor;
use crate::registry::Naming;
use sm_values::{AdminId, drop_fields};
use std::marker::Model;

/// An administrator's token. It can't be copied, and serves the door that made it.
pub struct Admin<J: Naming> {
    /// The administrator's number, which only the invariant reads.
    number: AdminId,
    pub(crate) actor: Actor<J>,
}

impl<J: Naming> Drop for Admin<J> {
    fn drop(self) {
        drop_fields!(self: number, actor);
    }
}

impl<J: Naming> Model for Admin<J> {
    ghost use Rattle.std.specs.Prelude.{◌≡◌};
    ghost use Rattle.sm_history.specs.declared.by.By.TheVariants.{Admin as TheAdmin};
    ghost use Rattle.sm_history.specs.Tokens.{Knows};

    ghost Value = { Knows };

    ghost view = { λ s. s.actor };

    ghost invariant = { λ s. s.actor.by ≡ TheAdmin s.number };
}

impl<J: Naming> Admin<J> {
    /// Makes the token of an administrator.
    pub(crate) fn new(number: AdminId, actor: Actor<J>) -> Admin<J>
        requires { actor.by ≡ TheAdmin number }
        ensures { result ≡ actor }
    {
        Admin { number, actor }
    }

    /// The history that it has seen is lawful, and begins with that of its door's opening.
    pub fn knows_opening(&self)
        ensures lawful { IsLawfulBook self.now.seen }
        ensures begins { Begins self.now.seen J.opening }
    {
        let _ = self.actor.due();
    }
}
