//! Common parts of sessions and administrators' tokens.
ghost use Rattle.sm_history.specs.declared.query.Query.TheVariants.{Version};
ghost use Rattle.sm_history.specs.Promises.{Queried};
ghost use Rattle.sm_history.specs.Tokens.{Knows};

use crate::admin::Admin;
use crate::registry::Naming;
use crate::session::Session;
use sm_history::{Query, Reply};

/// Tokens that can ask for the version of the policy.
pub trait Token {
    ghost knows: { Self → Knows };

    /// Returns the version, from the published shared view. Never blocks.
    fn read_version(&mut self) -> Reply
        ensures { Queried (knows self.old) (knows self.new) Version result };
}

impl<J: Naming> Token for Session<J> {
    ghost knows = { λ s. s };

    fn read_version(&mut self) -> Reply {
        self.actor.read(Query::Version)
    }
}

impl<J: Naming> Token for Admin<J> {
    ghost knows = { λ s. s };

    fn read_version(&mut self) -> Reply {
        self.actor.read(Query::Version)
    }
}
