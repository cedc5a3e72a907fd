//! Answers of a connection that don't come from the door.

ghost use Rattle.std.specs.Prelude.{◌≡◌};
ghost use Rattle.sm_history.specs.declared.refusal.Failure.TheVariants.{NotConnected, NotYours};
ghost use Rattle.sm_history.specs.declared.refusal.Refusal.TheVariants.{Failed};
ghost use Rattle.sm_history.specs.declared.reply.Reply.TheVariants.{Refused};

use sm_history::{Failure, Refusal, Reply};

/// Returns the answer to a request that this kind of connection doesn't have.
pub fn not_yours() -> Reply
    ensures { result ≡ Refused (Failed NotYours) }
{
    Reply::Refused(Refusal::Failed(Failure::NotYours))
}

/// Returns the answer to a client that is dead, or never was.
pub fn not_connected() -> Reply
    ensures { result ≡ Refused (Failed NotConnected) }
{
    Reply::Refused(Refusal::Failed(Failure::NotConnected))
}
