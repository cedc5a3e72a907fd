//! Takes replies apart.

ghost use Rattle.std.specs.Prelude.{◌≡◌, MatchResult, MatchOption};
ghost use Rattle.sm_history.specs.Verdict.{is_die};
ghost use Rattle.sm_history.specs.declared.outcome.Outcome.TheVariants.{Connected, Died, Reloaded};
ghost use Rattle.sm_history.specs.declared.reply.Reply.TheVariants.{Done, Refused};
ghost use Rattle.sm_history.specs.PossibleReplies.{moves, ConnectReply, DeathReply, InstallReply};
ghost use Rattle.sm_history.specs.PossibleReplies.{OfConnect, OfDeath, OfInstall};

use crate::{Event, Failure, Outcome, Refusal, Reply};
use sm_values::ClientId;

/// Returns whether the actor's token is to see the history that answered: not if an allocation failed, which leaves the
/// token as it is, and not after `NotYours`, which says nothing of a history.
pub fn moves(reply: &Reply) -> bool
    ensures { result ≡ moves reply.now }
{
    !matches!(
        reply,
        Reply::Refused(Refusal::Memory | Refusal::Failed(Failure::NotYours))
    )
}

/// Returns whether the event is a client's death, which ends its session.
pub fn is_death(event: &Event) -> bool
    ensures { result ≡ is_die event.now }
{
    matches!(event, Event::Die)
}

/// Returns the number of the client that was connected, or why it wasn't: `TooManyClients`, `JournalFull` or `Memory`.
pub fn connected(reply: Reply) -> Result<ClientId, Refusal>
    requires { ConnectReply reply }
    ensures { MatchResult result (λ c. reply ≡ Done (Connected c)) (λ r. (reply ≡ Refused r) × OfConnect r) }
{
    match reply {
        Reply::Done(Outcome::Connected(client)) => Ok(client),
        Reply::Refused(refusal) => Err(refusal),
        _ => unreachable!(),
    }
}

/// Returns why a client hasn't died (`OutOfTurn`, `NotConnected` or `Memory`), or `None` if it has.
pub fn died(reply: Reply) -> Option<Refusal>
    requires { DeathReply reply }
    ensures { MatchOption result (reply ≡ Done Died) (λ r. (reply ≡ Refused r) × OfDeath r) }
{
    match reply {
        Reply::Done(Outcome::Died) => None,
        Reply::Refused(refusal) => Some(refusal),
        _ => unreachable!(),
    }
}

/// Returns the version of the policy that is in force now, or why it wasn't set: `OutOfTurn`, `VersionMoved`,
/// `JournalFull` or `Memory`.
pub fn installed(reply: Reply) -> Result<u64, Refusal>
    requires { InstallReply reply }
    ensures { MatchResult result (λ v. reply ≡ Done (Reloaded v)) (λ r. (reply ≡ Refused r) × OfInstall r) }
{
    match reply {
        Reply::Done(Outcome::Reloaded(version)) => Ok(version),
        Reply::Refused(refusal) => Err(refusal),
        _ => unreachable!(),
    }
}
