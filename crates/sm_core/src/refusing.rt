//! Replies to refused requests.

ghost use Rattle.std.specs.Prelude.{◌≡◌, MatchResult};
ghost use Rattle.sm_history.specs.declared.refusal.Refusal.TheVariants.{Exception as Excepted, Failed};
ghost use Rattle.sm_history.specs.declared.reply.Reply.TheVariants.{Refused};
ghost use Rattle.sm_core.specs.Judging.{out_of_memory, reason_by};
ghost use Rattle.sm_core.specs.Managed.{is_out_of_memory};

use sm_history::{Exception, Failure, Reason, Refusal, Reply, Shared};
use std::alloc::Global;

/// What a check or a judgement returns: its value, or the reply to the request, which makes no change.
pub type Checked<T> = Result<T, Reply>;

/// Returns the reply to a request that is invalid for its actor, or for which there is no room.
pub fn failed(failure: Failure) -> Reply
    ensures { result ≡ Refused (Failed failure) }
{
    Reply::Refused(Refusal::Failed(failure))
}

/// Returns the reply to a call that fails with a Binder exception.
pub fn excepted(exception: Exception) -> Reply
    ensures { result ≡ Refused (Excepted exception) }
{
    Reply::Refused(Refusal::Exception(exception))
}

/// Returns whether a reply is a failed allocation.
pub fn is_memory(reply: &Reply) -> bool
    ensures { result ≡ is_out_of_memory reply.now }
{
    matches!(reply, Reply::Refused(Refusal::Memory))
}

/// Returns why a watcher isn't notified, by the reply to the failed check.
pub fn reason(alloc: Global, reply: Reply) -> Checked<Shared<Reason>>
    ensures { MatchResult result (λ r. (r ≡ reason_by reply) × (reply ≡ out_of_memory → ⊥)) (λ s. s ≡ out_of_memory) }
{
    match reply {
        Reply::Refused(Refusal::Memory) => Err(Reply::Refused(Refusal::Memory)),
        Reply::Refused(Refusal::Denied(denial)) => Ok(Shared::new(alloc, Reason::Denied(denial))?),
        _ => Ok(Shared::new(alloc, Reason::TargetFull)?),
    }
}
