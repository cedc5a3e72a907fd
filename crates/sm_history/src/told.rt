//! The visible part of a reply.

ghost use Rattle.std.specs.Prelude.{◌≡◌};
ghost use Rattle.sm_history.specs.Told.{is_hidden, is_hidden_denial};

use crate::denial::Denial;
use crate::refusal::Refusal;
use crate::reply::Reply;
use sm_values::{Class, Perms};

/// Returns whether a Get is answered that nothing was found in place of this reply: `find` was denied, or the clause on
/// isolated processes failed (`ServiceManager.cpp`, `tryGetService`). Replies to other events are never hidden.
pub fn is_hidden(reply: &Reply) -> bool
    ensures { result ≡ is_hidden reply.now }
{
    match reply {
        Reply::Refused(Refusal::Denied(denial)) => is_hidden_denial(denial.get()),
        _ => false,
    }
}

fn is_hidden_denial(denial: &Denial) -> bool
    ensures { result ≡ is_hidden_denial denial.now }
{
    match denial {
        Denial::Rule {
            source: _,
            target: _,
            class,
            perm,
        } => matches!(*class, Class::ServiceManager) && perm.0 == Perms::FIND.0,
        Denial::App(_) => false,
        Denial::Isolated(_) => true,
    }
}
