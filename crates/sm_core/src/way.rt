//! What passes between two processes without a record.

ghost use Rattle.std.specs.Prelude.{◌≡◌};
ghost use Rattle.sm_values.specs.Contexts.{type_of};
ghost use Rattle.sm_values.specs.declared.identity.Identity.{Identity};
ghost use Rattle.sm_policy.specs.Policy.{type_index};
ghost use Rattle.sm_core.specs.Ways as spec;
ghost use Rattle.sm_core.specs.Ways.{way_under};

use sm_policy::Prepared;
use sm_values::{Class, Perms};

/// Whether a policy grants Binder's `call` and `transfer` from one process to another without an audit record.
#[derive(Clone, Copy)]
pub struct Way {
    pub call: bool,
    pub transfer: bool,
}

/// Returns whether a policy grants a permission of Binder, between types of these numbers, without an audit record.
#[tactic(auto, unfolding(crate::specs::Ways::is_quiet))]
fn is_quiet(policy: &Prepared, source: Option<u16>, target: Option<u16>, perm: Perms) -> bool
    ensures { (s t : Identity) → source ≡ type_index policy.now (type_of s.context)
        → target ≡ type_index policy.now (type_of t.context) → result ≡ spec.is_quiet policy.now s t perm }
{
    let made = policy.decide_at(source, target, Class::Binder, perm);
    made.allowed && !made.audited
}

impl Way {
    /// Finds the way between processes whose types have these numbers under a policy.
    #[tactic(auto, unfolding(crate::specs::Ways::way_under))]
    pub fn new(policy: &Prepared, source: Option<u16>, target: Option<u16>) -> Way
        ensures { (s t : Identity) → source ≡ type_index policy.now (type_of s.context)
            → target ≡ type_index policy.now (type_of t.context) → result ≡ way_under policy.now s t }
    {
        Way {
            call: is_quiet(policy, source, target, Perms::CALL),
            transfer: is_quiet(policy, source, target, Perms::TRANSFER),
        }
    }

    /// Returns whether a permission is one of the two, and granted without a record.
    #[inline(always)]
    pub fn grants(&self, perm: Perms) -> bool
        ensures { result ≡ spec.grants self.now perm }
    {
        if perm.0 == Perms::CALL.0 {
            return self.call;
        }
        perm.0 == Perms::TRANSFER.0 && self.transfer
    }
}
