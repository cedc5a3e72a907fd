//! What a policy is without its unused rules, as laws.

ghost use Rattle.std.specs.Prelude.{◌≡◌, ℕ, List};
ghost use Rattle.sm_values.specs.declared.class.Class.{Class as TheClass};
ghost use Rattle.sm_values.specs.declared.perms.Perms.{Perms as ThePerms};
ghost use Rattle.sm_policy.specs.Policy.{Policy as ThePolicy, decision, written_at};
ghost use Rattle.sm_unused.specs.Removal.{Keep, KeepsUsed, kept};

/// Whichever of the rules with a line of `rule` or `dontaudit` are removed from a policy, each access is granted by the
/// rule of the same line as before, and each decision is the same.
pub fn removal_changes_nothing()
    ensures granted { (policy : ThePolicy) (keep : Keep) (s t : List ℕ) (class : TheClass) (perm : ThePerms)
        → KeepsUsed policy.statements keep → written_at (kept policy keep) s t class perm ≡ written_at policy s t class perm }
    ensures decided { (policy : ThePolicy) (keep : Keep) (s t : List ℕ) (class : TheClass) (perm : ThePerms)
        → KeepsUsed policy.statements keep → decision (kept policy keep) s t class perm ≡ decision policy s t class perm }
{}
