//! What all violations are, as laws.

ghost use Rattle.std.specs.Prelude.{◌≡◌, ◌<◌, ◌∷◌, ◌&&◌, ℕ, List, [], Ok, Err, length, slice_get, true};
ghost use Rattle.sm_ruletext.specs.declared.rule.Rule.{Rule as TheRule};
ghost use Rattle.sm_ruletext.specs.declared.statement.RuleKind.TheVariants.{Allow, Neverallow};
ghost use Rattle.sm_ruletext.specs.declared.statement.Statement.{Statement as TheStatement};
ghost use Rattle.sm_types.specs.Denoting.{types};
ghost use Rattle.sm_types.specs.Names.{at};
ghost use Rattle.sm_rules.specs.Access.{covers};
ghost use Rattle.sm_rules.specs.Keeping.{class_at, perm_at, rules_in};
ghost use Rattle.sm_policy.specs.Preparing.{prepared};
ghost use Rattle.sm_policy.specs.Violating.{first_violation};
ghost use Rattle.sm_policy.specs.declared.fault.PolicyFault.TheVariants.{Neverallow as Broken};
ghost use Rattle.sm_policy.specs.declared.violation.Violation.{Violation as TheViolation};
ghost use Rattle.sm_violations.specs.Laws.{IsIn, IsTrueOf};
ghost use Rattle.sm_violations.specs.Listing.{violations, violations_in};

/// The first of all violations is the first violation, by which a policy is refused.
pub fn first_of_all()
    ensures first { (policy : List TheStatement) → slice_get (violations policy) 0 ≡ first_violation policy }
    ensures refused { (rules contexts : List ℕ) (v : TheViolation) → prepared rules contexts ≡ Err (Broken v)
        → (more : List TheViolation) × (violations_in rules ≡ Ok (v ∷ more)) }
{}

/// Each violation is one: its two rules both cover its access.
pub fn each_is_true()
    ensures { (policy : List TheStatement) (v : TheViolation) → IsIn v (violations policy) → IsTrueOf policy v }
{}

/// Each neverallow rule has a violation by each allow rule that covers something that it covers.
pub fn each_clash_is_told()
    ensures { (policy : List TheStatement) (never allow : ℕ × TheRule) (b s t : ℕ)
        → IsIn never (rules_in Neverallow policy) → IsIn allow (rules_in Allow policy)
        → b < 7 → s < length (types policy) → t < length (types policy)
        → (covers policy (at (types policy) s) (at (types policy) t) (class_at b) (perm_at b) allow.1
        && covers policy (at (types policy) s) (at (types policy) t) (class_at b) (perm_at b) never.1) ≡ true
        → (v : TheViolation) × IsIn v (violations policy) × (v.never_line ≡ never.0) × (v.allow_line ≡ allow.0) }
{}
