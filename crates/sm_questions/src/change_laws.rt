//! What the counts of rules that differ add up to, as laws.

ghost use Rattle.std.specs.Prelude.{◌≡◌, ℕ, List, length};
ghost use Rattle.std.specs.List.{flat_map, sum_by};
ghost use Rattle.sm_policy.specs.Policy.{Policy as ThePolicy};
ghost use Rattle.sm_questions.specs.Differences.{differences, is_any, lost};
ghost use Rattle.sm_questions.specs.RuleChanges.{access_text, granting_lines, lost_accesses, lost_by, rule_differences};

/// The counts of the lines for rules add up to the number of accesses that only one policy allows, each of which has a
/// line of `svcmgr diff`. There are lines for rules, labels and permissive types exactly if there are lines without
/// `--rules`.
pub fn counts_add_up()
    ensures sum { (one other : ThePolicy)
        → sum_by (lost_by one other) (granting_lines one) ≡ length (lost_accesses one other) }
    ensures listed { (sign : ℕ) (one other : ThePolicy)
        → lost sign one other ≡ flat_map (access_text sign) (lost_accesses one other) }
    ensures same { (path text new_path new_text : List ℕ) (old new : ThePolicy)
        → is_any (rule_differences path text new_path new_text old new) ≡ is_any (differences old new) }
{}
