//! Which rules are listed for a single access, as laws.

ghost use Rattle.std.specs.Prelude.{◌≡◌, ◌++◌, ℕ, List, [], Ok, Some, false, codes, option_map, slice_get};
ghost use Rattle.sm_values.specs.declared.class.Class.{Class as TheClass};
ghost use Rattle.sm_values.specs.declared.perms.Perms.{Perms as ThePerms};
ghost use Rattle.sm_ruletext.specs.declared.statement.RuleKind.TheVariants.{Allow};
ghost use Rattle.sm_policy.specs.Policy.{Policy as ThePolicy, written, written_at};
ghost use Rattle.sm_questions.specs.RuleFilters.{rule_filter_of};
ghost use Rattle.sm_questions.specs.RuleLaws.{LeavesOne, options_for};
ghost use Rattle.sm_questions.specs.RuleLines.{listed_rules, rule_lines};
ghost use Rattle.sm_questions.specs.Shown.{shown_statement};
ghost use Rattle.sm_questions.specs.Words.{access_of};
ghost use Rattle.sm_questions.specs.declared.rule_filter.RuleFilter.{RuleFilter as TheFilter};

/// The first allow rule that is listed for a single access is the one that `explain` names. There is a line exactly if
/// some allow rule grants the access.
pub fn first_is_explained()
    ensures first { (policy : ThePolicy) (asked : TheFilter) (s t : List ℕ) (class : TheClass) (perm : ThePerms)
        → asked.kind ≡ Some Allow → LeavesOne policy asked.accesses s t class perm
        → option_map (λ r. r.0) (slice_get (listed_rules policy asked) 0) ≡ written_at policy s t class perm }
    ensures begins { (path text : List ℕ) (policy : ThePolicy) (asked : TheFilter) (s t : List ℕ) (class : TheClass)
        (perm : ThePerms) (line : ℕ) → asked.kind ≡ Some Allow → LeavesOne policy asked.accesses s t class perm
        → written_at policy s t class perm ≡ Some line
        → (more : List ℕ) × (rule_lines path text policy asked ≡ shown_statement path text line ++ more) }
    ensures none { (path text : List ℕ) (policy : ThePolicy) (asked : TheFilter) (s t : List ℕ) (class : TheClass)
        (perm : ThePerms) → asked.kind ≡ Some Allow → LeavesOne policy asked.accesses s t class perm
        → written policy s t class perm ≡ false → rule_lines path text policy asked ≡ [] }
{}

/// The words of an access, as options, leave this access alone; the word `allow` asks for allow rules.
pub fn words_leave_one()
    ensures one { (policy : ThePolicy) (kind s t c p : List ℕ) (asked : TheFilter) (class : TheClass) (perm : ThePerms)
        → rule_filter_of policy (options_for kind s t c p) ≡ Ok asked → access_of policy s t c p ≡ Ok (class, perm)
        → LeavesOne policy asked.accesses s t class perm }
    ensures allow { (policy : ThePolicy) (s t c p : List ℕ) (asked : TheFilter)
        → rule_filter_of policy (options_for (codes "allow") s t c p) ≡ Ok asked → asked.kind ≡ Some Allow }
{}
