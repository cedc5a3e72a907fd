//! How many kept rules of each kind were passed.

ghost use Rattle.std.specs.Prelude.{◌≡◌, ◌<◌, ◌+◌, ◌^◌, ℕ, length, option_map, slice_get, IfSome};
ghost use Rattle.std.specs.List.{cons_option};
ghost use Rattle.std.specs.Prelude.{[]};
ghost use Rattle.sm_ruletext.specs.declared.statement.RuleKind.{RuleKind as TheKind};
ghost use Rattle.sm_rules.specs.Keeping.{FitsRule, of_kind, rule_in};
ghost use Rattle.sm_questions.specs.Covering as spec;

use sm_rules::{Kept, Rules};
use sm_ruletext::{RuleKind, Statement, What};
use sm_values::drop_fields;

/// The number of kept rules of each kind that were passed.
pub struct Passed {
    allows: usize,
    neverallows: usize,
    silences: usize,
}

impl Drop for Passed {
    fn drop(self) {
        drop_fields!(self: allows, neverallows, silences);
    }
}

impl Passed {
    /// Returns that no rule was passed.
    pub fn none() -> Passed
        ensures { (kind : TheKind) → spec.passed_of kind result ≡ 0 }
    {
        Passed {
            allows: 0,
            neverallows: 0,
            silences: 0,
        }
    }

    /// Returns the first rule of a kind that wasn't passed.
    pub fn next<'a>(&self, rules: &'a Rules, kind: RuleKind) -> Option<&'a Kept>
        ensures next { option_map (λ rule. rule.now) result
            ≡ slice_get (of_kind kind rules.now) (spec.passed_of kind self.now) }
        ensures fits { IfSome result (λ rule. FitsRule rules.now.count rule.now) }
    {
        match kind {
            RuleKind::Allow => rules.allows().get(self.allows),
            RuleKind::Neverallow => rules.neverallows().get(self.neverallows),
            RuleKind::Dontaudit => rules.silences().get(self.silences),
        }
    }

    /// Passes a statement.
    pub fn add(&mut self, statement: &Statement)
        requires few { (kind : TheKind) → spec.passed_of kind self.old + 1 < 2 ^ 64 }
        ensures { (kind : TheKind) → spec.passed_of kind self.new
            ≡ spec.passed_of kind self.old + length (cons_option (rule_in kind statement.now) []) }
    {
        match &statement.what {
            What::Rule(kind, rule) if rule.is_kept() => self.add_one(*kind),
            _ => {}
        }
    }

    /// Passes a kept rule of a kind.
    fn add_one(&mut self, kind: RuleKind)
        requires few { spec.passed_of kind self.old + 1 < 2 ^ 64 }
        ensures one { spec.passed_of kind self.new ≡ spec.passed_of kind self.old + 1 }
        ensures others { (other : TheKind) → (other ≡ kind → ⊥)
            → spec.passed_of other self.new ≡ spec.passed_of other self.old }
    {
        match kind {
            RuleKind::Allow => self.allows += 1,
            RuleKind::Neverallow => self.neverallows += 1,
            RuleKind::Dontaudit => self.silences += 1,
        }
    }
}
