//! What the rules of a policy say of an access.

ghost use Rattle.std.specs.Prelude.{◌≡◌, ◌<◌, ◌&&◌, ◌==◌, length};
ghost use Rattle.sm_types.specs.Denoting.{types};
ghost use Rattle.sm_types.specs.Names.{at};
ghost use Rattle.sm_rules.specs.Keeping.{class_at, covered_line, perm_at};
ghost use Rattle.sm_policy.specs.Policy as policies;
ghost use Rattle.sm_suggestions.specs.Rulings.{IsRuling};
ghost use Rattle.sm_suggestions.specs.Verdicts as spec;

use sm_policy::Prepared;
use sm_rules::{Rules, class_at, perm_at};

/// Returns the line of the first neverallow rule that covers an access, by the numbers of its types and its permission.
fn forbidding_line(rules: &Rules, source: u16, target: u16, bit: u32) -> Option<u32>
    requires bit { bit < 7 }
    requires source { source < rules.now.count }
    requires target { target < rules.now.count }
    ensures { result ≡ covered_line rules.now.neverallows bit source target }
{
    let s = usize::from(source);
    let t = usize::from(target);
    rules
        .neverallows()
        .iter()
        .find(|rule| rule.covers(bit, s, t))
        .map(|rule| rule.line)
}

/// Returns the line of the first neverallow rule of a policy that covers an access.
#[tactic(auto, using(crate::proofs::Forbidding::forbidden_is))]
fn forbidden_at(policy: &Prepared, source: u16, target: u16, bit: u32) -> Option<u32>
    requires bit { bit < 7 }
    requires source { source < length (types policy.now.statements) }
    requires target { target < length (types policy.now.statements) }
    ensures { result ≡ spec.forbidden_at policy.now (at (types policy.now.statements) source)
        (at (types policy.now.statements) target) (class_at bit) (perm_at bit) }
{
    forbidding_line(policy.rules(), source, target, bit)
}

/// Returns the line of the first allow rule of a policy that grants an access. Each rule is looked at.
#[tactic(auto, unfolding(sm_policy::specs::Policy::written_at))]
fn granting_line(policy: &Prepared, source: u16, target: u16, bit: u32) -> Option<u32>
    requires source { source < length (types policy.now.statements) }
    requires target { target < length (types policy.now.statements) }
    ensures { result ≡ policies.written_at policy.now (at (types policy.now.statements) source)
        (at (types policy.now.statements) target) (class_at bit) (perm_at bit) }
{
    policy
        .rules()
        .written(source, target, class_at(bit), perm_at(bit))
}

/// Returns the line of the first allow rule of a policy that grants an access. Rules are looked at if there is one.
#[tactic(auto, using(crate::proofs::Unwritten::none_written))]
fn written_at(policy: &Prepared, source: u16, target: u16, bit: u32) -> Option<u32>
    requires source { source < length (types policy.now.statements) }
    requires target { target < length (types policy.now.statements) }
    ensures { result ≡ policies.written_at policy.now (at (types policy.now.statements) source)
        (at (types policy.now.statements) target) (class_at bit) (perm_at bit) }
{
    if policy.allows_at(source, target, class_at(bit), perm_at(bit)) {
        granting_line(policy, source, target, bit)
    } else {
        None
    }
}

/// What the rules of a policy say of an access of declared types.
#[derive(Clone, Copy)]
pub struct Ruling {
    /// The number of the source.
    pub source: u16,
    /// The number of the target.
    pub target: u16,
    /// The number of the permission.
    pub bit: u32,
    /// The line of the first allow rule that grants the access.
    pub written: Option<u32>,
    /// The line of the first neverallow rule that covers the access.
    pub forbidden: Option<u32>,
}

impl Ruling {
    /// Finds what the rules of a policy say of an access.
    pub fn find(policy: &Prepared, source: u16, target: u16, bit: u32) -> Ruling
        requires bit { bit < 7 }
        requires source { source < length (types policy.now.statements) }
        requires target { target < length (types policy.now.statements) }
        ensures source { result.source ≡ source }
        ensures target { result.target ≡ target }
        ensures bit { result.bit ≡ bit }
        ensures right { IsRuling policy.now source target bit result }
    {
        Ruling {
            source,
            target,
            bit,
            written: written_at(policy, source, target, bit),
            forbidden: forbidden_at(policy, source, target, bit),
        }
    }

    /// Returns whether the ruling is one of this access.
    pub fn is_of(&self, source: u16, target: u16, bit: u32) -> bool
        ensures { result ≡ (self.now.source == source && self.now.target == target && self.now.bit == bit) }
    {
        self.source == source && self.target == target && self.bit == bit
    }
}
