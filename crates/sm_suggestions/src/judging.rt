//! The verdict on an access.

ghost use Rattle.std.specs.Prelude.{◌≡◌, ◌<◌, IfOk, IfSome, OnOk, is_some, length, option_map};
ghost use Rattle.sm_types.specs.Denoting.{declares, types};
ghost use Rattle.sm_types.specs.Names.{at};
ghost use Rattle.sm_rules.specs.Keeping.{class_at, perm_at};
ghost use Rattle.sm_policy.specs.Policy as policies;
ghost use Rattle.sm_suggestions.specs.Rulings.{AreRulings};
ghost use Rattle.sm_suggestions.specs.Verdicts as spec;

use crate::rulings::Rulings;
use crate::verdict::Verdict;
use sm_policy::Prepared;
use sm_values::Word;
use std::alloc::AllocError;

/// Returns the number of a type, if the policy source declares it.
fn type_number(policy: &Prepared, name: &[u8]) -> Option<u16>
    ensures declared { is_some result ≡ declares policy.now.statements name.now }
    ensures within { IfSome result (λ i. i < length (types policy.now.statements)) }
    ensures named { IfSome result (λ i. at (types policy.now.statements) i ≡ name.now) }
{
    policy.types().index(name)
}

/// Returns the verdict on an access that no rule grants or forbids, to the service of this name.
fn unwritten<'a>(policy: &Prepared, name: Option<&'a [u8]>) -> Verdict<'a>
    ensures { result ≡ spec.missing_or (spec.unlabelled policy.now (option_map (λ n. n.now) name.entry)) }
{
    match name {
        Some(name) if !policy.contexts().has_key(name) => Verdict::Default(Word::new(name)),
        _ => Verdict::Missing,
    }
}

/// Returns the verdict on an access to the service of this name, by the lines of the rules that grant and forbid it.
fn ruled<'a>(
    policy: &Prepared,
    written: Option<u32>,
    forbidden: Option<u32>,
    name: Option<&'a [u8]>,
) -> Verdict<'a>
    ensures { result ≡ spec.allowed_or written forbidden
        (spec.unlabelled policy.now (option_map (λ n. n.now) name.entry)) }
{
    if let Some(line) = written {
        return Verdict::Allowed(line);
    }
    match forbidden {
        Some(line) => Verdict::Forbidden(line),
        None => unwritten(policy, name),
    }
}

/// Returns the verdict on an access of declared types, by their numbers.
fn verdict_at<'a>(
    policy: &Prepared,
    rulings: &mut Rulings,
    source: u16,
    target: u16,
    name: Option<&'a [u8]>,
    bit: u32,
) -> Result<Verdict<'a>, AllocError>
    requires bit { bit < 7 }
    requires source { source < length (types policy.now.statements) }
    requires target { target < length (types policy.now.statements) }
    requires rulings { AreRulings policy.now rulings.old.by_number.entries }
    ensures rulings { OnOk result (AreRulings policy.now rulings.new.by_number.entries) }
    ensures verdict { IfOk result (λ verdict. verdict ≡ spec.allowed_or
        (policies.written_at policy.now (at (types policy.now.statements) source)
        (at (types policy.now.statements) target) (class_at bit) (perm_at bit))
        (spec.forbidden_at policy.now (at (types policy.now.statements) source)
        (at (types policy.now.statements) target) (class_at bit) (perm_at bit))
        (spec.unlabelled policy.now (option_map (λ n. n.now) name.entry))) }
{
    let ruling = rulings.find(policy, source, target, bit)?;
    Ok(ruled(policy, ruling.written, ruling.forbidden, name))
}

/// Returns the verdict on an access, whose permission is given by its number, to the service of this name.
#[tactic(auto, unfolding(crate::specs::Verdicts::verdict))]
pub fn verdict_on<'a>(
    policy: &Prepared,
    rulings: &mut Rulings,
    source: &'a [u8],
    target: &'a [u8],
    name: Option<&'a [u8]>,
    bit: u32,
) -> Result<Verdict<'a>, AllocError>
    requires bit { bit < 7 }
    requires rulings { AreRulings policy.now rulings.old.by_number.entries }
    ensures rulings { OnOk result (AreRulings policy.now rulings.new.by_number.entries) }
    ensures verdict { IfOk result (λ verdict. verdict
        ≡ spec.verdict policy.now source.now target.now (option_map (λ n. n.now) name.entry) bit) }
{
    let Some(s) = type_number(policy, source) else {
        return Ok(Verdict::Unknown(Word::new(source)));
    };
    let Some(t) = type_number(policy, target) else {
        return Ok(Verdict::Unknown(Word::new(target)));
    };
    verdict_at(policy, rulings, s, t, name, bit)
}
