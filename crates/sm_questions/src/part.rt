//! The parts of the answer to `svcmgr diff`.

ghost use Rattle.std.specs.Prelude.{◌≡◌, ◌<◌, ◌++◌, IfOk, OnOk, length};
ghost use Rattle.sm_types.specs.Names.{at};
ghost use Rattle.sm_questions.specs.Differences as spec;
ghost use Rattle.sm_questions.specs.Parts.{AreNumbers, lines_of, names_in};

use crate::lookups::{has_key, is_permissive, key, type_at, type_count, type_name};
use crate::lost::push_source;
use crate::relabelling::push_changed;
use crate::type_numbers::TypeNumbers;
use sm_policy::Prepared;
use std::alloc::{AllocError, Global};

/// All that differs in one way.
#[derive(Clone, Copy)]
pub enum Part {
    /// Accesses that only the old policy allows.
    Lost,
    /// Accesses that only the new policy allows.
    Gained,
    /// Keys of the old policy whose names get another label.
    Relabelled,
    /// Keys that only the new policy has, and whose names get another label.
    Added,
    /// Types that cease to be permissive.
    Ceased,
    /// Types that become permissive.
    Became,
}

/// Appends two texts.
fn push_both(held: &mut Vec<u8>, one: &[u8], other: &[u8]) -> Result<(), AllocError>
    ensures { OnOk result (held.new.items ≡ held.old.items ++ (one.now ++ other.now)) }
{
    held.extend_from_slice(one)?;
    held.extend_from_slice(other)
}

/// Appends `permissive TYPE`.
#[tactic(auto, unfolding(crate::specs::Differences::permissive_words))]
fn push_words(name: &[u8], held: &mut Vec<u8>) -> Result<(), AllocError>
    ensures { OnOk result (held.new.items ≡ held.old.items ++ spec.permissive_words name.now) }
{
    push_both(held, b"permissive ", name)
}

/// Appends a permissive type behind a sign.
#[tactic(auto, unfolding(crate::specs::Differences::turned_line))]
fn push_permissive(sign: u8, name: &[u8], held: &mut Vec<u8>) -> Result<(), AllocError>
    ensures { OnOk result (held.new.items ≡ held.old.items ++ spec.turned_line sign name.now) }
{
    held.extend_from_slice(&[sign, b' '])?;
    push_words(name, held)?;
    held.extend_from_slice(b"\n")
}

/// Appends the line for a type, if it is permissive only in the first policy.
#[tactic(auto, unfolding(crate::specs::Differences::turned_type))]
fn push_turned(
    sign: u8,
    one: &Prepared,
    other: &Prepared,
    name: &[u8],
    held: &mut Vec<u8>,
) -> Result<(), AllocError>
    ensures { OnOk result (held.new.items ≡ held.old.items ++ spec.turned_type sign one.now other.now name.now) }
{
    if !is_permissive(one, name) || is_permissive(other, name) {
        return Ok(());
    }
    push_permissive(sign, name, held)
}

impl Part {
    /// Returns the number of types or keys that this part goes through.
    pub fn count(self, old: &Prepared, new: &Prepared) -> u32
        ensures { result ≡ length (names_in self old.now new.now) }
    {
        match self {
            Part::Lost | Part::Ceased => u32::from(type_count(old)),
            Part::Gained | Part::Became => u32::from(type_count(new)),
            Part::Relabelled => old.contexts().count(),
            Part::Added => new.contexts().count(),
        }
    }

    /// Returns the numbers in the other policy of the types whose accesses are compared.
    pub fn numbers(
        self,
        alloc: Global,
        old: &Prepared,
        new: &Prepared,
    ) -> Result<TypeNumbers, AllocError>
        ensures { IfOk result (λ numbers. AreNumbers self old.now new.now numbers) }
    {
        match self {
            Part::Lost => TypeNumbers::between(alloc, old, new),
            Part::Gained => TypeNumbers::between(alloc, new, old),
            _ => Ok(TypeNumbers::new(alloc)),
        }
    }

    /// Appends the lines for a type or a key, given by its place in the order of the policy.
    #[tactic(auto, unfolding(crate::specs::Relabelled::added))]
    pub fn push(
        self,
        alloc: Global,
        old: &Prepared,
        new: &Prepared,
        numbers: &TypeNumbers,
        index: u32,
        held: &mut Vec<u8>,
    ) -> Result<(), AllocError>
        requires index { index < length (names_in self old.now new.now) }
        requires numbers { AreNumbers self old.now new.now numbers.now }
        ensures { OnOk result (held.new.items ≡ held.old.items
            ++ lines_of self old.now new.now (at (names_in self old.now new.now) index)) }
    {
        match self {
            Part::Lost => push_source(alloc, b'-', old, new, numbers, type_at(old, index), held),
            Part::Gained => push_source(alloc, b'+', new, old, numbers, type_at(new, index), held),
            Part::Relabelled => push_changed(old, new, key(old, index), held),
            Part::Added => {
                let key = key(new, index);
                if has_key(old, key) {
                    return Ok(());
                }
                push_changed(old, new, key, held)
            }
            Part::Ceased => push_turned(b'-', old, new, type_name(old, type_at(old, index)), held),
            Part::Became => push_turned(b'+', new, old, type_name(new, type_at(new, index)), held),
        }
    }
}
