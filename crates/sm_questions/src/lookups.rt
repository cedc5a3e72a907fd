//! Look-ups in a policy.

ghost use Rattle.std.specs.Prelude.{◌≡◌, ◌<◌, Some, length, option_map};
ghost use Rattle.std.proofs.Common.{get_or};
ghost use Rattle.sm_values.specs.Names.{contains};
ghost use Rattle.sm_contexts.specs.Reading.{line_and_context, seen};
ghost use Rattle.sm_types.specs.Denoting.{declares, types};
ghost use Rattle.sm_types.specs.Names.{at};
ghost use Rattle.sm_policy.specs.Policy as spec;
ghost use Rattle.sm_questions.specs.Keys.{keys_of};
ghost use Rattle.sm_questions.specs.Labels as labels;

use sm_policy::Prepared;
use sm_values::Context;

/// Returns the byte of a type in a row, or 0 if there is none.
#[inline]
pub fn byte_at(row: &[u8], target: u16) -> u8
    ensures { result ≡ get_or row.now target 0 }
{
    match row.get(usize::from(target)) {
        Some(byte) => *byte,
        None => 0,
    }
}

/// Returns the line of the key that labels a name, and the context on it.
#[tactic(auto, using(crate::proofs::Entries::entry_at, std::proofs::lemmas::Grind::common_steps))]
pub fn label_entry<'a>(policy: &'a Prepared, name: &[u8]) -> (u32, &'a Context)
    ensures { Some (seen result) ≡ option_map line_and_context (labels.label_entry policy.now name.now) }
{
    let contexts = policy.contexts();
    match contexts.entry(contexts.place(name)) {
        Some(entry) => entry,
        None => unreachable!(),
    }
}

/// Returns whether the policy source declares the type.
pub fn is_declared(policy: &Prepared, name: &[u8]) -> bool
    ensures { result ≡ declares policy.now.statements name.now }
{
    policy.types().index(name).is_some()
}

/// Returns whether the policy source makes the type permissive.
pub fn is_permissive(policy: &Prepared, source: &[u8]) -> bool
    ensures { result ≡ spec.is_permissive policy.now source.now }
{
    let rules = policy.rules();
    match policy.types().index(source) {
        Some(index) => rules.permissive(index),
        None => false,
    }
}

/// Returns the number of declared types.
pub fn type_count(policy: &Prepared) -> u16
    ensures { result ≡ length (types policy.now.statements) }
{
    policy.types().count() as u16
}

/// Returns the number of a type by its place in the order of declaration, from 0: there are at most 4,096 types.
pub fn type_at(policy: &Prepared, index: u32) -> u16
    requires { index < length (types policy.now.statements) }
    ensures { result ≡ index }
{
    // The count, which is above the index, has 16 bits: without it the cast isn't proved.
    let _ = type_count(policy);
    index as u16
}

/// Returns the name of a type by its number, which is its place in the order of declaration, from 0. Nothing if there
/// is no such type.
#[tactic(auto, using(std::proofs::lemmas::Option::gets, std::proofs::lemmas::Grind::common_steps))]
pub fn type_name(policy: &Prepared, index: u16) -> &[u8]
    ensures { result.now ≡ at (types policy.now.statements) index }
{
    policy.types().name(index).unwrap_or(b"")
}

/// Returns a key by its place in the order of the keys' first lines, from 0. Nothing if there is no such key.
pub fn key(policy: &Prepared, index: u32) -> &[u8]
    ensures { result.now ≡ at (keys_of policy.now) index }
{
    match policy.contexts().key(index) {
        Some(key) => key,
        None => b"",
    }
}

/// Returns whether the contexts file has the key.
pub fn has_key(policy: &Prepared, key: &[u8]) -> bool
    ensures { result ≡ contains (keys_of policy.now) key.now }
{
    policy.contexts().has_key(key)
}
