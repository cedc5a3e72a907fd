//! The lines of types and attributes.

ghost use Rattle.std.specs.Prelude.{◌≡◌, ◌<◌, ◌++◌, length, OnOk};
ghost use Rattle.std.specs.List.{flat_map};
ghost use Rattle.sm_types.specs.Denoting.{attributes, types};
ghost use Rattle.sm_types.specs.Names.{at};
ghost use Rattle.sm_listings.specs.Listed as spec;

use crate::words::is_wanted;
use sm_policy::Prepared;
use sm_types::Types;
use sm_values::Word;
use std::alloc::AllocError;

/// Appends a space and a name, if the name is one of those that are listed.
fn push_member(lines: &mut Vec<u8>, name: &[u8], is_member: bool) -> Result<(), AllocError>
    ensures { OnOk result (lines.new.items ≡ lines.old.items ++ spec.member is_member name.now) }
{
    if !is_member {
        return Ok(());
    }
    lines.extend_from_slice(b" ")?;
    lines.extend_from_slice(name)
}

/// Returns the number of a type in 16 bits.
fn type_number(types: &Types, t: usize) -> u16
    requires { t < length types.now.symbols.types }
    ensures { result ≡ t }
{
    // The count, which is above the number, has 16 bits: without it the cast isn't proved.
    let _ = types.count();
    t as u16
}

/// Returns the name of a type.
fn type_name(types: &Types, t: usize) -> &[u8]
    requires { t < length types.now.symbols.types }
    ensures { result.now ≡ at types.now.symbols.types t }
{
    match types.name(type_number(types, t)) {
        Some(name) => name,
        None => unreachable!(),
    }
}

/// Returns the name of an attribute.
pub fn attribute_name(types: &Types, a: usize) -> &[u8]
    requires { a < length types.now.symbols.attributes }
    ensures { result.now ≡ at types.now.symbols.attributes a }
{
    match types.attribute_name(a) {
        Some(name) => name,
        None => unreachable!(),
    }
}

/// Appends the attributes that a type has.
fn push_attributes(lines: &mut Vec<u8>, policy: &Prepared, t: usize) -> Result<(), AllocError>
    requires { t < length (types policy.now.statements) }
    ensures { OnOk result (lines.new.items ≡ lines.old.items
        ++ flat_map (spec.attribute_word policy.now.statements (at (types policy.now.statements) t))
        (attributes policy.now.statements)) }
{
    let types = policy.types();
    for a in 0..types.attribute_count() {
        push_member(lines, attribute_name(types, a), types.members(a).has(t))?;
    }
    Ok(())
}

/// Appends the types that have an attribute.
fn push_types(lines: &mut Vec<u8>, policy: &Prepared, a: usize) -> Result<(), AllocError>
    requires { a < length (attributes policy.now.statements) }
    ensures { OnOk result (lines.new.items ≡ lines.old.items
        ++ flat_map (spec.type_word policy.now.statements (at (attributes policy.now.statements) a))
        (types policy.now.statements)) }
{
    let types = policy.types();
    let members = types.members(a);
    for t in 0..types.count() {
        push_member(lines, type_name(types, t), members.has(t))?;
    }
    Ok(())
}

/// Appends the line of a type, if it is asked for.
pub fn push_type(
    lines: &mut Vec<u8>,
    policy: &Prepared,
    word: &Option<Word<'_>>,
    t: usize,
) -> Result<(), AllocError>
    requires { t < length (types policy.now.statements) }
    ensures { OnOk result (lines.new.items ≡ lines.old.items
        ++ spec.wanted_type policy.now.statements word.now
        (at (types policy.now.statements) t)) }
{
    let name = type_name(policy.types(), t);
    if !is_wanted(word, name) {
        return Ok(());
    }
    lines.extend_from_slice(b"type ")?;
    lines.extend_from_slice(name)?;
    push_attributes(lines, policy, t)?;
    lines.extend_from_slice(b"\n")
}

/// Appends the line of an attribute, if it is asked for.
pub fn push_attribute(
    lines: &mut Vec<u8>,
    policy: &Prepared,
    word: &Option<Word<'_>>,
    a: usize,
) -> Result<(), AllocError>
    requires { a < length (attributes policy.now.statements) }
    ensures { OnOk result (lines.new.items ≡ lines.old.items
        ++ spec.wanted_attribute policy.now.statements word.now
        (at (attributes policy.now.statements) a)) }
{
    let name = attribute_name(policy.types(), a);
    if !is_wanted(word, name) {
        return Ok(());
    }
    lines.extend_from_slice(b"attribute ")?;
    lines.extend_from_slice(name)?;
    push_types(lines, policy, a)?;
    lines.extend_from_slice(b"\n")
}
