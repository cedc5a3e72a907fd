//! The lines for attributes, types and keys that are of no use.

ghost use Rattle.std.specs.Prelude.{◌≡◌, ◌<◌, ◌++◌, length, slice_get, true, IfOk, IfSome, OnOk};
ghost use Rattle.std.specs.List.{flat_map};
ghost use Rattle.sm_types.specs.Denoting.{declares, type_of};
ghost use Rattle.sm_unused.specs.Declarations as spec;
ghost use Rattle.sm_unused.specs.Rows.{AreUses, entry_line};

use crate::uses::Uses;
use sm_policy::Prepared;
use sm_ruletext::{Statement, What};
use sm_values::{push_name, push_numbered};
use std::alloc::{AllocError, Global};

/// Appends a word and `FILE:LINE: `.
fn push_place(lines: &mut Vec<u8>, word: &[u8], path: &[u8], number: u32) -> Result<(), AllocError>
    ensures { OnOk result (lines.new.items ≡ lines.old.items ++ spec.placed word.now path.now number) }
{
    lines.extend_from_slice(word)?;
    lines.extend_from_slice(path)?;
    push_numbered(lines, b":", u64::from(number))?;
    lines.extend_from_slice(b": ")
}

/// Appends a word, and the name at a line as `FILE:LINE: NAME`.
fn push_named(
    lines: &mut Vec<u8>,
    word: &[u8],
    path: &[u8],
    number: u32,
    name: &[u8],
) -> Result<(), AllocError>
    ensures { OnOk result (lines.new.items ≡ lines.old.items
        ++ spec.named_line word.now path.now number name.now) }
{
    push_place(lines, word, path, number)?;
    lines.extend_from_slice(name)?;
    lines.extend_from_slice(b"\n")
}

/// Appends the line for a statement that declares an attribute which is of no use.
fn push_attribute(
    lines: &mut Vec<u8>,
    uses: &Uses,
    policy: &Prepared,
    path: &[u8],
    statement: &Statement,
) -> Result<(), AllocError>
    requires { AreUses policy.now uses.now }
    ensures { OnOk result (lines.new.items ≡ lines.old.items
        ++ spec.attribute_line path.now policy.now statement.now) }
{
    let What::Attribute(name) = &statement.what else {
        return Ok(());
    };
    if uses.has_attribute(policy, name.bytes()) {
        return Ok(());
    }
    push_named(lines, b"attribute ", path, statement.line, name.bytes())
}

/// Appends the line for a statement that declares a type which is of no use.
fn push_type(
    lines: &mut Vec<u8>,
    uses: &Uses,
    policy: &Prepared,
    path: &[u8],
    statement: &Statement,
) -> Result<(), AllocError>
    requires uses { AreUses policy.now uses.now }
    requires declared { IfSome (type_of statement.now.what) (λ n. declares policy.now.statements n ≡ true) }
    ensures { OnOk result (lines.new.items ≡ lines.old.items ++ spec.type_line path.now policy.now statement.now) }
{
    let What::Declared(name, _) = &statement.what else {
        return Ok(());
    };
    if uses.has_type(policy, name.bytes()) {
        return Ok(());
    }
    push_named(lines, b"type ", path, statement.line, name.bytes())
}

/// Appends the line for an entry that is of no use.
fn push_key(
    alloc: Global,
    lines: &mut Vec<u8>,
    uses: &Uses,
    policy: &Prepared,
    path: &[u8],
    i: u32,
) -> Result<(), AllocError>
    requires uses { AreUses policy.now uses.now }
    requires entry { i < length policy.now.entries }
    ensures { OnOk result (lines.new.items ≡ lines.old.items
        ++ entry_line path.now policy.now (slice_get policy.now.entries i)) }
{
    let contexts = policy.contexts();
    let (Some(key), Some((number, context))) = (contexts.key(i), contexts.entry(i)) else {
        unreachable!();
    };
    if uses.has_entry(policy, key, context) {
        return Ok(());
    }
    push_place(lines, b"key ", path, number)?;
    push_name(alloc, lines, key)?;
    lines.extend_from_slice(b"\n")
}

/// Appends the lines for all statements that declare an attribute which is of no use.
fn push_attributes(
    lines: &mut Vec<u8>,
    uses: &Uses,
    policy: &Prepared,
    path: &[u8],
    statements: &[Statement],
) -> Result<(), AllocError>
    requires { AreUses policy.now uses.now }
    ensures { OnOk result (lines.new.items ≡ lines.old.items
        ++ flat_map (spec.attribute_line path.now policy.now) statements.now) }
{
    for statement in statements {
        push_attribute(lines, uses, policy, path, statement)?;
    }
    Ok(())
}

/// Appends the lines for all statements that declare a type which is of no use.
fn push_types(
    lines: &mut Vec<u8>,
    uses: &Uses,
    policy: &Prepared,
    path: &[u8],
    statements: &[Statement],
) -> Result<(), AllocError>
    requires uses { AreUses policy.now uses.now }
    requires source { statements.now ≡ policy.now.statements }
    ensures { OnOk result (lines.new.items ≡ lines.old.items
        ++ flat_map (spec.type_line path.now policy.now) statements.now) }
{
    for statement in statements {
        push_type(lines, uses, policy, path, statement)?;
    }
    Ok(())
}

/// Appends the lines for all entries that are of no use.
fn push_keys(
    alloc: Global,
    lines: &mut Vec<u8>,
    uses: &Uses,
    policy: &Prepared,
    path: &[u8],
) -> Result<(), AllocError>
    requires { AreUses policy.now uses.now }
    ensures { OnOk result (lines.new.items ≡ lines.old.items
        ++ flat_map (spec.key_line path.now policy.now) policy.now.entries) }
{
    for i in 0..policy.contexts().count() {
        push_key(alloc, lines, uses, policy, path, i)?;
    }
    Ok(())
}

/// Returns the lines for the attributes, the types and the keys of a policy that are of no use. Its source has these
/// statements, and its files have these paths.
#[tactic(auto, unfolding(crate::specs::Declarations::declaration_lines))]
pub fn declaration_lines(
    alloc: Global,
    policy: &Prepared,
    statements: &[Statement],
    rules_path: &[u8],
    contexts_path: &[u8],
) -> Result<Vec<u8>, AllocError>
    requires { statements.now ≡ policy.now.statements }
    ensures { IfOk result (λ lines. lines.items
        ≡ spec.declaration_lines rules_path.now contexts_path.now policy.now) }
{
    let uses = Uses::find(alloc, policy, statements)?;
    let mut lines = Vec::new(alloc);
    push_attributes(&mut lines, &uses, policy, rules_path, statements)?;
    push_types(&mut lines, &uses, policy, rules_path, statements)?;
    push_keys(alloc, &mut lines, &uses, policy, contexts_path)?;
    Ok(lines)
}
