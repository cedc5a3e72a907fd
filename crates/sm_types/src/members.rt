//! The members of attributes.

ghost use Rattle.std.specs.Prelude.{◌≡◌, ◌||◌, ◌&&◌, ◌*◌, ◌<◌, ◌≤◌, ℕ, [], nat_eq, take, length, slice_index, false};
ghost use Rattle.std.specs.Prelude.{IfOk};
ghost use Rattle.std.specs.List.{list_any};
ghost use Rattle.sm_types.specs.Names.{at};
ghost use Rattle.sm_types.specs.Denoting.{gives_attribute};
ghost use Rattle.sm_types.specs.Members.{Given, Fits, MembersOf};
ghost use Rattle.std.specs.Str.{bytes_eq};
ghost use Rattle.sm_bits.specs.Bits.{has, row};

use crate::name_set::NameSet;
use crate::symbols::Symbols;
use sm_bits::{BitRow, empty_rows};
use sm_ruletext::{Statement, What};
use sm_values::Names;
use std::alloc::{AllocError, Global};

/// Adds a type to the row of an attribute, if the attribute is declared.
fn give_one(members: &mut Vec<BitRow>, attributes: &NameSet, t: usize, name: &[u8])
    requires count { length members.old.items ≡ length attributes.now }
    requires room { (a : ℕ) → a < length attributes.now
        → t < 64 * length (row members.old.items a) }
    ensures count { length members.new.items ≡ length members.old.items }
    ensures room { (a : ℕ) → length (row members.new.items a) ≡ length (row members.old.items a) }
    ensures given { (a i : ℕ) → a < length attributes.now → has (row members.new.items a) i
        ≡ (has (row members.old.items a) i || (nat_eq i t
        && bytes_eq name.now (at attributes.now a))) }
{
    if let Some(a) = attributes.index(name) {
        let row = &mut members[a];
        row.insert(t);
    }
}

/// Adds a type to the row of each named attribute.
fn give(members: &mut Vec<BitRow>, attributes: &NameSet, t: usize, names: &Names)
    requires count { length members.old.items ≡ length attributes.now }
    requires room { (a : ℕ) → a < length attributes.now
        → t < 64 * length (row members.old.items a) }
    ensures { Given members.old.items members.new.items attributes.now names.now t }
{
    for name in names.list() {
        give_one(members, attributes, t, name.bytes());
    }
}

/// Adds the memberships of a statement to the rows of its attributes.
fn with_members(members: &mut Vec<BitRow>, symbols: &Symbols, what: &What)
    requires { Fits members.old.items symbols.now }
    ensures fits { Fits members.new.items symbols.now }
    ensures room { (a : ℕ) → length (row members.new.items a) ≡ length (row members.old.items a) }
    ensures given { (a i : ℕ) → a < length symbols.now.attributes → i < length symbols.now.types
        → has (row members.new.items a) i
        ≡ (has (row members.old.items a) i
        || gives_attribute (at symbols.now.types i) (at symbols.now.attributes a) what.now) }
{
    match what {
        What::Declared(name, names) => {
            if let Some(t) = symbols.types.index(name.bytes()) {
                give(members, &symbols.attributes, t, names);
            }
        }
        What::Member(name, names) => {
            if let Some(t) = symbols.types.index(name.bytes()) {
                give(members, &symbols.attributes, t, names);
            }
        }
        _ => {}
    }
}

/// Makes an empty row for each attribute.
fn no_members(alloc: Global, symbols: &Symbols) -> Result<Vec<BitRow>, AllocError>
    ensures { IfOk result (λ m. (Fits m.items symbols.now) × ((a i : ℕ)
        → has (row m.items a) i ≡ false)) }
{
    let words = symbols.types.len() / 64 + 1;
    empty_rows(alloc, symbols.attributes.len(), words)
}

/// Computes which types have which attribute.
pub fn members_of(
    alloc: Global,
    symbols: &Symbols,
    statements: &[Statement],
) -> Result<Vec<BitRow>, AllocError>
    ensures { IfOk result (λ m. MembersOf statements.now symbols.now m.items) }
{
    let mut members = no_members(alloc, symbols)?;
    for statement in statements {
        with_members(&mut members, symbols, &statement.what);
    }
    Ok(members)
}
