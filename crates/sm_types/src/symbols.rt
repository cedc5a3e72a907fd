//! The names that a policy source declares.

ghost use Rattle.std.specs.Prelude.{◌≡◌, ◌≤◌, length, IfOk, not, find, option_map};
ghost use Rattle.std.specs.List.{list_any, list_all};
ghost use Rattle.std.specs.Str.{bytes_eq};
ghost use Rattle.sm_values.specs.Reading.{Gives};
ghost use Rattle.sm_types.specs.Declaring as spec;
ghost use Rattle.sm_types.specs.Declaring.{is_memory};
ghost use Rattle.sm_types.specs.declared.TheConstants.{MOST_TYPES};

use crate::name_set::NameSet;
use crate::{MOST_ATTRIBUTES, MOST_TYPES, TypesFault};
use sm_ruletext::{Statement, What};
use sm_values::Names;
use std::alloc::Global;

/// The types and the attributes of a policy source, which share one space of names.
#[derive(Drop)]
pub struct Symbols {
    pub types: NameSet,
    pub attributes: NameSet,
}

fn is_declared(symbols: &Symbols, name: &[u8]) -> bool
    ensures { result ≡ spec.is_declared symbols.now name.now }
{
    symbols.types.contains(name) || symbols.attributes.contains(name)
}

#[tactic(auto, unfolding(crate::specs::Declaring::with_type))]
fn with_type(alloc: Global, symbols: Symbols, line: u32, name: &[u8]) -> Result<Symbols, TypesFault>
    ensures few { IfOk result (λ s. length s.types ≤ MOST_TYPES) }
    ensures exact { Gives is_memory (λ s. s) result (spec.with_type symbols line name.now) }
{
    if is_declared(&symbols, name) {
        return Err(TypesFault::Twice(line));
    }
    let Symbols {
        mut types,
        attributes,
    } = symbols;
    if types.len() >= MOST_TYPES {
        return Err(TypesFault::TooMany);
    }
    types.insert(alloc, name)?;
    Ok(Symbols { types, attributes })
}

#[tactic(auto, unfolding(crate::specs::Declaring::with_attribute))]
fn with_attribute(
    alloc: Global,
    symbols: Symbols,
    line: u32,
    name: &[u8],
) -> Result<Symbols, TypesFault>
    ensures same { IfOk result (λ s. s.types ≡ symbols.types) }
    ensures exact { Gives is_memory (λ s. s) result (spec.with_attribute symbols line name.now) }
{
    if is_declared(&symbols, name) {
        return Err(TypesFault::Twice(line));
    }
    let Symbols {
        types,
        mut attributes,
    } = symbols;
    if attributes.len() >= MOST_ATTRIBUTES {
        return Err(TypesFault::TooMany);
    }
    attributes.insert(alloc, name)?;
    Ok(Symbols { types, attributes })
}

#[tactic(auto, unfolding(crate::specs::Declaring::with_declaration))]
fn with_declaration(
    alloc: Global,
    symbols: Symbols,
    statement: &Statement,
) -> Result<Symbols, TypesFault>
    ensures few { length symbols.types ≤ MOST_TYPES → IfOk result (λ s. length s.types ≤ MOST_TYPES) }
    ensures exact { Gives is_memory
        (λ s. s) result (spec.with_declaration symbols statement.now.line statement.now.what) }
{
    match &statement.what {
        What::Attribute(name) => with_attribute(alloc, symbols, statement.line, name.bytes()),
        What::Declared(name, _) => with_type(alloc, symbols, statement.line, name.bytes()),
        _ => Ok(symbols),
    }
}

/// Reads all declarations, in the order of the source.
fn declared(alloc: Global, statements: &[Statement]) -> Result<Symbols, TypesFault>
    ensures few { IfOk result (λ s. length s.types ≤ MOST_TYPES) }
    ensures exact { Gives is_memory (λ s. s) result (spec.declared spec.nothing statements.now) }
{
    let mut symbols = Symbols {
        types: NameSet::new(alloc),
        attributes: NameSet::new(alloc),
    };
    for statement in statements {
        symbols = with_declaration(alloc, symbols, statement)?;
    }
    Ok(symbols)
}

fn all_attributes(symbols: &Symbols, names: &Names) -> bool
    ensures { result ≡ spec.all_attributes symbols.now names.now }
{
    names
        .list()
        .iter()
        .all(|name| symbols.attributes.contains(name.bytes()))
}

/// Returns whether the attributes that a statement gives are declared, and the type that gets them.
fn members_known(symbols: &Symbols, what: &What) -> bool
    ensures { result ≡ spec.members_known symbols.now what.now }
{
    match what {
        What::Declared(_, names) => all_attributes(symbols, names),
        What::Member(name, names) => {
            symbols.types.contains(name.bytes()) && all_attributes(symbols, names)
        }
        _ => true,
    }
}

/// Returns the line of the first statement with a name that isn't declared as it should be.
fn first_unknown(symbols: &Symbols, statements: &[Statement]) -> Option<u32>
    ensures { result ≡ spec.first_unknown symbols.now statements.now }
{
    statements
        .iter()
        .find(|statement| !members_known(symbols, &statement.what))
        .map(|statement| statement.line)
}

/// Reads the names that a policy source declares, unless a declaration or a membership is refused.
#[tactic(auto, unfolding(crate::specs::Declaring::symbols_of))]
pub fn symbols_of(alloc: Global, statements: &[Statement]) -> Result<Symbols, TypesFault>
    ensures few { IfOk result (λ s. length s.types ≤ MOST_TYPES) }
    ensures exact { Gives is_memory (λ s. s) result (spec.symbols_of statements.now) }
{
    let symbols = declared(alloc, statements)?;
    match first_unknown(&symbols, statements) {
        Some(line) => Err(TypesFault::Unknown(line)),
        None => Ok(symbols),
    }
}
