//! The words of a policy's rules, and the attributes that its types have.

ghost use Rattle.std.specs.Prelude.{◌≡◌, ◌||◌, ℕ, List, IfOk, OnOk};
ghost use Rattle.std.specs.List.{list_any};
ghost use Rattle.std.specs.Str.{bytes_eq};
ghost use Rattle.sm_values.specs.Names.{contains};
ghost use Rattle.sm_unused.specs.Declarations as spec;

use sm_ruletext::{Set, Statement, What};
use sm_types::NameSet;
use sm_values::Names;
use std::alloc::{AllocError, Global};

/// Adds a name, if it isn't there.
fn add_name(alloc: Global, words: &mut NameSet, name: &[u8]) -> Result<(), AllocError>
    ensures { OnOk result ((word : List ℕ) → list_any (bytes_eq word) words.new
        ≡ (list_any (bytes_eq word) words.old || bytes_eq word name.now)) }
{
    if words.contains(name) {
        return Ok(());
    }
    words.insert(alloc, name)
}

/// Adds names.
fn add_names(alloc: Global, words: &mut NameSet, names: &Names) -> Result<(), AllocError>
    ensures { OnOk result ((word : List ℕ) → list_any (bytes_eq word) words.new
        ≡ (list_any (bytes_eq word) words.old || contains names.now word)) }
{
    for name in names.list() {
        add_name(alloc, words, name.bytes())?;
    }
    Ok(())
}

/// Adds the words of a set.
fn add_set(alloc: Global, words: &mut NameSet, set: &Set) -> Result<(), AllocError>
    ensures { OnOk result ((word : List ℕ) → list_any (bytes_eq word) words.new
        ≡ (list_any (bytes_eq word) words.old || spec.has_word set.now word)) }
{
    add_names(alloc, words, set.plus())?;
    add_names(alloc, words, set.minus())
}

/// Adds the words of a kept rule's source and target.
fn add_rule(alloc: Global, words: &mut NameSet, what: &What) -> Result<(), AllocError>
    ensures { OnOk result ((word : List ℕ) → list_any (bytes_eq word) words.new
        ≡ (list_any (bytes_eq word) words.old || spec.rule_has_word word what.now)) }
{
    let What::Rule(_, rule) = what else {
        return Ok(());
    };
    if !rule.is_kept() {
        return Ok(());
    }
    add_set(alloc, words, &rule.source)?;
    add_set(alloc, words, &rule.target)
}

/// Adds the attributes that a statement gives to a type.
fn add_given(alloc: Global, words: &mut NameSet, what: &What) -> Result<(), AllocError>
    ensures { OnOk result ((word : List ℕ) → list_any (bytes_eq word) words.new
        ≡ (list_any (bytes_eq word) words.old || spec.gives word what.now)) }
{
    match what {
        What::Declared(_, names) => add_names(alloc, words, names),
        What::Member(_, names) => add_names(alloc, words, names),
        _ => Ok(()),
    }
}

/// Returns the words of the sources and the targets of all kept rules.
pub fn rule_words(alloc: Global, statements: &[Statement]) -> Result<NameSet, AllocError>
    ensures { IfOk result (λ words. (word : List ℕ) → list_any (bytes_eq word) words
        ≡ spec.some_rule_has statements.now word) }
{
    let mut words = NameSet::new(alloc);
    for statement in statements {
        add_rule(alloc, &mut words, &statement.what)?;
    }
    Ok(words)
}

/// Returns the attributes that types have.
pub fn given_attributes(alloc: Global, statements: &[Statement]) -> Result<NameSet, AllocError>
    ensures { IfOk result (λ words. (word : List ℕ) → list_any (bytes_eq word) words
        ≡ spec.is_given statements.now word) }
{
    let mut words = NameSet::new(alloc);
    for statement in statements {
        add_given(alloc, &mut words, &statement.what)?;
    }
    Ok(words)
}
