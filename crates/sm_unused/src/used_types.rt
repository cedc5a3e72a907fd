//! The types that are of use, apart from those that rules name.

ghost use Rattle.std.specs.Prelude.{◌≡◌, ◌<◌, ◌+◌, ◌/◌, ◌||◌, ℕ, All, length, slice_get, IfOk};
ghost use Rattle.std.specs.List.{list_any};
ghost use Rattle.sm_bits.specs.Bits.{has};
ghost use Rattle.sm_types.specs.Denoting.{types};
ghost use Rattle.sm_types.specs.Names.{Distinct, at};
ghost use Rattle.sm_rules.specs.Keeping.{FitsRule};
ghost use Rattle.sm_unused.specs.Declarations as spec;
ghost use Rattle.sm_unused.specs.Rows.{is_in_row};

use sm_bits::BitRow;
use sm_policy::Prepared;
use sm_rules::Kept;
use sm_types::TypeCount;
use std::alloc::{AllocError, Global};

/// Adds the sources and the targets of rules.
fn add_rules(row: &mut BitRow, rules: &[Kept], count: TypeCount)
    requires fits { All (FitsRule count) rules.now }
    requires room { length row.old ≡ count / 64 + 1 }
    ensures room { length row.new ≡ count / 64 + 1 }
    ensures added { (t : ℕ) → has row.new t ≡ (has row.old t || list_any (is_in_row t) rules.now) }
{
    for rule in rules {
        rule.sources.add_to(row);
        rule.targets.add_to(row);
    }
}

/// Adds the type of the label of an entry. The type is declared.
fn add_label(row: &mut BitRow, policy: &Prepared, i: u32)
    requires distinct { Distinct (types policy.now.statements) }
    requires entry { i < length policy.now.entries }
    requires room { length row.old ≡ length (types policy.now.statements) / 64 + 1 }
    ensures room { length row.new ≡ length row.old }
    ensures added { (t : ℕ) → t < length (types policy.now.statements) → has row.new t
        ≡ (has row.old t || spec.is_of (at (types policy.now.statements) t) (slice_get policy.now.entries i)) }
{
    let Some((_, context)) = policy.contexts().entry(i) else {
        return;
    };
    match policy.type_index(context.type_name()) {
        Some(index) => row.insert(usize::from(index)),
        None => {}
    }
}

/// Adds the types of all labels.
fn add_labels(row: &mut BitRow, policy: &Prepared)
    requires distinct { Distinct (types policy.now.statements) }
    requires room { length row.old ≡ length (types policy.now.statements) / 64 + 1 }
    ensures room { length row.new ≡ length row.old }
    ensures added { (t : ℕ) → t < length (types policy.now.statements) → has row.new t
        ≡ (has row.old t || spec.is_of_label policy.now.entries (at (types policy.now.statements) t)) }
{
    for i in 0..policy.contexts().count() {
        add_label(row, policy, i);
    }
}

/// Returns the types that are in the source or the target of a kept allow or dontaudit rule, those that are permissive,
/// and those of labels.
pub fn used_types(alloc: Global, policy: &Prepared) -> Result<BitRow, AllocError>
    ensures room { IfOk result (λ row. length row ≡ length (types policy.now.statements) / 64 + 1) }
    ensures used { IfOk result (λ row. (t : ℕ) → t < length (types policy.now.statements)
        → has row t ≡ spec.is_reached policy.now (at (types policy.now.statements) t)) }
{
    let rules = policy.rules();
    let count = rules.type_count();
    let mut row = BitRow::empty(alloc, count.words())?;
    add_rules(&mut row, rules.allows(), count);
    add_rules(&mut row, rules.silences(), count);
    row.union_with(rules.permissive_types());
    add_labels(&mut row, policy);
    Ok(row)
}
