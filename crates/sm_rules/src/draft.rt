//! Collects the rules of a policy source.

ghost use Rattle.std.specs.Prelude.{◌≡◌, ◌<◌, ◌≤◌, ◌+◌, ◌/◌, ◌^◌, ◌||◌, ℕ, List, length, All, IfOk, IfErr, Some, None};
ghost use Rattle.std.specs.Str.{bytes_eq};
ghost use Rattle.sm_bits.specs.Bits.{has};
ghost use Rattle.sm_ruletext.specs.declared.statement.RuleKind.{RuleKind as TheKind};
ghost use Rattle.sm_ruletext.specs.declared.statement.Statement.{Statement as TheStatement};
ghost use Rattle.sm_types.specs.Names.{at};
ghost use Rattle.sm_types.specs.Members.{IsOf};
ghost use Rattle.sm_rules.specs.Faults.{UnlessMemory, first_fault, permissive_fault, fault_of};
ghost use Rattle.sm_rules.specs.Keeping.{FitsRules, Extends, Permits, SaysPermissive, rule_in, rules_in, list_of};
ghost use Rattle.sm_rules.specs.Keeping.{AllStandFor};
ghost use Rattle.sm_rules.specs.Memoed.{IsRight};
ghost use Rattle.sm_rules.specs.Pooling.{HasMembers};

use crate::RulesFault;
use crate::kept::{Kept, keep};
use crate::memo::Memo;
use crate::row_pool::RowPool;
use sm_bits::BitRow;
use sm_ruletext::{RuleKind, Statement, What};
use sm_types::Types;
use sm_values::Name;
use std::alloc::Global;

/// The kept rules and the permissive types of the statements so far.
#[derive(Drop)]
pub struct Draft {
    pub allows: Vec<Kept>,
    pub neverallows: Vec<Kept>,
    pub silences: Vec<Kept>,
    pub permissive: BitRow,
}

/// Makes a type permissive.
fn permit(types: &Types, permissive: &mut BitRow, line: u32, name: &Name) -> Result<(), RulesFault>
    requires room { length permissive.old ≡ length types.now.symbols.types / 64 + 1 }
    ensures refused { IfErr result (λ e. UnlessMemory e ((policy : List TheStatement)
        → IsOf policy types.now → permissive_fault policy line name.now ≡ Some e)) }
    ensures accepted { IfOk result (λ done. (policy : List TheStatement) → IsOf policy types.now
        → permissive_fault policy line name.now ≡ None) }
    ensures named { IfOk result (λ done. (policy : List TheStatement) → IsOf policy types.now
        → (i : ℕ) → i < length types.now.symbols.types
        → has permissive.new i ≡ (bytes_eq (at types.now.symbols.types i) name.now || has permissive.old i)) }
    ensures same { length permissive.new ≡ length permissive.old }
{
    match types.index(name.bytes()) {
        Some(i) => {
            permissive.insert(usize::from(i));
            Ok(())
        }
        None => Err(RulesFault::Unknown(line)),
    }
}

/// Applies a statement, if it is a rule that is kept or makes a type permissive.
fn add_statement(
    alloc: Global,
    types: &Types,
    pool: &mut RowPool,
    memo: &mut Memo,
    draft: &mut Draft,
    statement: &Statement,
) -> Result<(), RulesFault>
    requires members { HasMembers types.now pool.old }
    requires memo { IsRight types.now memo.old }
    requires room { length draft.old.permissive ≡ length types.now.symbols.types / 64 + 1 }
    ensures refused { IfErr result (λ e. UnlessMemory e ((policy : List TheStatement)
        → IsOf policy types.now
        → fault_of policy statement.now.line statement.now.what ≡ Some e)) }
    ensures accepted { IfOk result (λ done. (policy : List TheStatement) → IsOf policy types.now
        → fault_of policy statement.now.line statement.now.what ≡ None) }
    ensures added { IfOk result (λ done. (policy : List TheStatement) → IsOf policy types.now → (k : TheKind)
        → Extends policy types.now.symbols.types (rule_in k statement.now)
        (list_of k draft.old.allows.items draft.old.neverallows.items draft.old.silences.items)
        (list_of k draft.new.allows.items draft.new.neverallows.items draft.new.silences.items)) }
    ensures permissive { IfOk result (λ done. (policy : List TheStatement) → IsOf policy types.now
        → Permits types.now.symbols.types statement.now.what draft.old.permissive draft.new.permissive) }
    ensures same { length draft.new.permissive ≡ length draft.old.permissive }
    ensures pool { pool.new ≡ pool.old }
    ensures memo { IfOk result (λ done. IsRight types.now memo.new) }
    ensures few { IfOk result (λ done. length draft.new.allows.items + length draft.new.neverallows.items
        ≤ length draft.old.allows.items + length draft.old.neverallows.items + 1) }
    ensures fits { FitsRules (length types.now.symbols.types)
        draft.old.allows.items draft.old.neverallows.items draft.old.silences.items
        → IfOk result (λ done. FitsRules (length types.now.symbols.types)
        draft.new.allows.items draft.new.neverallows.items draft.new.silences.items) }
{
    let line = statement.line;
    match &statement.what {
        What::Rule(kind, rule) if rule.is_kept() => {
            let kept = keep(alloc, types, pool, memo, line, rule)?;
            match kind {
                RuleKind::Allow => draft.allows.push(kept).ok().ok_or(RulesFault::Memory),
                RuleKind::Neverallow => draft.neverallows.push(kept).ok().ok_or(RulesFault::Memory),
                RuleKind::Dontaudit => draft.silences.push(kept).ok().ok_or(RulesFault::Memory),
            }
        }
        What::Permissive(name) => permit(types, &mut draft.permissive, line, name),
        _ => Ok(()),
    }
}

/// Collects all rules, in the order of the source.
pub fn all_rules(
    alloc: Global,
    statements: &[Statement],
    types: &Types,
) -> Result<Draft, RulesFault>
    requires { IsOf statements.now types.now }
    ensures refused { IfErr result (λ e. UnlessMemory e (first_fault statements.now ≡ Some e)) }
    ensures accepted { IfOk result (λ d. first_fault statements.now ≡ None) }
    ensures kept { IfOk result (λ d. (k : TheKind) → AllStandFor statements.now types.now.symbols.types
        (rules_in k statements.now) (list_of k d.allows.items d.neverallows.items d.silences.items)) }
    ensures permissive { IfOk result (λ d. SaysPermissive statements.now types.now.symbols.types d.permissive) }
    ensures room { IfOk result (λ d. length d.permissive ≡ length types.now.symbols.types / 64 + 1) }
    ensures few { IfOk result (λ d. length d.allows.items + length d.neverallows.items < 2 ^ 64) }
    ensures fits { IfOk result (λ d. FitsRules (length types.now.symbols.types)
        d.allows.items d.neverallows.items d.silences.items) }
{
    let mut draft = Draft {
        allows: Vec::new(alloc),
        neverallows: Vec::new(alloc),
        silences: Vec::new(alloc),
        permissive: BitRow::empty(alloc, types.type_count().words())?,
    };
    let mut pool = RowPool::new(alloc, types)?;
    let mut memo = Memo::new(alloc);
    for statement in statements {
        add_statement(alloc, types, &mut pool, &mut memo, &mut draft, statement)?;
    }
    Ok(draft)
}
