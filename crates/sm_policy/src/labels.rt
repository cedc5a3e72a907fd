//! The labels of services, and the types in them.

ghost use Rattle.std.specs.Prelude.{◌≡◌, ◌<◌, List, None, Some, IfOk, IfErr, OnOk, length, option_map, slice_get};
ghost use Rattle.sm_values.specs.Reading.{Gives};
ghost use Rattle.sm_ruletext.specs.declared.statement.Statement.{Statement as TheStatement};
ghost use Rattle.sm_types.specs.Members.{IsOf};
ghost use Rattle.sm_policy.specs.Breaking.{IfNeverallow};
ghost use Rattle.sm_policy.specs.declared.fault.PolicyFault.TheVariants.{UndeclaredLabel};
ghost use Rattle.sm_policy.specs.Labelling.{AreNumbered, number_of};
ghost use Rattle.sm_policy.specs.Preparing as spec;
ghost use Rattle.sm_policy.specs.Preparing.{is_memory};
ghost use Rattle.sm_policy.specs.Undeclared.{first_undeclared, undeclared_line};

use crate::PolicyFault;
use sm_contexts::Contexts;
use sm_types::Types;
use sm_values::{Context, drop_fields};
use std::alloc::Global;

/// The label of a name.
#[derive(Clone, Copy)]
pub struct Label<'a> {
    /// The context of the name's service.
    pub context: &'a Context,
    /// The number of the type in it (`Prepared::type_index`).
    pub index: u16,
}

/// The labels of a contexts file, each with the number of its type.
pub struct Labels {
    pub contexts: Contexts,
    /// The number of the type in each context, in the order of the entries.
    pub indexes: Vec<u16>,
}

impl Drop for Labels {
    fn drop(self) {
        drop_fields!(self: contexts, indexes);
    }
}

/// Returns the number of the type in an entry's context, or the entry's line if its type isn't declared.
fn number_of(types: &Types, contexts: &Contexts, i: u32) -> Result<u16, u32>
    requires { i < length contexts.now }
    ensures number { IfOk result
        (λ n. option_map (number_of types.now.symbols.types) (slice_get contexts.now i) ≡ Some (Some n)) }
    ensures declared { OnOk result ((policy : List TheStatement) → IsOf policy types.now
        → undeclared_line policy (slice_get contexts.now i) ≡ None) }
    ensures undeclared { IfErr result (λ line. (policy : List TheStatement) → IsOf policy types.now
        → undeclared_line policy (slice_get contexts.now i) ≡ Some line) }
{
    let Some((line, context)) = contexts.entry(i) else {
        unreachable!();
    };
    match types.index(context.type_name()) {
        Some(index) => Ok(index),
        None => Err(line),
    }
}

/// Returns the number of the type in each context, or the first entry line whose type isn't declared.
#[tactic(auto, using(crate::proofs::Finding::undeclared_step, crate::proofs::Labelling::one_more))]
fn numbers_of(alloc: Global, types: &Types, contexts: &Contexts) -> Result<Vec<u16>, PolicyFault>
    ensures exact { (policy : List TheStatement) → IsOf policy types.now
        → Gives is_memory (λ v. contexts.now) result
        (spec.refused_by UndeclaredLabel (first_undeclared policy contexts.now) contexts.now) }
    ensures numbers { IfOk result (λ v. AreNumbered types.now.symbols.types contexts.now v.items) }
    ensures other { IfErr result (λ e. IfNeverallow e (λ _. ⊥)) }
{
    let count = contexts.count();
    let mut numbers = Vec::with_capacity(alloc, count as usize)?;
    for i in 0..count {
        match number_of(types, contexts, i) {
            Ok(number) => numbers.push_reserved(number),
            Err(line) => return Err(PolicyFault::UndeclaredLabel(line)),
        }
    }
    Ok(numbers)
}

/// Reads the labels of a contexts file.
#[tactic(auto, using(crate::proofs::UndeclaredLines::first_line), unfolding(crate::specs::Preparing::labels_of))]
pub fn labels_of(alloc: Global, types: &Types, text: &[u8]) -> Result<Labels, PolicyFault>
    ensures exact { (policy : List TheStatement) → IsOf policy types.now
        → Gives is_memory (λ l. l.contexts) result (spec.labels_of policy text.now) }
    ensures numbers { IfOk result (λ l. AreNumbered types.now.symbols.types l.contexts l.indexes.items) }
    ensures other { IfErr result (λ e. IfNeverallow e (λ _. ⊥)) }
{
    let contexts = Contexts::read(alloc, text)?;
    let indexes = numbers_of(alloc, types, &contexts)?;
    Ok(Labels { contexts, indexes })
}
