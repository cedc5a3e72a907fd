//! Accesses that only one of two policies allows.

ghost use Rattle.std.specs.Prelude.{◌≡◌, ◌+◌, ◌<◌, ◌≤◌, ◌++◌, ℕ, [], IfOk, IfSome, None, OnOk, length, map, option_map};
ghost use Rattle.std.specs.Prelude.{true};
ghost use Rattle.std.proofs.Common.{get_or};
ghost use Rattle.sm_types.specs.Names.{at};
ghost use Rattle.sm_types.specs.Denoting.{types};
ghost use Rattle.sm_policy.specs.Policy.{type_index};
ghost use Rattle.sm_questions.specs.Differences as spec;
ghost use Rattle.sm_policy.specs.GrantedRow.{IsRow};
ghost use Rattle.sm_questions.specs.Granted as granted;
ghost use Rattle.sm_questions.specs.Granted.{byte_for, IsRowThere, LosesNothing};
ghost use Rattle.sm_questions.specs.TypeNumbers.{AreNumbersIn};

use crate::lookups::{byte_at, type_count, type_name};
use crate::type_numbers::TypeNumbers;
use sm_policy::Prepared;
use sm_rules::{PERM_COUNT, class_at, perm_at};
use sm_values::push_access;
use std::alloc::{AllocError, Global};

/// Returns whether only the first policy allows an access of two of its types.
#[tactic(auto, unfolding(crate::specs::Differences::is_lost))]
pub fn is_lost(
    one: &Prepared,
    other: &Prepared,
    numbers: &[Option<u16>],
    source: u16,
    target: u16,
    bit: u32,
) -> bool
    requires source { source < length (types one.now.statements) }
    requires target { target < length (types one.now.statements) }
    requires numbers { numbers.now ≡ map (type_index other.now) (types one.now.statements) }
    ensures { result ≡ spec.is_lost one.now other.now (at (types one.now.statements) source)
        (at (types one.now.statements) target) bit }
{
    let from = numbers[usize::from(source)];
    let to = numbers[usize::from(target)];
    let (class, perm) = (class_at(bit), perm_at(bit));
    one.allows_at(source, target, class, perm) && !other.decide_at(from, to, class, perm).allowed
}

/// Appends an access behind a sign.
#[tactic(auto, unfolding(crate::specs::Differences::lost_line))]
fn push_lost(
    sign: u8,
    source: &[u8],
    target: &[u8],
    bit: u32,
    held: &mut Vec<u8>,
) -> Result<(), AllocError>
    ensures { OnOk result (held.new.items ≡ held.old.items ++ spec.lost_line sign source.now target.now bit) }
{
    held.extend_from_slice(&[sign, b' '])?;
    push_access(held, source, target, class_at(bit), perm_at(bit))?;
    held.extend_from_slice(b"\n")
}

/// Appends the lines for two types.
#[tactic(auto, unfolding(crate::specs::Differences::lost_pair))]
fn push_pair(
    sign: u8,
    one: &Prepared,
    other: &Prepared,
    numbers: &[Option<u16>],
    source: u16,
    target: u16,
    held: &mut Vec<u8>,
) -> Result<(), AllocError>
    requires source { source < length (types one.now.statements) }
    requires target { target < length (types one.now.statements) }
    requires numbers { numbers.now ≡ map (type_index other.now) (types one.now.statements) }
    ensures { OnOk result (held.new.items ≡ held.old.items ++ spec.lost_pair sign one.now other.now
        (at (types one.now.statements) source) (at (types one.now.statements) target)) }
{
    let from = type_name(one, source);
    let to = type_name(one, target);
    for bit in 0..PERM_COUNT {
        if is_lost(one, other, numbers, source, target, bit) {
            push_lost(sign, from, to, bit, held)?;
        }
    }
    Ok(())
}

/// Returns the permissions of a source of the other policy, or nothing if it isn't declared there.
pub fn row_there(
    alloc: Global,
    other: &Prepared,
    source: Option<u16>,
) -> Result<Vec<u8>, AllocError>
    requires { IfSome source (λ s. s < length (types other.now.statements)) }
    ensures { IfOk result (λ row. IsRowThere other.now row.items source) }
{
    match source {
        Some(source) => other.granted_row(alloc, source),
        None => Ok(Vec::new(alloc)),
    }
}

/// Returns whether a source loses nothing on a type: it has no permission on it, or has the same in the other policy,
/// where the type has this number.
#[inline]
pub fn is_kept(here: &[u8], there: &[u8], target: u16, number: Option<u16>) -> bool
    ensures { result ≡ granted.is_kept (get_or here.now target 0) (byte_for there.now number) }
{
    let byte = byte_at(here, target);
    byte == 0 || number.is_some_and(|n| byte == byte_at(there, n))
}

/// Returns the end of the types, from the first one on, on which the rows of both policies show that a source loses
/// nothing. 0 if they don't show it.
pub fn kept_end(one: &Prepared, other: &Prepared, numbers: &TypeNumbers, source: u16) -> u16
    requires source { source < length (types one.now.statements) }
    requires numbers { AreNumbersIn one.now other.now numbers.now }
    ensures within { result ≤ length (types one.now.statements) }
    ensures nothing { (sign : ℕ) → LosesNothing sign one.now other.now source result }
{
    match numbers.numbers[usize::from(source)] {
        Some(theirs) if one.grants_alike(other, source, theirs, numbers.same) => numbers.same,
        _ => 0,
    }
}

/// Appends the lines for a source, which loses nothing on the targets below `from`.
#[tactic(auto, unfolding(crate::specs::Differences::lost_source))]
#[inline(never)]
fn push_rest(
    alloc: Global,
    sign: u8,
    one: &Prepared,
    other: &Prepared,
    numbers: &[Option<u16>],
    source: u16,
    from: u16,
    held: &mut Vec<u8>,
) -> Result<(), AllocError>
    requires source { source < length (types one.now.statements) }
    requires from { from ≤ length (types one.now.statements) }
    requires nothing { LosesNothing sign one.now other.now source from }
    requires numbers { numbers.now ≡ map (type_index other.now) (types one.now.statements) }
    ensures { OnOk result (held.new.items ≡ held.old.items ++ spec.lost_source sign one.now other.now
        (at (types one.now.statements) source)) }
{
    let here = one.granted_row(alloc, source)?;
    let there = row_there(alloc, other, numbers[usize::from(source)])?;
    for target in from..type_count(one) {
        if !is_kept(&here, &there, target, numbers[usize::from(target)]) {
            push_pair(sign, one, other, numbers, source, target, held)?;
        }
    }
    Ok(())
}

/// Appends the lines for a source, with all targets.
#[tactic(auto, unfolding(crate::specs::Differences::lost_source))]
pub fn push_source(
    alloc: Global,
    sign: u8,
    one: &Prepared,
    other: &Prepared,
    numbers: &TypeNumbers,
    source: u16,
    held: &mut Vec<u8>,
) -> Result<(), AllocError>
    requires source { source < length (types one.now.statements) }
    requires numbers { AreNumbersIn one.now other.now numbers.now }
    ensures { OnOk result (held.new.items ≡ held.old.items ++ spec.lost_source sign one.now other.now
        (at (types one.now.statements) source)) }
{
    let from = kept_end(one, other, numbers, source);
    if from == type_count(one) {
        return Ok(());
    }
    let numbers = numbers.numbers.as_slice();
    push_rest(alloc, sign, one, other, numbers, source, from, held)
}
