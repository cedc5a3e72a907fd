//! The answer to `svcmgr access`.

ghost use Rattle.std.specs.Prelude.{◌≡◌, ◌<◌, ◌++◌, ◌&&◌, ℕ, All, IfErr, IfOk, OnOk, OnErr, length, take};
ghost use Rattle.std.specs.Io.KnownBytes.{Appends};
ghost use Rattle.sm_engine.specs.Counts.{Reports, failures_of, inner_of, greatest_count};
ghost use Rattle.sm_types.specs.Names.{at};
ghost use Rattle.sm_types.specs.Denoting.{types};
ghost use Rattle.sm_bits.specs.Bits.{has_bit};
ghost use Rattle.sm_questions.specs.Accesses as spec;
ghost use Rattle.sm_policy.specs.GrantedRow.{IsGranted};
ghost use Rattle.sm_questions.specs.Buffered.{Fails, Passes, Stops};
ghost use Rattle.sm_questions.specs.FirstLines.{AreAsked, HasPair, IsAsked};

use crate::Filter;
use crate::buffer::write_full;
use crate::filtering::is_left;
use crate::first_lines::LineTable;
use crate::lookups::{byte_at, type_count, type_name};
use sm_bits::{has_bit, with_bit};
use sm_engine::{Counted, Fault, write_whole};
use sm_policy::Prepared;
use sm_rules::{PERM_COUNT, class_at, perm_at};
use sm_values::{Perms, Word, push_access, push_numbered};
use std::alloc::{AllocError, Global};
use std::io::Write;

/// Returns the numbers of the types that are asked for, in the order of their declaration.
fn numbers_left(
    alloc: Global,
    policy: &Prepared,
    wanted: &Option<Word<'_>>,
) -> Result<Vec<u16>, AllocError>
    ensures { IfOk result (λ numbers. AreAsked (types policy.now.statements) wanted.now numbers.items) }
{
    let mut numbers = Vec::new(alloc);
    for number in 0..type_count(policy) {
        if is_left(wanted, type_name(policy, number)) {
            numbers.push(number)?;
        }
    }
    Ok(numbers)
}

/// Appends the number of a line, or `permissive`.
fn push_grant(held: &mut Vec<u8>, line: Option<u32>) -> Result<(), AllocError>
    ensures { OnOk result (held.new.items ≡ held.old.items ++ spec.granted_by line) }
{
    match line {
        Some(n) => push_numbered(held, b" ", u64::from(n)),
        None => held.extend_from_slice(b" permissive"),
    }
}

/// Appends `SOURCE TARGET CLASS PERM LINE`.
#[tactic(auto, unfolding(crate::specs::Accesses::access_line))]
fn push_line(
    policy: &Prepared,
    table: &LineTable<'_>,
    source: u16,
    target: u16,
    bit: u32,
    held: &mut Vec<u8>,
) -> Result<(), AllocError>
    requires bit { bit < 7 }
    requires table { HasPair policy.now table.now source target }
    ensures { OnOk result (held.new.items ≡ held.old.items ++ spec.access_line policy.now
        (at (types policy.now.statements) source) (at (types policy.now.statements) target) bit) }
{
    let line = table.line(source, target, bit);
    let from = type_name(policy, source);
    let to = type_name(policy, target);
    push_access(held, from, to, class_at(bit), perm_at(bit))?;
    push_grant(held, line)?;
    held.extend_from_slice(b"\n")
}

fn is_listed(wanted: Perms, granted: u8, bit: u32) -> bool
    requires { bit < 7 }
    ensures { result ≡ (has_bit wanted.0 bit && has_bit granted bit) }
{
    has_bit(wanted.0, bit) && has_bit(granted, bit)
}

/// Returns the permissions that a source is allowed on a target, as the bits of a byte.
fn granted_at(policy: &Prepared, source: u16, target: u16) -> u8
    requires source { source < length (types policy.now.statements) }
    requires target { target < length (types policy.now.statements) }
    ensures { IsGranted policy.now result (at (types policy.now.statements) source)
        (at (types policy.now.statements) target) }
{
    let mut granted = 0;
    for bit in 0..PERM_COUNT {
        if policy.allows_at(source, target, class_at(bit), perm_at(bit)) {
            granted = with_bit(granted, bit);
        }
    }
    granted
}

/// Appends the lines for two types.
#[tactic(auto, unfolding(crate::specs::Accesses::pair_lines))]
fn push_pair(
    policy: &Prepared,
    table: &LineTable<'_>,
    wanted: Perms,
    granted: u8,
    source: u16,
    target: u16,
    held: &mut Vec<u8>,
) -> Result<(), AllocError>
    requires granted { IsGranted policy.now granted (at (types policy.now.statements) source)
        (at (types policy.now.statements) target) }
    requires table { HasPair policy.now table.now source target }
    ensures { OnOk result (held.new.items ≡ held.old.items ++ spec.pair_lines policy.now wanted.0
        (at (types policy.now.statements) source) (at (types policy.now.statements) target)) }
{
    if granted == 0 {
        return Ok(());
    }
    for bit in 0..PERM_COUNT {
        if is_listed(wanted, granted, bit) {
            push_line(policy, table, source, target, bit, held)?;
        }
    }
    Ok(())
}

/// Appends the lines for a source, with several targets.
#[tactic(auto, unfolding(crate::specs::Accesses::targets_lines))]
fn push_several(
    alloc: Global,
    policy: &Prepared,
    filter: &Filter<'_>,
    table: &LineTable<'_>,
    source: u16,
    held: &mut Vec<u8>,
) -> Result<(), AllocError>
    requires targets { AreAsked (types policy.now.statements) filter.now.target table.now.targets.now }
    requires source { source < length (types policy.now.statements) }
    requires lines { All (HasPair policy.now table.now source) table.now.targets.now }
    ensures { OnOk result (held.new.items ≡ held.old.items ++ spec.targets_lines policy.now filter.now
        (at (types policy.now.statements) source)) }
{
    let row = policy.granted_row(alloc, source)?;
    for target in table.targets() {
        let granted = byte_at(&row, *target);
        push_pair(policy, table, filter.perms, granted, source, *target, held)?;
    }
    Ok(())
}

/// Appends the lines for a source, with all targets that are asked for.
fn push_targets(
    alloc: Global,
    policy: &Prepared,
    filter: &Filter<'_>,
    table: &LineTable<'_>,
    source: u16,
    held: &mut Vec<u8>,
) -> Result<(), AllocError>
    requires targets { AreAsked (types policy.now.statements) filter.now.target table.now.targets.now }
    requires source { source < length (types policy.now.statements) }
    requires lines { All (HasPair policy.now table.now source) table.now.targets.now }
    ensures { OnOk result (held.new.items ≡ held.old.items ++ spec.targets_lines policy.now filter.now
        (at (types policy.now.statements) source)) }
{
    let targets = table.targets();
    if targets.len() != 1 {
        return push_several(alloc, policy, filter, table, source, held);
    }
    let granted = granted_at(policy, source, targets[0]);
    push_pair(
        policy,
        table,
        filter.perms,
        granted,
        source,
        targets[0],
        held,
    )
}

/// Appends the lines for a source, if it is asked for.
#[tactic(auto, unfolding(crate::specs::Accesses::source_lines))]
fn push_source(
    alloc: Global,
    policy: &Prepared,
    filter: &Filter<'_>,
    table: &mut LineTable<'_>,
    source: u16,
    held: &mut Vec<u8>,
) -> Result<(), AllocError>
    requires table { IsAsked policy.now filter.now table.old }
    requires source { source < length (types policy.now.statements) }
    ensures table { OnOk result (IsAsked policy.now filter.now table.new) }
    ensures lines { OnOk result (held.new.items ≡ held.old.items ++ spec.source_lines policy.now filter.now
        (at (types policy.now.statements) source)) }
{
    if !is_left(&filter.source, type_name(policy, source)) {
        return Ok(());
    }
    table.find(usize::from(source))?;
    push_targets(alloc, policy, filter, table, source, held)
}

/// Writes the lines for all sources, and holds the last ones.
#[tactic(auto, unfolding(crate::specs::Accesses::access_lines))]
fn put_sources<W: Write>(
    alloc: Global,
    policy: &Prepared,
    filter: &Filter<'_>,
    table: &mut LineTable<'_>,
    writer: &mut Counted<W>,
    held: &mut Vec<u8>,
) -> Result<(), Fault>
    requires count { failures_of writer.old < greatest_count }
    requires table { IsAsked policy.now filter.now table.old }
    ensures ok { OnOk result (Passes (W.contents (inner_of writer.old)) (W.contents (inner_of writer.new))
        held.old.items held.new.items (spec.access_lines policy.now filter.now)) }
    ensures count { OnOk result (failures_of writer.new ≡ failures_of writer.old) }
    ensures stopped { OnErr result (Stops (W.contents (inner_of writer.old)) (W.contents (inner_of writer.new))
        held.old.items (spec.access_lines policy.now filter.now)) }
    ensures fault { IfErr result (λ e. Fails e (failures_of writer.old) (failures_of writer.new)) }
{
    for source in 0..type_count(policy) {
        push_source(alloc, policy, filter, table, source, held)?;
        write_full(writer, held)?;
    }
    Ok(())
}

/// Writes a line `SOURCE TARGET CLASS PERM LINE` for each access that the policy allows and the filter leaves.
///
/// LINE is that of the first allow rule that grants it, or `permissive` if none does. Sources and targets are in the
/// order of their declaration. The lines are written source by source.
///
/// # Errors
///
/// `WriteFault` if a write fails, `Memory` if an allocation fails; a prefix of the lines is then written.
pub fn access<W: Write>(
    alloc: Global,
    policy: &Prepared,
    filter: &Filter<'_>,
    writer: &mut Counted<W>,
) -> Result<(), Fault>
    requires { failures_of writer.old < greatest_count }
    ensures written { OnOk result (Appends (W.contents (inner_of writer.old)) (W.contents (inner_of writer.new))
        (spec.access_lines policy.now filter.now)) }
    ensures front { OnErr result ((n : ℕ)
        × Appends (W.contents (inner_of writer.old)) (W.contents (inner_of writer.new))
        (take n (spec.access_lines policy.now filter.now))) }
    ensures reports { Reports result writer.old writer.new }
{
    let mut held = Vec::new(alloc);
    let targets = numbers_left(alloc, policy, &filter.target)?;
    let mut table = LineTable::new(alloc, policy.rules(), &targets)?;
    put_sources(alloc, policy, filter, &mut table, writer, &mut held)?;
    write_whole(writer, &held)
}
