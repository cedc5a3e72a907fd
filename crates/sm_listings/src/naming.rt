//! The answer to `svcmgr names`.

ghost use Rattle.std.specs.Prelude.{◌≡◌, ◌<◌, ◌++◌, ℕ, codes, length, slice_get, IfErr, OnOk, OnErr, take};
ghost use Rattle.std.specs.Io.KnownBytes.{Appends};
ghost use Rattle.sm_engine.specs.Counts.{Reports, failures_of, inner_of, greatest_count};
ghost use Rattle.sm_questions.specs.Buffered.{Fails, Passes, Stops};
ghost use Rattle.sm_listings.specs.Named as spec;

use sm_engine::{Counted, Fault, write_whole};
use sm_policy::Prepared;
use sm_questions::write_full;
use sm_values::{Class, Perms};
use std::alloc::{AllocError, Global};
use std::io::Write;

/// Appends a key and a type.
fn push_line(lines: &mut Vec<u8>, key: &[u8], name: &[u8]) -> Result<(), AllocError>
    ensures { OnOk result (lines.new.items
        ≡ lines.old.items ++ (key.now ++ codes " " ++ name.now ++ codes "\n")) }
{
    lines.extend_from_slice(key)?;
    lines.extend_from_slice(b" ")?;
    lines.extend_from_slice(name)?;
    lines.extend_from_slice(b"\n")
}

/// Appends the line of an entry, if the source is allowed the permission on the type of its label.
fn push_entry(
    lines: &mut Vec<u8>,
    policy: &Prepared,
    source: &[u8],
    perm: Perms,
    i: u32,
) -> Result<(), AllocError>
    requires { i < length policy.now.entries }
    ensures { OnOk result (lines.new.items ≡ lines.old.items
        ++ spec.line_of policy.now source.now perm (slice_get policy.now.entries i)) }
{
    let contexts = policy.contexts();
    let (Some(key), Some((_, context))) = (contexts.key(i), contexts.entry(i)) else {
        unreachable!();
    };
    let target = context.type_name();
    if !policy.allows(source, target, Class::ServiceManager, perm) {
        return Ok(());
    }
    push_line(lines, key, target)
}

/// Writes the lines of the entries, and holds the last ones.
fn put_entries<W: Write>(
    policy: &Prepared,
    source: &[u8],
    perm: Perms,
    writer: &mut Counted<W>,
    held: &mut Vec<u8>,
) -> Result<(), Fault>
    requires { failures_of writer.old < greatest_count }
    ensures ok { OnOk result (Passes (W.contents (inner_of writer.old)) (W.contents (inner_of writer.new))
        held.old.items held.new.items (spec.name_lines policy.now source.now perm)) }
    ensures count { OnOk result (failures_of writer.new ≡ failures_of writer.old) }
    ensures stopped { OnErr result (Stops (W.contents (inner_of writer.old)) (W.contents (inner_of writer.new))
        held.old.items (spec.name_lines policy.now source.now perm)) }
    ensures fault { IfErr result (λ e. Fails e (failures_of writer.old) (failures_of writer.new)) }
{
    for i in 0..policy.contexts().count() {
        push_entry(held, policy, source, perm, i)?;
        write_full(writer, held)?;
    }
    Ok(())
}

/// Writes a line `KEY TARGET` for each key of the contexts file if the source is allowed the permission of
/// `service_manager` on TARGET, the type of the key's label.
///
/// The lines are in the order of the keys' first lines, and that of `*` stands for all names without a key.
///
/// # Errors
///
/// `WriteFault` if a write fails, `Memory` if an allocation fails; a prefix of the lines is then written.
pub fn names<W: Write>(
    alloc: Global,
    policy: &Prepared,
    source: &[u8],
    perm: Perms,
    writer: &mut Counted<W>,
) -> Result<(), Fault>
    requires { failures_of writer.old < greatest_count }
    ensures written { OnOk result (Appends (W.contents (inner_of writer.old)) (W.contents (inner_of writer.new))
        (spec.name_lines policy.now source.now perm)) }
    ensures front { OnErr result ((n : ℕ)
        × Appends (W.contents (inner_of writer.old)) (W.contents (inner_of writer.new))
        (take n (spec.name_lines policy.now source.now perm))) }
    ensures reports { Reports result writer.old writer.new }
{
    let mut held = Vec::new(alloc);
    put_entries(policy, source, perm, writer, &mut held)?;
    write_whole(writer, &held)
}
