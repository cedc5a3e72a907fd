//! The answer to `svcmgr types`.

ghost use Rattle.std.specs.Prelude.{◌≡◌, ◌<◌, ℕ, IfErr, OnOk, OnErr, take};
ghost use Rattle.std.specs.List.{flat_map};
ghost use Rattle.std.specs.Io.KnownBytes.{Appends};
ghost use Rattle.sm_engine.specs.Counts.{Reports, failures_of, inner_of, greatest_count};
ghost use Rattle.sm_types.specs.Denoting.{attributes, types as types_of};
ghost use Rattle.sm_questions.specs.Buffered.{Fails, Passes, Stops};
ghost use Rattle.sm_listings.specs.Listed as spec;

use crate::lines::{push_attribute, push_type};
use sm_engine::{Counted, Fault, write_whole};
use sm_policy::Prepared;
use sm_questions::write_full;
use sm_values::Word;
use std::alloc::Global;
use std::io::Write;

/// Writes the lines of the types that are asked for, and holds the last ones.
fn put_types<W: Write>(
    policy: &Prepared,
    word: &Option<Word<'_>>,
    writer: &mut Counted<W>,
    held: &mut Vec<u8>,
) -> Result<(), Fault>
    requires { failures_of writer.old < greatest_count }
    ensures ok { OnOk result (Passes (W.contents (inner_of writer.old)) (W.contents (inner_of writer.new))
        held.old.items held.new.items
        (flat_map (spec.wanted_type policy.now.statements word.now)
        (types_of policy.now.statements))) }
    ensures count { OnOk result (failures_of writer.new ≡ failures_of writer.old) }
    ensures stopped { OnErr result (Stops (W.contents (inner_of writer.old)) (W.contents (inner_of writer.new))
        held.old.items
        (flat_map (spec.wanted_type policy.now.statements word.now)
        (types_of policy.now.statements))) }
    ensures fault { IfErr result (λ e. Fails e (failures_of writer.old) (failures_of writer.new)) }
{
    for t in 0..policy.types().count() {
        push_type(held, policy, word, t)?;
        write_full(writer, held)?;
    }
    Ok(())
}

/// Writes the lines of the attributes that are asked for, and holds the last ones.
fn put_attributes<W: Write>(
    policy: &Prepared,
    word: &Option<Word<'_>>,
    writer: &mut Counted<W>,
    held: &mut Vec<u8>,
) -> Result<(), Fault>
    requires { failures_of writer.old < greatest_count }
    ensures ok { OnOk result (Passes (W.contents (inner_of writer.old)) (W.contents (inner_of writer.new))
        held.old.items held.new.items
        (flat_map (spec.wanted_attribute policy.now.statements word.now)
        (attributes policy.now.statements))) }
    ensures count { OnOk result (failures_of writer.new ≡ failures_of writer.old) }
    ensures stopped { OnErr result (Stops (W.contents (inner_of writer.old)) (W.contents (inner_of writer.new))
        held.old.items
        (flat_map (spec.wanted_attribute policy.now.statements word.now)
        (attributes policy.now.statements))) }
    ensures fault { IfErr result (λ e. Fails e (failures_of writer.old) (failures_of writer.new)) }
{
    for a in 0..policy.types().attribute_count() {
        push_attribute(held, policy, word, a)?;
        write_full(writer, held)?;
    }
    Ok(())
}

/// Writes a line `type TYPE ATTRIBUTE ..` for each type of a policy with its attributes, and then a line `attribute
/// ATTRIBUTE TYPE ..` for each attribute with the types that have it. With a word, only the line of the type or the
/// attribute of this name.
///
/// All are in the order of their declaration. This is what `seinfo -t -x` and `seinfo -a -x` list.
///
/// # Errors
///
/// `WriteFault` if a write fails, `Memory` if an allocation fails; a prefix of the lines is then written.
pub fn types<W: Write>(
    alloc: Global,
    policy: &Prepared,
    word: &Option<Word<'_>>,
    writer: &mut Counted<W>,
) -> Result<(), Fault>
    requires { failures_of writer.old < greatest_count }
    ensures written { OnOk result (Appends (W.contents (inner_of writer.old)) (W.contents (inner_of writer.new))
        (spec.type_lines policy.now.statements word.now)) }
    ensures front { OnErr result ((n : ℕ)
        × Appends (W.contents (inner_of writer.old)) (W.contents (inner_of writer.new))
        (take n (spec.type_lines policy.now.statements word.now))) }
    ensures reports { Reports result writer.old writer.new }
{
    let mut held = Vec::new(alloc);
    put_types(policy, word, writer, &mut held)?;
    put_attributes(policy, word, writer, &mut held)?;
    write_whole(writer, &held)
}
