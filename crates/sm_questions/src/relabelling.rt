//! Labels that differ between two policies.

ghost use Rattle.std.specs.Prelude.{◌≡◌, ◌++◌, OnOk};
ghost use Rattle.sm_questions.specs.Relabelled as spec;

use sm_policy::Prepared;
use sm_values::spells;
use std::alloc::AllocError;

/// Appends `KEY OLD NEW`.
#[tactic(auto, unfolding(crate::specs::Relabelled::label_words))]
fn push_words(key: &[u8], before: &[u8], after: &[u8], held: &mut Vec<u8>) -> Result<(), AllocError>
    ensures { OnOk result (held.new.items ≡ held.old.items ++ spec.label_words key.now before.now after.now) }
{
    held.extend_from_slice(key)?;
    held.extend_from_slice(b" ")?;
    held.extend_from_slice(before)?;
    held.extend_from_slice(b" ")?;
    held.extend_from_slice(after)
}

/// Appends `~ KEY OLD NEW`.
#[tactic(auto, unfolding(crate::specs::Relabelled::changed_line))]
fn push_line(key: &[u8], before: &[u8], after: &[u8], held: &mut Vec<u8>) -> Result<(), AllocError>
    ensures { OnOk result (held.new.items ≡ held.old.items ++ spec.changed_line key.now before.now after.now) }
{
    held.extend_from_slice(b"~ ")?;
    push_words(key, before, after, held)?;
    held.extend_from_slice(b"\n")
}

/// Appends the line for a key, if its label differs.
#[tactic(auto, unfolding(crate::specs::Relabelled::changed))]
pub fn push_changed(
    old: &Prepared,
    new: &Prepared,
    key: &[u8],
    held: &mut Vec<u8>,
) -> Result<(), AllocError>
    ensures { OnOk result (held.new.items ≡ held.old.items ++ spec.changed old.now new.now key.now) }
{
    let before = old.label(key).text();
    let after = new.label(key).text();
    if spells(before, after) {
        return Ok(());
    }
    push_line(key, before, after, held)
}
