//! Names in reply lines.

ghost use Rattle.std.specs.Prelude.{◌≡◌, ◌++◌, OnOk};
ghost use Rattle.std.specs.List.{flat_map};
ghost use Rattle.sm_wire.specs.Replies.{spaced_name};

use sm_history::NameList;
use sm_values::push_name;
use std::alloc::{AllocError, Global};

/// Appends each name after a space. If all are valid, their bytes are appended at once.
#[tactic(auto, using(crate::proofs::ValidNames::valid_texts))]
pub fn push_names(alloc: Global, out: &mut Vec<u8>, names: &NameList) -> Result<(), AllocError>
    ensures { OnOk result (out.new.items ≡ out.old.items ++ flat_map spaced_name names.now) }
{
    if let Some(text) = names.plain_text() {
        return out.extend_from_slice(text);
    }
    for i in 0..names.len() {
        push_spaced_name(alloc, out, names.name(i))?;
    }
    Ok(())
}

/// Appends a space and a name.
pub fn push_spaced_name(alloc: Global, out: &mut Vec<u8>, name: &[u8]) -> Result<(), AllocError>
    ensures { OnOk result (out.new.items ≡ out.old.items ++ spaced_name name.now) }
{
    out.push(b' ')?;
    push_name(alloc, out, name)
}
