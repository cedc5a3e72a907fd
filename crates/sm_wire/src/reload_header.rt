//! Headers of `reload` lines.

ghost use Rattle.std.specs.Prelude.{◌≡◌, ◌+◌};
ghost use Rattle.sm_wire.specs.Reading.{ReadsAs};
ghost use Rattle.sm_wire.specs.LineTable.{reload_line};
ghost use Rattle.sm_wire.specs.Grammar.{line_of};

use crate::fields::Fields;
use crate::numbers::{u32_field, u64_field};
use crate::read_error::ReadError;
use crate::request::Request;

/// The header of a `reload` line: the expected version of the policy in force, and the sizes of the policy source and
/// of the contexts file that follow the line, in bytes.
#[derive(Clone, Copy, PartialEq, Eq)]
pub struct ReloadHeader {
    pub expected: u64,
    pub rules: u32,
    pub contexts: u32,
}

impl ReloadHeader {
    /// Returns the number of bytes that follow the line.
    pub fn length(&self) -> u64
        ensures { result ≡ self.now.rules + self.now.contexts }
    {
        u64::from(self.rules) + u64::from(self.contexts)
    }
}

/// Reads the fields of `reload EXPECTED R C`.
#[tactic(auto, unfolding(crate::specs::Grammar::parsed_by))]
pub fn reload(fields: &mut Fields<'_>) -> Result<Request, ReadError>
    ensures { ReadsAs result (line_of reload_line fields.old) }
{
    let expected = fields.field()?;
    let rules = fields.field()?;
    let contexts = fields.field()?;
    fields.end()?;
    let expected = u64_field(expected)?;
    let rules = u32_field(rules)?;
    let contexts = u32_field(contexts)?;
    Ok(Request::Reload {
        expected,
        rules,
        contexts,
    })
}
