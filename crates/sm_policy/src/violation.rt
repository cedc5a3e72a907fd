//! A neverallow rule that an allow rule breaks.

use sm_values::{Class, Name, Perms, drop_fields};
use thiserror::Error;

/// The first thing that a neverallow rule forbids and an allow rule allows, with the names of its types.
#[derive(Debug, Error)]
#[error("neverallow at line {never_line} by allow at line {allow_line}: {source} {target} {class} {perm}")]
pub struct Violation {
    /// The line of the neverallow rule.
    pub never_line: u32,
    /// The line of the allow rule.
    pub allow_line: u32,
    pub source: Name,
    pub target: Name,
    pub class: Class,
    /// A single permission of the class.
    pub perm: Perms,
}

impl Drop for Violation {
    fn drop(self) {
        drop_fields!(self: never_line, allow_line, source, target, class, perm);
    }
}
