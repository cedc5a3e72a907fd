//! Decisions.

/// The decision on a check that needs an allow rule.
#[derive(Clone, Copy, PartialEq, Eq)]
pub struct Decision {
    /// The check passes.
    pub allowed: bool,
    /// The check is recorded: no allow rule grants the permission, and no dontaudit rule covers it.
    pub audited: bool,
}
