//! Limits of policy sources.

/// The most rules that are kept: `allow`, `neverallow` and `dontaudit` rules for one of the two classes.
pub const MOST_RULES: u32 = 65_536;
