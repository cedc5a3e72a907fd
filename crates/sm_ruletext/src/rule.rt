//! Rules.

ghost use Rattle.std.specs.Prelude.{◌≡◌};
ghost use Rattle.sm_ruletext.specs.Kept as spec;

use crate::Set;
use sm_values::drop_fields;

/// What follows `allow`, `neverallow` or `dontaudit`: `SOURCE TARGET : CLASS PERM`.
pub struct Rule {
    pub source: Set,
    pub target: Set,
    pub class: Set,
    pub perm: Set,
    /// Whether `self` is in the target.
    pub to_self: bool,
}

impl Drop for Rule {
    fn drop(self) {
        drop_fields!(self: source, target, class, perm, to_self);
    }
}

impl Rule {
    /// Returns whether its classes have one of those that servicemanager checks. Other rules have no effect here.
    #[tactic(auto, unfolding(crate::specs::Kept::is_kept))]
    pub fn is_kept(&self) -> bool
        ensures { result ≡ spec.is_kept self.now }
    {
        self.class.has_kept()
    }
}
