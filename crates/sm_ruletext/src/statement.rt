//! Statements of a policy source.

use crate::Rule;
use sm_values::{Name, Names};

/// The kind of a rule.
#[derive(Clone, Copy, PartialEq, Eq)]
pub enum RuleKind {
    /// `allow SOURCE TARGET : CLASS PERM;`
    Allow,
    /// `neverallow SOURCE TARGET : CLASS PERM;`
    Neverallow,
    /// `dontaudit SOURCE TARGET : CLASS PERM;`
    Dontaudit,
}

/// The content of a statement.
pub enum What {
    /// `attribute A;`
    Attribute(Name),
    /// `type T, A, ..;`
    Declared(Name, Names),
    /// `typeattribute T A, ..;`
    Member(Name, Names),
    /// An allow, a neverallow or a dontaudit rule.
    Rule(RuleKind, Rule),
    /// `permissive T;`
    Permissive(Name),
}

impl Drop for What {
    fn drop(self) {
        match self {
            What::Attribute(_) => {}
            What::Declared(_, _) => {}
            What::Member(_, _) => {}
            What::Rule(_, _) => {}
            What::Permissive(_) => {}
        }
    }
}

impl What {
    ghost use Rattle.std.specs.Prelude.{◌≡◌};
    ghost use Rattle.sm_ruletext.specs.Statements.{is_rule};

    /// Returns whether the statement is an allow, a neverallow or a dontaudit rule.
    pub fn is_rule(&self) -> bool
        ensures { result ≡ is_rule self.now }
    {
        matches!(self, What::Rule(_, _))
    }
}

/// A statement, with the line of its first byte; lines are numbered from 1.
pub struct Statement {
    pub line: u32,
    pub what: What,
}

impl Drop for Statement {
    fn drop(self) {
        let Statement { line: _, what: _ } = self;
    }
}
