//! The statements of a source that is being read.

ghost use Rattle.std.specs.Prelude.{◌≡◌, []};
ghost use Rattle.sm_values.specs.Reading.{Gives};
ghost use Rattle.sm_ruletext.specs.Grammar.{is_memory};
ghost use Rattle.sm_ruletext.specs.Statements as spec;

use crate::{MOST_RULES, RuleTextFault, Statement, What};
use std::alloc::Global;
use std::marker::Model;

/// The statements so far, and the number of rules among them.
pub struct Statements {
    list: Vec<Statement>,
    rules: u32,
}

impl Drop for Statements {
    fn drop(self) {
        let Statements { list: _, rules: _ } = self;
    }
}

impl Model for Statements {
    ghost use Rattle.std.specs.Prelude.{List, ◌≡◌, ◌≤◌};
    ghost use Rattle.sm_ruletext.specs.declared.statement.Statement.{Statement};
    ghost use Rattle.sm_ruletext.specs.Statements.{rule_count};
    ghost use Rattle.sm_ruletext.specs.declared.limits.TheConstants.{MOST_RULES};

    ghost Value = { List Statement };

    ghost view = { λ s. s.list.items };

    ghost invariant = { λ s. (s.rules ≡ rule_count s.list.items) × (s.rules ≤ MOST_RULES) };
}

impl Statements {
    /// Makes an empty list.
    pub fn new(alloc: Global) -> Statements
        ensures { result ≡ [] }
    {
        Statements {
            list: Vec::new(alloc),
            rules: 0,
        }
    }

    /// Appends a statement, unless it is skipped or a rule too many.
    #[tactic(auto, unfolding(crate::specs::Statements::with_statement))]
    pub fn add(&mut self, line: u32, what: Option<What>) -> Result<(), RuleTextFault>
        ensures { Gives is_memory (λ _. self.new) result (spec.with_statement line self.old what) }
    {
        let Some(what) = what else {
            return Ok(());
        };
        let is_rule = what.is_rule();
        if is_rule && self.rules == MOST_RULES {
            return Err(RuleTextFault::TooMany);
        }
        let statement = Statement { line, what };
        self.list.push(statement).ok().ok_or(RuleTextFault::Memory)?;
        if is_rule {
            self.rules += 1;
        }
        Ok(())
    }

    /// Returns the statements in their order.
    pub fn into_vec(self) -> Vec<Statement>
        ensures { result.items ≡ self }
    {
        let Statements { list, rules: _ } = self;
        list
    }
}
