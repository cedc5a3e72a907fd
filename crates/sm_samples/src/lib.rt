//! Shared by tests: policies, request lines with their answers, and readers and writers that give little or fail.
#![tactic(auto)]

mod failing;
mod talk;
mod texts;

pub use failing::{FailAt, OneByte, Pieces};
pub use talk::{Said, Talk, push_reload};
pub use texts::{
    BROKEN_RULE, DEVICE_LABELS, DEVICE_RULES, FIND_RULE, ONE_LABEL, PLAIN_RULES, RULE_FOR_DEFAULTS,
    STRICTER_FIND_RULE, device_rules_with, stricter_rules,
};
