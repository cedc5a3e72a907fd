//! The reader of policy sources: the statements of SELinux's policy language that declare types and attributes, give
//! attributes to types, allow, forbid, and silence denials, each with its line.
#![tactic(auto)]

mod fault;
mod grammar;
mod items;
mod keyword;
mod limits;
mod reading;
mod rule;
mod set;
mod set_pool;
mod statement;
mod statements;
mod token;
mod tokens;
mod word;
mod words;

pub use fault::RuleTextFault;
pub use limits::MOST_RULES;
pub use reading::read;
pub use rule::Rule;
pub use set::Set;
pub use statement::{RuleKind, Statement, What};
pub use word::is_word;
