//! The command line of `svcmgr`: its options, the files that it names, and the lines on standard error where there is
//! no answer.
#![tactic(auto)]

mod administration;
mod building;
mod ending;
mod files;
mod numbers;
mod options;
mod parser;
mod question;
mod request_lines;
mod sockets;
mod unknown;

pub use administration::{AdminRequest, Administration, RuleWords};
pub use ending::{Ending, NO_MEMORY, lock_of};
pub use files::{read_limited, read_log};
pub use options::{Invocation, Mode, Options, invocation_of, words_of};
pub use parser::VERSION;
pub use question::{
    AccessWords, FilterWords, NameWords, NewFiles, Question, RuleFilterWords, TargetWord,
};
pub use request_lines::{explain_line, is_granted, is_whole, reload_request, version_in};
pub use sockets::Sockets;
pub use unknown::unknown_line;
