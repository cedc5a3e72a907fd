//! The line protocol: request lines are parsed, reply lines are written, and a stream of bytes is cut into its
//! requests, in whatever pieces it comes.
#![tactic(auto)]

mod client_requests;
mod decimals;
mod deliveries;
mod denials;
mod ends;
mod fields;
mod frame_state;
mod framing;
mod grammar;
mod item;
mod kind;
mod laws;
mod lines;
mod names;
mod numbers;
mod policy_refusals;
mod read_error;
mod recent_names;
mod refusals;
mod reload_header;
mod replies;
mod request;
mod script_lines;
mod telling;
mod texts;
mod values;

pub use denials::push_denials;
pub use item::Item;
pub use kind::Kind;
pub use laws::{
    any_cut, change_lines, first_line, long_line, one_request, one_spelling, recorded_lines,
    reload_line, written_lines,
};
pub use lines::LineReader;
pub use policy_refusals::push_policy_refused;
pub use read_error::ReadError;
pub use reload_header::ReloadHeader;
pub use replies::{push_malformed, push_outcome, push_reply, reply_line};
pub use request::Request;
pub use script_lines::{has_line, push_change, push_hello, push_reload};
pub use telling::Telling;
pub use texts::PolicyTexts;
