//! Scripts: request lines in, reply lines out. One service manager judges each request on the state after those before
//! it.
#![tactic(auto)]

mod judging;
pub mod laws;
mod manager_script;
mod running;
mod script_fault;

pub use manager_script::Script;
pub use running::run_script;
pub use script_fault::ScriptFault;
