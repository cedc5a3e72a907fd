//! An engine over any reader, writer and machine: it cuts its input into the items of `sm_wire`, requests and policies,
//! lets the machine answer them one after another, and writes the answers. What an item means is the machine's.
#![tactic(auto)]

mod answering;
mod buffers;
mod counted;
mod fault;
mod machine;
mod running;
mod serve_fault;
mod writing;

pub use counted::Counted;
pub use fault::Fault;
pub use machine::Machine;
pub use running::run;
pub use serve_fault::ServeFault;
pub use writing::write_whole;
