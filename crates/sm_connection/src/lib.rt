//! One connection at a door: what is answered to each line of a client or an administrator, over any reader and writer,
//! and what the server counts of it. A session passes the requests to a desk one after another, and writes the answers.
//! It knows which requests each kind of connection may make, and when; how they are answered is the desk's.
#![tactic(auto)]

mod administrator;
mod answered;
mod audit_sink;
mod client;
mod command;
mod connection;
mod desk;
mod door_desk;
mod gated_session;
pub mod laws;
mod monitor;
mod owned;
mod refusals;
mod reserve;
mod response;
mod responses;
mod seal_at;
mod serving;
mod session_state;
mod sessions;
mod supervisor;

pub use audit_sink::{AuditSink, SupervisorSink};
pub use command::Command;
pub use desk::Desk;
pub use door_desk::Occasion;
pub use monitor::{Gauge, Monitor};
pub use owned::ENTRY;
pub use response::Response;
pub use seal_at::SealAt;
pub use serving::{serve_administrator, serve_client};
pub use session_state::SessionState;
pub use sessions::session;
pub use supervisor::{ServerEvent, Supervisor};
