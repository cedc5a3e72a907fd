//! A server of connections at a door: sessions of clients in worker threads, and those of administrators in one more.
//! A third kind of connections, those of the owner, are told the state of the manager.
#![tactic(auto)]

mod accounts;
mod admitting;
mod arrived;
mod arriving;
mod attending;
mod crowd;
mod entrance;
mod faults;
mod heartbeat;
mod level;
mod live;
mod load;
mod log_lines;
mod log_writer;
mod operator;
mod owner;
mod pace;
mod pages;
mod patience;
mod queue;
mod rate;
mod sealing;
mod server_log;
mod serving;
mod settling;
mod shared_admin;
mod turned_away;
mod uninterrupted;
mod visitor;
mod whole_lines;

pub use entrance::Entrance;
pub use level::{Level, LogEntry};
pub use log_lines::LogLines;
pub use log_writer::{LogForm, write_log};
pub use operator::{Milestone, Operator};
pub use patience::Patience;
pub use server_log::{ServerLog, WaitingLines};
pub use serving::{Numbers, serve};
