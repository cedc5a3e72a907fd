//! The door: one manager for many threads, behind one lock, with a published view that is read without it.
//!
//! Changes go through the lock, one at a time (`Door::submit`, `connect`, `die`, `install`). Each change that is
//! accepted is published as a whole **shared view**, a view of the manager, before it is kept, and what can't be
//! published isn't kept. Reads take the shared view that is published at that moment, and never block (`Door::list`,
//! `version`, `explain`).
//!
//! Callers hold tokens (`Seat`, `Session`, `Admin`), none of which can be copied. Contracts see a token as what it
//! knows: whose it is, the history that it has seen, and how often it has read. Every answer is the verdict of
//! the history which the token sees from then on. That history begins with all that the token had seen (`Promises.antt`
//! of `sm_history`).
//!
//! A thread that finds a published view can't see which history the view is of. So each view has an **id**, a number
//! that was given to its history when the view was made. Two ids with the same number denote the same history
//! (`HistoryId::is`). So a thread that holds the lock knows whether it found the view of the history under the lock, or
//! an older one. The **registry** gives out these numbers, in order (`Registry::add`). It records the histories only in
//! proofs: at run time a registry is a counter, and an id is a number.
#![tactic(auto)]

mod actor;
mod admin;
mod door;
mod locked_manager;
mod opening;
mod published;
mod publisher;
mod registry;
mod registry_rule;
mod seat;
mod seat_or_session;
mod session;
mod shared_view;
mod token;

pub use actor::Actor;
pub use admin::Admin;
pub use door::Door;
pub use locked_manager::LockedManager;
pub use opening::ADMINS;
pub use published::{OneHistory, Published, ReaderKnowledge, ViewReader, ViewWriter};
pub use publisher::Publisher;
pub use registry::{HistoryId, Naming, Registry, UnnamedRegistry};
pub use registry_rule::{Registered, Shows};
pub use seat::Seat;
pub use seat_or_session::SeatOrSession;
pub use session::Session;
pub use shared_view::SharedView;
pub use sm_history::Gate;
pub use token::Token;
