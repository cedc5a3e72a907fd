//! Events, outcomes and replies of a service manager, and the definitions of its histories.
//!
//! `src/` has the types of events, outcomes, queries and replies. `specs/` has the definitions that the whole product
//! is proved against: what a history did, each table as a count, a filter or a search over it, the checks of each
//! request, and the verdict.
//!
//! Threads share one manager behind a lock, and each has a token. In contracts a token knows a history, the one that
//! its thread has seen; that history only goes on, and is always lawful (`specs/Tokens.antt`). What a change, a read, a
//! connect or a death promises of it is in `specs/Promises.antt`: the answer is the verdict of the history that the
//! token sees from then on, and this one begins with all that it had seen before. `promises` derives this from one step
//! of the manager and the book that is seen after it.
//!
//! An `AllocError` says that an allocation failed, and nothing else.
#![tactic(auto)]

mod by;
mod client_row;
mod client_rows;
mod delivery;
mod denial;
mod effect;
mod entry;
mod event;
mod gate;
mod held;
pub mod laws;
mod limits;
mod name_bytes;
mod name_list;
mod named_row;
mod notice;
mod outcome;
pub mod promises;
mod query;
mod records;
mod refusal;
mod reply;
mod results;
mod rows;
mod segment;
mod sequence;
mod service;
mod shared;
mod tables;
mod told;
mod turn;

pub use by::By;
pub use client_row::ClientRow;
pub use client_rows::{OfClient, row_index};
pub use delivery::{Delivery, Given, GivenRefs, Message};
pub use denial::Denial;
pub use effect::{Effect, Watch, WatchPair, watches_of};
pub use entry::Entry;
pub use event::Event;
pub use gate::{Gate, NoGate};
pub use held::Held;
pub use limits::{
    GREATEST, LAST_CLIENT, MOST_CLIENTS, MOST_DELIVERIES, MOST_HANDLES, MOST_NAMES, MOST_WATCHES,
};
pub use name_list::NameList;
pub use named_row::NamedRow;
pub use notice::{Notice, Notices, Reason, Told};
pub use outcome::Outcome;
pub use query::Query;
pub use records::Record;
pub use refusal::{Exception, Failure, Refusal};
pub use reply::{Answer, Reply};
pub use results::{connected, died, installed, is_death, moves};
pub use rows::Rows;
pub use segment::{Chunk, Segment};
pub use sequence::Sequence;
pub use service::Service;
pub use shared::Shared;
pub use tables::Tables;
pub use told::is_hidden;
pub use turn::TurnRow;
