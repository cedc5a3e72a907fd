//! The numbers, names, contexts, classes and permissions that all parts of svcmgr use.
//!
//! Types here are plain values: nothing in this crate decides anything about access.
#![tactic(auto)]

mod class;
mod context;
mod drops;
mod escaped;
mod identity;
mod limits;
mod lines;
mod messages;
mod name;
mod number;
mod payload;
mod perms;
mod places;
mod refs;
mod user;
mod word;

pub use class::Class;
pub use context::{Context, ContextError, all_graphic, is_context};
pub use identity::Identity;
pub use limits::{
    LEAST_PLACES, MOST_NAME_BYTES, MOST_PAYLOAD_BYTES, MOST_PLACES, MOST_REFS, MOST_TEXT_BYTES,
};
pub use lines::{behind, is_blank, line_len};
pub use messages::{push_access, push_name, push_numbered};
pub use name::{Name, Names, valid_name};
pub use number::{AdminId, ClientId, Node, ObjRef};
pub use payload::{Payload, PayloadError};
pub use perms::Perms;
pub use places::Places;
pub use refs::{Refs, RefsError};
pub use user::{
    AID_APP_START, AID_ISOLATED_END, AID_ISOLATED_START, AID_USER_OFFSET, app_number,
    is_barred_app, is_isolated,
};
pub use word::{Word, spells};
