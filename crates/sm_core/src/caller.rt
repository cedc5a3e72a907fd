//! Actors that may act.

use crate::client::LiveClient;
use sm_values::AdminId;

/// An actor that may act. A client comes with its row.
#[derive(Clone, Copy)]
pub enum Caller<'a> {
    Manager,
    Client(&'a LiveClient),
    Admin(AdminId),
}
