//! Tables, as rows by client.

use crate::client_row::ClientRow;
use crate::effect::Watch;
use crate::named_row::NamedRow;
use sm_policy::Prepared;
use sm_values::{Identity, drop_fields};
use std::alloc::Global;

/// The tables that effects leave.
pub struct Tables {
    pub alloc: Global,
    pub manager: Option<Identity>,
    pub policy: Option<Prepared>,
    pub version: u64,
    pub clients: u64,
    pub live: Vec<ClientRow>,
    pub names: Vec<NamedRow>,
    pub watches: Vec<Watch>,
}

impl Drop for Tables {
    fn drop(self) {
        drop_fields!(self: alloc, manager, policy, version, clients, live, names, watches);
    }
}
