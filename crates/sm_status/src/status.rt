//! The state of a manager.

use crate::client_status::ClientStatus;
use sm_history::{NamedRow, Watch};
use sm_policy::Prepared;
use sm_values::drop_fields;
use std::marker::Model;

/// The state of a manager at one moment: counts, the policy in force, and what there is of clients, names and watches.
/// It shares texts and the policy with the manager.
pub struct Status {
    pub version: u64,
    pub length: u64,
    /// The number of seals.
    pub seals: u64,
    /// The number of slots that the open segment uses.
    pub used: u64,
    pub policy: Prepared,
    /// The live clients, by number.
    pub clients: Vec<ClientStatus>,
    /// The names that have a service, in rising byte order.
    pub names: Vec<NamedRow>,
    /// The watches, oldest first.
    pub watches: Vec<Watch>,
}

impl Drop for Status {
    fn drop(self) {
        drop_fields!(self: version, length, seals, used, policy, clients, names, watches);
    }
}

impl Model for Status {
    ghost use Rattle.sm_status.specs.States.{State};

    ghost Value = { State };

    ghost view = { λ s. record {
      version = s.version;
      length = s.length;
      seals = s.seals;
      used = s.used;
      policy = s.policy;
      clients = s.clients.items;
      names = s.names.items;
      watches = s.watches.items;
    } };
}
