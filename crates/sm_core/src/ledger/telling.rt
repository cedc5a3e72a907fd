//! The state of a ledger.

ghost use Rattle.std.specs.Prelude.{◌≡◌, IfOk, map};
ghost use Rattle.sm_status.specs.States.{state_of};
ghost use Rattle.sm_core.specs.Statuses.{row_status};

use crate::client::LiveClient;
use crate::ledger::Ledger;
use sm_history::By;
use sm_status::{ClientStatus, Status};
use sm_values::ClientId;
use std::alloc::AllocError;

impl Ledger {
    /// Returns the state that the changes so far left. It shares texts and the policy with the tables.
    pub fn status(&self) -> Result<Status, AllocError>
        ensures { IfOk result (λ s. s ≡ state_of self.now.book.history) }
    {
        let principals = &self.state.principals;
        Ok(Status {
            version: principals.version,
            length: self.journal.history_length(),
            seals: self.journal.number().saturating_sub(1),
            used: self.journal.entry_count() as u64,
            policy: principals.policy.prepared().share()?,
            clients: self.client_statuses(&principals.clients)?,
            names: self.state.names.services().listed(self.alloc)?,
            watches: self.state.names.listed_watches(self.alloc)?,
        })
    }

    fn client_statuses(&self, rows: &[LiveClient]) -> Result<Vec<ClientStatus>, AllocError>
        ensures { IfOk result (λ v. v.items ≡ map (row_status self.now.book.history) rows.now) }
    {
        let mut statuses = Vec::with_capacity(self.alloc, rows.len())?;
        for row in rows {
            statuses.push(self.client_status(row)?)?;
        }
        Ok(statuses)
    }

    fn client_status(&self, row: &LiveClient) -> Result<ClientStatus, AllocError>
        ensures { IfOk result (λ s. s ≡ row_status self.now.book.history row.now) }
    {
        Ok(ClientStatus {
            client: row.id,
            who: row.process.who.clone()?,
            turns: self.turn(By::Client(ClientId(row.id))),
            handles: self.state.grants.held(row.id) as u64,
            deliveries: self.state.inboxes.waiting(row.id) as u64,
        })
    }
}
