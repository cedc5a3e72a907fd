//! The tables of a manager, as rows.

ghost use Rattle.std.specs.Prelude.{IfOk};
ghost use Rattle.sm_history.specs.Effects.{Effects};
ghost use Rattle.sm_history.specs.Tables.{TracksTables};
ghost use Rattle.sm_grants.specs.Rows.{Tracks};
ghost use Rattle.sm_inbox.specs.Tracking.{TracksInboxes};
ghost use Rattle.sm_core.specs.Listed.{AreListed, IsListed};
ghost use Rattle.sm_core.specs.Stands.{Stands};

use crate::client::LiveClient;
use crate::state::State;
use sm_grants::Grants;
use sm_history::{ClientRow as Listed, Tables};
use sm_inbox::Inboxes;
use std::alloc::{AllocError, Global};

/// Copies a client's row for a segment. Returns an error if an allocation fails.
fn listed_client(
    alloc: Global,
    grants: &Grants,
    inboxes: &Inboxes,
    row: &LiveClient,
) -> Result<Listed, AllocError>
    ensures { IfOk result
        (λ l. (d : Effects) → Tracks d grants.now → TracksInboxes d inboxes.now → IsListed d row.now l) }
{
    Ok(Listed {
        client: row.id,
        who: row.process.who.clone()?,
        held: grants.listed(alloc, row.id)?,
        waiting: inboxes.listed(alloc, row.id)?,
    })
}

/// Copies the rows of clients for a segment. Returns an error if an allocation fails.
fn listed_clients(
    alloc: Global,
    grants: &Grants,
    inboxes: &Inboxes,
    rows: &[LiveClient],
) -> Result<Vec<Listed>, AllocError>
    ensures { IfOk result (λ v. (d : Effects) → Tracks d grants.now → TracksInboxes d inboxes.now
        → AreListed d rows.now v.items) }
{
    let mut list = Vec::new(alloc);
    for row in rows {
        list.push(listed_client(alloc, grants, inboxes, row)?)?;
    }
    Ok(list)
}

/// Returns the tables as rows.
pub fn tables_of(alloc: Global, state: &State) -> Result<Tables, AllocError>
    ensures { IfOk result (λ t. (d : Effects) → Stands d state.now → TracksTables d t) }
{
    let principals = &state.principals;
    Ok(Tables {
        alloc,
        manager: Some(principals.manager.who.clone()?),
        policy: Some(principals.policy.prepared().share()?),
        version: principals.version,
        clients: state.next.saturating_sub(1),
        live: listed_clients(alloc, &state.grants, &state.inboxes, &principals.clients)?,
        names: state.names.services().listed(alloc)?,
        watches: state.names.listed_watches(alloc)?,
    })
}
