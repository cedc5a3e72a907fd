//! Copies of tables, which share texts, deliveries and policies with the originals.

ghost use Rattle.std.specs.Prelude.{◌≡◌, IfOk};
ghost use Rattle.sm_history.specs.Effects.{Effects};
ghost use Rattle.sm_history.specs.Tables.{TracksTables};
ghost use Rattle.sm_replay.specs.Replaying.{AreSameRows};

use sm_history::{ClientRow, Delivery, Held, NamedRow, Shared, Tables, watches_of};
use sm_policy::Prepared;
use sm_values::Identity;
use std::alloc::{AllocError, Global};

fn slots_of(alloc: Global, slots: &[Option<Held>]) -> Result<Vec<Option<Held>>, AllocError>
    ensures { IfOk result (λ v. v.items ≡ slots.now) }
{
    let mut copies = Vec::new(alloc);
    for slot in slots {
        copies.push(*slot)?;
    }
    Ok(copies)
}

fn deliveries_of(
    alloc: Global,
    waiting: &[Shared<Delivery>],
) -> Result<Vec<Shared<Delivery>>, AllocError>
    ensures { IfOk result (λ v. v.items ≡ waiting.now) }
{
    let mut copies = Vec::new(alloc);
    for delivery in waiting {
        copies.push(delivery.clone()?)?;
    }
    Ok(copies)
}

fn rows_of(alloc: Global, rows: &[ClientRow]) -> Result<Vec<ClientRow>, AllocError>
    ensures { IfOk result (λ v. AreSameRows rows.now v.items) }
{
    let mut copies = Vec::new(alloc);
    for row in rows {
        let held = slots_of(alloc, &row.held)?;
        let waiting = deliveries_of(alloc, &row.waiting)?;
        copies.push(ClientRow {
            client: row.client,
            who: row.who.clone()?,
            held,
            waiting,
        })?;
    }
    Ok(copies)
}

fn names_of(alloc: Global, rows: &[NamedRow]) -> Result<Vec<NamedRow>, AllocError>
    ensures { IfOk result (λ v. v.items ≡ rows.now) }
{
    let mut copies = Vec::new(alloc);
    for row in rows {
        let name = row.name.clone()?;
        let service = row.service;
        copies.push(NamedRow { name, service })?;
    }
    Ok(copies)
}

fn manager_of(manager: &Option<Identity>) -> Result<Option<Identity>, AllocError>
    ensures { IfOk result (λ v. v ≡ manager.now) }
{
    match manager {
        None => Ok(None),
        Some(who) => Ok(Some(who.clone()?)),
    }
}

fn policy_of(policy: &Option<Prepared>) -> Result<Option<Prepared>, AllocError>
    ensures { IfOk result (λ v. v ≡ policy.now) }
{
    match policy {
        None => Ok(None),
        Some(policy) => Ok(Some(policy.share()?)),
    }
}

/// Copies tables. Returns an error if an allocation fails.
pub fn copied(tables: &Tables) -> Result<Tables, AllocError>
    ensures { IfOk result (λ t. (d : Effects) → TracksTables d tables.now → TracksTables d t) }
{
    let alloc = tables.alloc;
    let manager = manager_of(&tables.manager)?;
    let policy = policy_of(&tables.policy)?;
    let live = rows_of(alloc, &tables.live)?;
    let names = names_of(alloc, &tables.names)?;
    let watches = watches_of(alloc, &tables.watches)?;
    Ok(Tables {
        alloc,
        manager,
        policy,
        version: tables.version,
        clients: tables.clients,
        live,
        names,
        watches,
    })
}
