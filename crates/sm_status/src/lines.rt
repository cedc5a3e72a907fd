//! The lines of a state.

ghost use Rattle.std.specs.Prelude.{◌≡◌, ◌++◌, OnOk, codes};
ghost use Rattle.std.specs.List.{flat_map};
ghost use Rattle.sm_policy.specs.Policy.{label_of};
ghost use Rattle.sm_status.specs.StateLines.{client_line, counts_line, counts_text, process_text, service_line};
ghost use Rattle.sm_status.specs.StateLines.{spaced_flag, state_text, watch_line, watches_by};

use crate::client_status::ClientStatus;
use crate::status::Status;
use sm_history::{NamedRow, Watch};
use sm_policy::Prepared;
use sm_values::{push_name, push_numbered};
use std::alloc::{AllocError, Global};

/// Appends the lines of a state. On error a part may have been appended.
#[tactic(auto, unfolding(crate::specs::StateLines::state_text))]
pub fn push_status(alloc: Global, out: &mut Vec<u8>, status: &Status) -> Result<(), AllocError>
    ensures { OnOk result (out.new.items ≡ out.old.items ++ state_text status.now) }
{
    push_counts(out, status)?;
    push_clients(out, &status.watches, &status.clients)?;
    push_services(alloc, out, &status.policy, &status.names)?;
    push_watches(alloc, out, &status.watches)
}

#[tactic(auto, unfolding(crate::specs::StateLines::counts_line))]
fn push_counts(out: &mut Vec<u8>, status: &Status) -> Result<(), AllocError>
    ensures { OnOk result (out.new.items ≡ out.old.items ++ counts_line status.now) }
{
    push_numbered(out, b"state ", status.version)?;
    push_numbered(out, b" ", status.length)?;
    push_numbered(out, b" ", status.seals)?;
    push_numbered(out, b" ", status.used)?;
    out.extend_from_slice(b"\n")
}

fn push_clients(
    out: &mut Vec<u8>,
    watches: &[Watch],
    clients: &[ClientStatus],
) -> Result<(), AllocError>
    ensures { OnOk result (out.new.items ≡ out.old.items ++ flat_map (client_line watches.now) clients.now) }
{
    for client in clients {
        push_client(out, watches, client)?;
    }
    Ok(())
}

#[tactic(auto, unfolding(crate::specs::StateLines::client_line))]
fn push_client(
    out: &mut Vec<u8>,
    watches: &[Watch],
    client: &ClientStatus,
) -> Result<(), AllocError>
    ensures { OnOk result (out.new.items ≡ out.old.items ++ client_line watches.now client.now) }
{
    push_process(out, client)?;
    push_client_counts(out, watches, client)?;
    out.extend_from_slice(b"\n")
}

#[tactic(auto, unfolding(crate::specs::StateLines::process_text))]
fn push_process(out: &mut Vec<u8>, client: &ClientStatus) -> Result<(), AllocError>
    ensures { OnOk result (out.new.items ≡ out.old.items ++ process_text client.now) }
{
    push_numbered(out, b"client ", u64::from(client.client))?;
    push_numbered(out, b" ", u64::from(client.who.pid))?;
    push_numbered(out, b" ", u64::from(client.who.uid))?;
    out.extend_from_slice(b" ")?;
    out.extend_from_slice(client.who.context.text())
}

#[tactic(auto, unfolding(crate::specs::StateLines::counts_text))]
fn push_client_counts(
    out: &mut Vec<u8>,
    watches: &[Watch],
    client: &ClientStatus,
) -> Result<(), AllocError>
    ensures { OnOk result (out.new.items ≡ out.old.items ++ counts_text watches.now client.now) }
{
    push_numbered(out, b" ", client.turns)?;
    push_numbered(out, b" ", client.handles)?;
    push_numbered(out, b" ", watches_by(watches, client.client) as u64)?;
    push_numbered(out, b" ", client.deliveries)
}

/// Returns the number of watches of a client.
fn watches_by(watches: &[Watch], client: u32) -> usize
    ensures { result ≡ watches_by watches.now client }
{
    watches
        .iter()
        .filter(|watch| watch.client == client)
        .count()
}

fn push_services(
    alloc: Global,
    out: &mut Vec<u8>,
    policy: &Prepared,
    names: &[NamedRow],
) -> Result<(), AllocError>
    ensures { OnOk result (out.new.items ≡ out.old.items ++ flat_map (service_line policy.now) names.now) }
{
    for row in names {
        push_service(alloc, out, policy, row)?;
    }
    Ok(())
}

#[tactic(auto, unfolding(crate::specs::StateLines::service_line))]
fn push_service(
    alloc: Global,
    out: &mut Vec<u8>,
    policy: &Prepared,
    row: &NamedRow,
) -> Result<(), AllocError>
    ensures { OnOk result (out.new.items ≡ out.old.items ++ service_line policy.now row.now) }
{
    out.extend_from_slice(b"service ")?;
    push_name(alloc, out, row.name.bytes())?;
    push_numbered(out, b" ", u64::from(row.service.node.owner.0))?;
    push_numbered(out, b" o", u64::from(row.service.node.object))?;
    push_numbered(out, b" ", u64::from(row.service.adder))?;
    out.extend_from_slice(flag(row.service.allow_isolated))?;
    push_numbered(out, b" ", u64::from(row.service.dump))?;
    out.extend_from_slice(b" ")?;
    out.extend_from_slice(policy.label(row.name.bytes()).text())?;
    out.extend_from_slice(b"\n")
}

fn flag(is_set: bool) -> &'static [u8]
    ensures { result.now ≡ spaced_flag is_set }
{
    if is_set { b" 1" } else { b" 0" }
}

fn push_watches(alloc: Global, out: &mut Vec<u8>, watches: &[Watch]) -> Result<(), AllocError>
    ensures { OnOk result (out.new.items ≡ out.old.items ++ flat_map watch_line watches.now) }
{
    for watch in watches {
        push_watch(alloc, out, watch)?;
    }
    Ok(())
}

#[tactic(auto, unfolding(crate::specs::StateLines::watch_line))]
fn push_watch(alloc: Global, out: &mut Vec<u8>, watch: &Watch) -> Result<(), AllocError>
    ensures { OnOk result (out.new.items ≡ out.old.items ++ watch_line watch.now) }
{
    out.extend_from_slice(b"watch ")?;
    push_name(alloc, out, watch.name.bytes())?;
    push_numbered(out, b" ", u64::from(watch.client))?;
    push_numbered(out, b" o", u64::from(watch.object))?;
    out.extend_from_slice(b"\n")
}
