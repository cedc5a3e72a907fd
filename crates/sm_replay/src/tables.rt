//! What each effect makes of tables.

ghost use Rattle.std.specs.Prelude.{◌≡◌, ◌∷◌, ◌<◌, true, ℕ, Some, [], map, filter, not, ◌==◌, ◌++◌, OnOk};
ghost use Rattle.sm_values.specs.declared.number.Node.{Node};
ghost use Rattle.sm_history.specs.declared.limits.TheConstants.{GREATEST};
ghost use Rattle.sm_history.specs.declared.effect.Effect.TheVariants.{Adds, Connects, Delivers, Dies, Gives, Opens};
ghost use Rattle.sm_history.specs.declared.effect.Effect.TheVariants.{Releases, Removes, Sets, Takes, Unwatches};
ghost use Rattle.sm_history.specs.declared.effect.Effect.TheVariants.{Watches};
ghost use Rattle.sm_history.specs.Effects.{Effects};
ghost use Rattle.sm_history.specs.Clients.{is_live, version_at};
ghost use Rattle.sm_history.specs.Holdings.{node_at};
ghost use Rattle.sm_history.specs.Services.{same_watch};
ghost use Rattle.sm_history.specs.Histories.{watch as make_watch};
ghost use Rattle.sm_history.specs.Sound.{Sound};
ghost use Rattle.sm_history.specs.Following.{MayFollow, MayGive};
ghost use Rattle.sm_history.specs.Tables.{TracksTables};

use crate::live::{add_client, deliver_to, give_to, release_of, remove_client, take_from};
use crate::named_rows::{put_name, remove_name, remove_names};
use sm_history::{Delivery, Service, Shared, Tables, Watch};
use sm_policy::Prepared;
use sm_values::{Identity, Name, Node};
use std::alloc::AllocError;

fn is_same(watch: &Watch, client: u32, name: &[u8], object: u32) -> bool
    ensures { result ≡ same_watch (make_watch client name.now object) watch.now }
{
    client == watch.client && name == watch.name.bytes() && object == watch.object
}

/// Removes every watch of a name by a client's object.
fn end_watches(watches: &mut Vec<Watch>, client: u32, name: &[u8], object: u32)
    ensures { watches.new.items
        ≡ filter (λ w. not (same_watch (make_watch client name.now object) w)) watches.old.items }
{
    watches.retain(|w| !is_same(w, client, name, object));
}

/// Removes a client's watches.
fn remove_watches(watches: &mut Vec<Watch>, client: u32)
    ensures { watches.new.items ≡ filter (λ w. not (client == w.client)) watches.old.items }
{
    watches.retain(|w| client != w.client);
}

/// Opens the manager under an identity and a policy.
pub fn open(tables: &mut Tables, who: Identity, policy: Prepared)
    ensures { (d : Effects) → TracksTables d tables.old → version_at d < GREATEST
        → TracksTables (Sets policy ∷ Opens who ∷ d) tables.new }
{
    tables.manager = Some(who);
    set(tables, policy);
}

/// Puts a policy into force.
pub fn set(tables: &mut Tables, policy: Prepared)
    ensures { (d : Effects) → TracksTables d tables.old → version_at d < GREATEST
        → TracksTables (Sets policy ∷ d) tables.new }
{
    tables.policy = Some(policy);
    tables.version = tables.version.saturating_add(1);
}

/// Connects a client. Returns an error if an allocation fails.
pub fn connect(tables: &mut Tables, client: u32, who: Identity) -> Result<(), AllocError>
    ensures { OnOk result ((d : Effects) → Sound d → TracksTables d tables.old
        → MayFollow d (Connects client who) → TracksTables (Connects client who ∷ d) tables.new) }
{
    add_client(&mut tables.live, tables.alloc, client, who)?;
    let connected = u64::from(client);
    tables.clients = connected;
    Ok(())
}

/// Removes a client.
pub fn die(tables: &mut Tables, client: u32)
    ensures { (d : Effects) → Sound d → TracksTables d tables.old
        → MayFollow d (Dies client) → TracksTables (Dies client ∷ d) tables.new }
{
    remove_client(&mut tables.live, client);
    remove_names(&mut tables.names, client);
    remove_watches(&mut tables.watches, client);
}

/// Sets the service of a name. Returns an error if an allocation fails.
pub fn add(tables: &mut Tables, name: Name, service: Service) -> Result<(), AllocError>
    ensures { OnOk result ((d : Effects) → TracksTables d tables.old
        → MayFollow d (Adds name service) → TracksTables (Adds name service ∷ d) tables.new) }
{
    put_name(&mut tables.names, name, service)?;
    Ok(())
}

/// Removes the service of a name.
pub fn remove(tables: &mut Tables, name: &[u8])
    ensures { (d : Effects) → TracksTables d tables.old → TracksTables (Removes name.now ∷ d) tables.new }
{
    remove_name(&mut tables.names, name);
}

/// Grants an object to a client once more, under a number. Returns an error if an allocation fails.
pub fn give(tables: &mut Tables, client: u32, node: Node, number: u32) -> Result<(), AllocError>
    ensures { OnOk result ((d : Effects) → Sound d → TracksTables d tables.old
        → MayGive d client node number → TracksTables (Gives client node number ∷ d) tables.new) }
{
    give_to(&mut tables.live, client, node, number)?;
    Ok(())
}

/// Releases one grant of what a client holds under a number. Returns an error if an allocation fails.
pub fn release(tables: &mut Tables, client: u32, number: u32) -> Result<(), AllocError>
    ensures { OnOk result ((d : Effects) (n : Node) → Sound d → TracksTables d tables.old
        → node_at d client number ≡ Some n → MayFollow d (Releases client n)
        → TracksTables (Releases client n ∷ d) tables.new) }
{
    release_of(&mut tables.live, client, number)?;
    Ok(())
}

/// Adds a watch. Returns an error if an allocation fails.
pub fn watch(tables: &mut Tables, watch: Watch) -> Result<(), AllocError>
    ensures { OnOk result ((d : Effects) → TracksTables d tables.old
        → is_live d watch.client ≡ true → TracksTables (Watches watch ∷ d) tables.new) }
{
    tables.watches.push(watch)?;
    Ok(())
}

/// Removes every watch of a name by a client's object.
pub fn unwatch(tables: &mut Tables, client: u32, name: &[u8], object: u32)
    ensures { (d : Effects) → TracksTables d tables.old
        → TracksTables (Unwatches (make_watch client name.now object) ∷ d) tables.new }
{
    end_watches(&mut tables.watches, client, name, object);
}

/// Appends a delivery to a client's inbox. Returns an error if an allocation fails.
pub fn deliver(
    tables: &mut Tables,
    client: u32,
    delivery: Shared<Delivery>,
) -> Result<(), AllocError>
    ensures { OnOk result ((d : Effects) → Sound d → TracksTables d tables.old
        → is_live d client ≡ true → TracksTables (Delivers client delivery ∷ d) tables.new) }
{
    deliver_to(&mut tables.live, client, delivery)?;
    Ok(())
}

/// Removes the oldest delivery from a client's inbox.
pub fn take(tables: &mut Tables, client: u32)
    ensures { (d : Effects) → TracksTables d tables.old → is_live d client ≡ true
        → TracksTables (Takes client ∷ d) tables.new }
{
    take_from(&mut tables.live, client);
}
