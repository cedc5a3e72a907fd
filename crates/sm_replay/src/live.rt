//! The rows of the live clients.

ghost use Rattle.std.specs.Prelude.{◌≡◌, ◌∷◌, true, drop, Some, OnOk};
ghost use Rattle.sm_values.specs.declared.number.Node.{Node};
ghost use Rattle.sm_history.specs.declared.effect.Effect.TheVariants.{Connects, Delivers, Dies, Gives, Releases, Takes};
ghost use Rattle.sm_history.specs.Effects.{Effects};
ghost use Rattle.sm_history.specs.Clients.{is_live};
ghost use Rattle.sm_history.specs.Holdings.{node_at};
ghost use Rattle.sm_history.specs.Sound.{Sound};
ghost use Rattle.sm_history.specs.Following.{MayFollow, MayGive};
ghost use Rattle.sm_history.specs.Tables.{TracksClients};

use crate::client_rows::{client_index, give, release};
use sm_history::{ClientRow, Delivery, Shared};
use sm_values::{Identity, Node};
use std::alloc::{AllocError, Global};

/// Adds a new client's row. Returns an error if an allocation fails.
pub fn add_client(
    live: &mut Vec<ClientRow>,
    alloc: Global,
    client: u32,
    who: Identity,
) -> Result<(), AllocError>
    ensures { OnOk result ((d : Effects) → Sound d → TracksClients d live.old.items
        → MayFollow d (Connects client who) → TracksClients (Connects client who ∷ d) live.new.items) }
{
    live.push(ClientRow {
        client,
        who,
        held: Vec::new(alloc),
        waiting: Vec::new(alloc),
    })?;
    Ok(())
}

/// Removes a client's row.
pub fn remove_client(live: &mut Vec<ClientRow>, client: u32)
    ensures { (d : Effects) → Sound d → TracksClients d live.old.items
        → MayFollow d (Dies client) → TracksClients (Dies client ∷ d) live.new.items }
{
    live.retain(|row| row.client != client);
}

/// Grants an object to a client once more, under a number. Returns an error if an allocation fails.
pub fn give_to(
    live: &mut Vec<ClientRow>,
    client: u32,
    node: Node,
    number: u32,
) -> Result<(), AllocError>
    ensures { OnOk result ((d : Effects) → Sound d → TracksClients d live.old.items
        → MayGive d client node number → TracksClients (Gives client node number ∷ d) live.new.items) }
{
    let Some(i) = client_index(live, client) else {
        return Ok(());
    };
    give(&mut live[i], node, number)?;
    Ok(())
}

/// Releases one grant of what a client holds under a number. Returns an error if an allocation fails.
pub fn release_of(live: &mut Vec<ClientRow>, client: u32, number: u32) -> Result<(), AllocError>
    ensures { OnOk result ((d : Effects) (n : Node) → Sound d → TracksClients d live.old.items
        → node_at d client number ≡ Some n → MayFollow d (Releases client n)
        → TracksClients (Releases client n ∷ d) live.new.items) }
{
    let Some(i) = client_index(live, client) else {
        return Ok(());
    };
    release(&mut live[i], number)?;
    Ok(())
}

/// Appends a delivery to a client's inbox. Returns an error if an allocation fails.
pub fn deliver_to(
    live: &mut Vec<ClientRow>,
    client: u32,
    delivery: Shared<Delivery>,
) -> Result<(), AllocError>
    ensures { OnOk result ((d : Effects) → Sound d → TracksClients d live.old.items
        → is_live d client ≡ true → TracksClients (Delivers client delivery ∷ d) live.new.items) }
{
    let Some(i) = client_index(live, client) else {
        return Ok(());
    };
    live[i].waiting.push(delivery)?;
    Ok(())
}

/// Removes the oldest delivery from a client's inbox.
pub fn take_from(live: &mut Vec<ClientRow>, client: u32)
    ensures { (d : Effects) → TracksClients d live.old.items → is_live d client ≡ true
        → TracksClients (Takes client ∷ d) live.new.items }
{
    let Some(i) = client_index(live, client) else {
        return;
    };
    take_first(&mut live[i].waiting);
}

/// Removes the oldest delivery, if there is one.
fn take_first(waiting: &mut Vec<Shared<Delivery>>)
    ensures { waiting.new.items ≡ drop 1 waiting.old.items }
{
    if waiting.len() > 0 {
        let _ = waiting.remove(0);
    }
}
