//! Watches by age.

ghost use Rattle.std.specs.Prelude.{◌≡◌, ◌≤◌, ◌<◌, ◌+◌, true, ◌∷◌, length};
ghost use Rattle.std.specs.Vec.{vec_capacity};
ghost use Rattle.sm_history.specs.declared.effect.Effect.TheVariants.{Watches, Unwatches, Dies};
ghost use Rattle.sm_history.specs.Effects.{Effects};
ghost use Rattle.sm_history.specs.Clients.{is_live};
ghost use Rattle.sm_history.specs.Services.{watches_at};
ghost use Rattle.sm_history.specs.Histories.{watch as make_watch};

use crate::watch_list::is_same;
use sm_history::Watch;

/// Appends a watch to the watches of live clients, oldest first. Allocates nothing.
pub fn append_watch(order: &mut Vec<Watch>, watch: Watch)
    requires { length order.old.items < vec_capacity order.old }
    ensures tracks { (d : Effects) → order.old.items ≡ watches_at d → is_live d watch.client ≡ true
        → order.new.items ≡ watches_at (Watches watch ∷ d) }
    ensures kept { (vec_capacity order.new ≡ vec_capacity order.old)
        × (length order.new.items ≡ length order.old.items + 1) }
{
    order.push_reserved(watch);
}

/// Removes every watch of a name by a client's object.
pub fn remove_watch(order: &mut Vec<Watch>, client: u32, name: &[u8], object: u32)
    ensures tracks { (d : Effects) → order.old.items ≡ watches_at d
        → order.new.items ≡ watches_at (Unwatches (make_watch client name.now object) ∷ d) }
    ensures kept { (vec_capacity order.new ≡ vec_capacity order.old)
        × (length order.new.items ≤ length order.old.items) }
{
    order.retain(|w| !is_same(w, client, name, object));
}

/// Removes a client's watches.
pub fn remove_watches(order: &mut Vec<Watch>, client: u32)
    ensures tracks { (d : Effects) → order.old.items ≡ watches_at d
        → order.new.items ≡ watches_at (Dies client ∷ d) }
    ensures kept { (vec_capacity order.new ≡ vec_capacity order.old)
        × (length order.new.items ≤ length order.old.items) }
{
    order.retain(|w| client != w.client);
}
