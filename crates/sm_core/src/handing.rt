//! Table calls for judged events, which have made sure that the table can take them.

ghost use Rattle.std.specs.Prelude.{◌≡◌, ◌≤◌, ◌<◌, ◌+◌, ℕ, true, nat_lt, [], ◌∷◌, drop, length, MatchOption};
ghost use Rattle.sm_history.specs.Effects.{Effects};
ghost use Rattle.sm_history.specs.declared.effect.Effect.TheVariants.{Delivers, Takes, Watches};
ghost use Rattle.sm_history.specs.declared.limits.TheConstants.{MOST_WATCHES};
ghost use Rattle.sm_history.specs.Services.{watches_at};
ghost use Rattle.sm_history.specs.Clients.{is_live};
ghost use Rattle.sm_history.specs.Inboxes.{inbox_at, has_inbox_room};
ghost use Rattle.sm_inbox.specs.Tracking.{TracksInboxes, is_open};
ghost use Rattle.sm_names.specs.Tracking.{TracksNames, HasRoom};

use sm_history::{Delivery, MOST_WATCHES, Shared, WatchPair};
use sm_inbox::Inboxes;
use sm_names::NameTable;

/// Appends a delivery.
pub fn deliver(inboxes: &mut Inboxes, client: u32, delivery: Shared<Delivery>)
    ensures tracks { (d : Effects) → TracksInboxes d inboxes.old → is_live d client ≡ true
        → has_inbox_room d client ≡ true
        → is_open inboxes.old client ≡ true → TracksInboxes (Delivers client delivery ∷ d) inboxes.new }
    ensures still { (k : ℕ) → is_open inboxes.new k ≡ is_open inboxes.old k }
{
    let _ = inboxes.put_if_room(client, delivery);
}

/// Takes the oldest delivery, if there is any.
pub fn take_oldest(inboxes: &mut Inboxes, client: u32) -> Option<Shared<Delivery>>
    ensures taken { (d : Effects) → TracksInboxes d inboxes.old → MatchOption result (inbox_at d client ≡ [])
        (λ x. inbox_at d client ≡ x ∷ drop 1 (inbox_at d client)) }
    ensures tracks { (d : Effects) → TracksInboxes d inboxes.old → nat_lt 0 (length (inbox_at d client)) ≡ true
        → TracksInboxes (Takes client ∷ d) inboxes.new }
    ensures still { (k : ℕ) → is_open inboxes.new k ≡ is_open inboxes.old k }
{
    inboxes.take(client)
}

/// Adds a watch of a name.
pub fn watch(names: &mut NameTable, made: WatchPair)
    requires { HasRoom 1 names.old }
    ensures tracks { (d : Effects) → TracksNames d names.old → is_live d made.client ≡ true
        → nat_lt (length (watches_at d)) MOST_WATCHES ≡ true → TracksNames (Watches made ∷ d) names.new }
    ensures left { (n : ℕ) → HasRoom (n + 1) names.old → HasRoom n names.new }
{
    if names.watches() < MOST_WATCHES {
        names.watch(made);
    }
}
