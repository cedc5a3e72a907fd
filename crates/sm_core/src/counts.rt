//! Whether counts of grants stay below the greatest number.

ghost use Rattle.std.specs.Prelude.{◌≡◌, count_by};
ghost use Rattle.std.specs.List.{list_all};
ghost use Rattle.sm_history.specs.Effects.{Effects};
ghost use Rattle.sm_grants.specs.Rows.{Tracks};
ghost use Rattle.sm_core.specs.Stands as spec;
ghost use Rattle.sm_core.specs.Stands.{fits_among};

use sm_grants::Grants;
use sm_history::{Effect, GREATEST};
use sm_values::Node;

/// Returns whether an effect grants an object to a client.
fn is_grant_of(client: u32, node: Node, effect: &Effect) -> bool
    ensures { result ≡ spec.is_grant_of client node effect.now }
{
    match effect {
        Effect::Gives {
            client: to,
            node: given,
            ..
        } => { *to == client && given.owner.0 == node.owner.0 && given.object == node.object }
        _ => false,
    }
}

/// Returns the number of times that effects grant an object to a client.
fn times_given(effects: &[Effect], client: u32, node: Node) -> u64
    ensures { result ≡ count_by (spec.is_grant_of client node) effects.now }
{
    effects
        .iter()
        .filter(|effect| is_grant_of(client, node, effect))
        .count() as u64
}

/// Returns whether the count that an effect raises stays below the greatest number after all of these.
fn count_fits(grants: &Grants, effects: &[Effect], effect: &Effect) -> bool
    ensures { (d : Effects) → Tracks d grants.now → result ≡ fits_among d effects.now effect.now }
{
    match effect {
        Effect::Gives { client, node, .. } => {
            let count = grants.count(*client, *node);
            times_given(effects, *client, *node) < GREATEST - count
        }
        _ => true,
    }
}

/// Returns whether each count that these effects raise stays below the greatest number after all of them.
fn each_count_fits(grants: &Grants, effects: &[Effect]) -> bool
    ensures { (d : Effects) → Tracks d grants.now → result ≡ list_all (fits_among d effects.now) effects.now }
{
    for effect in effects {
        if !count_fits(grants, effects, effect) {
            return false;
        }
    }
    true
}

/// Returns whether each count stays below the greatest number after these effects. Single counts are looked up only if
/// the table's bound is near that number.
pub fn counts_fit(grants: &Grants, effects: &[Effect]) -> bool
    ensures { (d : Effects) → Tracks d grants.now → result ≡ list_all (fits_among d effects.now) effects.now }
{
    if grants.count_bound() < GREATEST - effects.len() as u64 {
        return true;
    }
    each_count_fits(grants, effects)
}
