//! The services of a view.

ghost use Rattle.std.specs.Prelude.{◌≡◌, ◌≤◌, ◌+◌, ◌∷◌, ℕ, length, IfOk, OnOk};
ghost use Rattle.std.specs.List.{list_any};
ghost use Rattle.sm_history.specs.Effects.{Effects};
ghost use Rattle.sm_history.specs.Following.{MayFollowApart, MayAllApart, followed};
ghost use Rattle.sm_history.specs.Sound.{Sound};
ghost use Rattle.sm_names.specs.Rows.{TracksRows};
ghost use Rattle.sm_core.specs.Viewing as spec;

use sm_history::Effect;
use sm_names::Services;
use std::alloc::{AllocError, Global};

/// Returns whether one of some effects changes the services.
pub fn moves_any_services(effects: &[Effect]) -> bool
    ensures { result ≡ list_any spec.moves_services effects.now }
{
    effects.iter().any(|effect| matches!(
        effect,
        Effect::Adds { .. } | Effect::Removes { .. } | Effect::Dies { .. }
    ))
}

/// Copies these services, and applies effects.
pub fn services_after(
    alloc: Global,
    last: &Services,
    effects: &[Effect],
) -> Result<Services, AllocError>
    ensures { IfOk result (λ s. (d : Effects) → Sound d → TracksRows d last.now.rows.items → MayAllApart d effects.now
        → TracksRows (followed d effects.now) s.rows.items) }
{
    let mut services = last.copy(alloc, effects.len())?;
    for effect in effects {
        follow(&mut services, effect)?;
    }
    Ok(services)
}

/// Applies one effect.
fn follow(services: &mut Services, effect: &Effect) -> Result<(), AllocError>
    requires { length services.old.rows.items + 1 ≤ services.old.rows.capacity }
    ensures tracks { OnOk result
        ((d : Effects) → Sound d → MayFollowApart d effect.now → TracksRows d services.old.rows.items
        → TracksRows (effect.now ∷ d) services.new.rows.items) }
    ensures left { (n : ℕ) → length services.old.rows.items + (n + 1) ≤ services.old.rows.capacity
        → length services.new.rows.items + n ≤ services.new.rows.capacity }
{
    match effect {
        Effect::Adds { name, service } => {
            let name = name.clone()?;
            services.put(name, *service);
        }
        Effect::Removes { name } => services.remove(name.bytes()),
        Effect::Dies { client } => services.remove_client(*client),
        _ => {}
    }
    Ok(())
}
