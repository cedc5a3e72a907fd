//! The tables that views share.

ghost use Rattle.std.specs.Prelude.{◌≡◌, ◌<◌, ◌+◌, ◌∷◌, false, IfOk};
ghost use Rattle.std.specs.Arc.{arc_value};
ghost use Rattle.sm_history.specs.Effects.{Effects};
ghost use Rattle.sm_history.specs.Following.{MayAllApart, followed};
ghost use Rattle.sm_history.specs.Openings.{is_same};
ghost use Rattle.sm_history.specs.Sound.{Sound};
ghost use Rattle.sm_history.specs.declared.by.By.{By};
ghost use Rattle.sm_history.specs.declared.limits.TheConstants.{GREATEST};
ghost use Rattle.sm_names.specs.Rows.{TracksRows};
ghost use Rattle.sm_core.specs.Counting.{change_count};
ghost use Rattle.sm_core.specs.Stands.{StandPrincipals, sets_in};
ghost use Rattle.sm_core.specs.Viewing.{counted_by, counted_with};

use crate::listed::{moves_any_services, services_after};
use crate::principals::{Principals, moves_any_principals};
use crate::turn_counts::{TurnCounts, is_same};
use crate::turns::Turns;
use sm_history::{By, Effect, TurnRow};
use sm_names::Services;
use std::alloc::{AllocError, Global};
use std::sync::Arc;

/// The processes that may ask, the services, and the number of changes of each actor but the last one. Views share them
/// while one actor makes the changes, and these move no process, policy or service. Tables that differ share the parts
/// that don't.
pub struct ViewTables {
    pub principals: Arc<Principals>,
    pub services: Arc<Services>,
    pub turn_counts: TurnCounts,
}

impl Drop for ViewTables {
    fn drop(self) {
        let ViewTables {
            principals: _,
            services: _,
            turn_counts: _,
        } = self;
    }
}

/// Returns the processes after these effects: the same, if no effect changes them.
fn next_principals(
    alloc: Global,
    last: &Arc<Principals>,
    effects: &[Effect],
) -> Result<Arc<Principals>, AllocError>
    requires { (arc_value last.now).version + sets_in effects.now < GREATEST }
    ensures { IfOk result (λ p. (d : Effects) → Sound d → StandPrincipals d (arc_value last.now)
        → MayAllApart d effects.now → StandPrincipals (followed d effects.now) (arc_value p)) }
{
    if !moves_any_principals(effects) {
        return Arc::try_clone(last);
    }
    Ok(Arc::new(alloc, last.after(alloc, effects)?)?)
}

/// Returns the services after these effects: the same, if no effect changes them.
fn next_services(
    alloc: Global,
    last: &Arc<Services>,
    effects: &[Effect],
) -> Result<Arc<Services>, AllocError>
    ensures { IfOk result (λ s. (d : Effects) → Sound d → TracksRows d (arc_value last.now).rows.items
        → MayAllApart d effects.now → TracksRows (followed d effects.now) (arc_value s).rows.items) }
{
    if !moves_any_services(effects) {
        return Arc::try_clone(last);
    }
    Ok(Arc::new(alloc, services_after(alloc, last, effects)?)?)
}

impl ViewTables {
    /// Returns the tables after a change with these effects. `turns` are the counts before it, and `newest` is the row
    /// of the actor that made the change before it.
    #[inline(never)]
    fn after(
        &self,
        alloc: Global,
        turns: &Turns,
        newest: TurnRow,
        effects: &[Effect],
    ) -> Result<Arc<ViewTables>, AllocError>
        requires numbers { (arc_value self.now.principals).version + sets_in effects.now < GREATEST }
        requires counts { (b : By) → counted_with newest self.now.turn_counts b ≡ change_count turns.now b }
        ensures principals { IfOk result (λ t. (d : Effects) → Sound d
            → StandPrincipals d (arc_value self.now.principals) → MayAllApart d effects.now
            → StandPrincipals (followed d effects.now) (arc_value (arc_value t).principals)) }
        ensures services { IfOk result (λ t. (d : Effects) → Sound d
            → TracksRows d (arc_value self.now.services).rows.items → MayAllApart d effects.now
            → TracksRows (followed d effects.now) (arc_value (arc_value t).services).rows.items) }
        ensures counts { IfOk result
            (λ t. (b : By) → counted_by (arc_value t).turn_counts b ≡ change_count turns.now b) }
    {
        let tables = ViewTables {
            principals: next_principals(alloc, &self.principals, effects)?,
            services: next_services(alloc, &self.services, effects)?,
            turn_counts: self.turn_counts.with(alloc, turns, newest)?,
        };
        Ok(Arc::new(alloc, tables)?)
    }
}

/// Returns the tables after a change of this actor with these effects: the same, if the actor made the change before it,
/// too, and no table changes. `turns` are the counts before it, and `newest` is the row of the actor that made the
/// change before it.
#[inline(always)]
pub fn next_tables(
    alloc: Global,
    last: &Arc<ViewTables>,
    turns: &Turns,
    newest: TurnRow,
    by: By,
    effects: &[Effect],
) -> Result<Arc<ViewTables>, AllocError>
    requires numbers { (arc_value (arc_value last.now).principals).version + sets_in effects.now < GREATEST }
    requires counts { (b : By) → counted_with newest (arc_value last.now).turn_counts b ≡ change_count turns.now b }
    ensures principals { IfOk result (λ t. (d : Effects) → Sound d
        → StandPrincipals d (arc_value (arc_value last.now).principals) → MayAllApart d effects.now
        → StandPrincipals (followed d effects.now) (arc_value (arc_value t).principals)) }
    ensures services { IfOk result (λ t. (d : Effects) → Sound d
        → TracksRows d (arc_value (arc_value last.now).services).rows.items → MayAllApart d effects.now
        → TracksRows (followed d effects.now) (arc_value (arc_value t).services).rows.items) }
    ensures counts { IfOk result (λ t. (b : By) → is_same b by ≡ false
        → counted_by (arc_value t).turn_counts b ≡ change_count turns.now b) }
{
    let is_unmoved = is_same(by, newest.by)
        && !moves_any_principals(effects)
        && !moves_any_services(effects);
    if is_unmoved {
        return Arc::try_clone(last);
    }
    last.after(alloc, turns, newest, effects)
}
