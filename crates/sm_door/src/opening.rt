//! The tokens of a new door.

ghost use Rattle.std.specs.Prelude.{◌≡◌, ◌≤◌, ◌⊎◌, ◌++◌, ◌∷◌, [], IfOk, IfErr};
ghost use Rattle.sm_history.specs.declared.refusal.Refusal.TheVariants.{Memory, NoSeat as WantsPlace};
ghost use Rattle.std.specs.Arc.{arc_value};
ghost use Rattle.sm_history.specs.declared.limits.TheConstants.{MOST_CLIENTS};
ghost use Rattle.sm_history.specs.declared.by.By.TheVariants.{Manager as TheManager, Admin as TheAdmin};
ghost use Rattle.sm_history.specs.Tokens.{token};
ghost use Rattle.sm_door.specs.declared.opening.TheConstants.{ADMINS};
ghost use Rattle.sm_door.specs.Opening.{new_seats, new_admins};

use crate::actor::Actor;
use crate::admin::Admin;
use crate::published::{Published, ViewWriter};
use crate::registry::Naming;
use crate::seat::Seat;
use crate::shared_view::SharedView;
use sm_core::Manager;
use sm_history::{By, Refusal};
use sm_values::AdminId;
use std::alloc::{AllocError, Global};
use std::sync::Arc;

/// The number of administrators' tokens.
pub const ADMINS: u32 = 4;

/// Makes the writer of a door whose first shared view this is, with a reader slot for each of this many clients and for
/// each administrator. Returns an error if an allocation fails.
pub(crate) fn writer_of<J: Naming>(
    alloc: Global,
    shared_view: Arc<SharedView<J>>,
    clients: usize,
) -> Result<ViewWriter<J>, AllocError>
    requires seen { arc_value shared_view ≡ J.opening }
    requires few { clients ≤ MOST_CLIENTS }
    ensures { IfOk result (λ w. arc_value w.desk.shown.value.shared_view ≡ J.opening) }
{
    let first = Published {
        shared_view: Arc::try_clone(&shared_view)?,
    };
    let second = Published { shared_view };
    ViewWriter::new(alloc, first, second, clients + ADMINS as usize)
        .ok()
        .ok_or(AllocError)
}

/// Makes this many seats and a token for each administrator, which have seen the opening. `NoSeat` if a slot was
/// refused.
pub(crate) fn tokens_of<J: Naming>(
    alloc: Global,
    manager: &Manager,
    writer: &ViewWriter<J>,
    clients: usize,
) -> Result<(Vec<Seat<J>>, Vec<Admin<J>>), Refusal>
    requires { manager.now.book ≡ J.opening }
    ensures refused { IfErr result (λ r. (r ≡ Memory) ⊎ (r ≡ WantsPlace)) }
    ensures tokens { IfOk result (λ r. (r.0.items ≡ new_seats J.opening clients)
        × (r.1.items ≡ new_admins J.opening ADMINS)) }
{
    let mut seats = Vec::new(alloc);
    for _seat in 0..clients {
        let seat = seat_of(alloc, manager, writer)?;
        keep(&mut seats, seat)?;
    }
    let mut admins = Vec::new(alloc);
    for number in 0..ADMINS {
        let admin = admin_of(alloc, manager, writer, number)?;
        keep(&mut admins, admin)?;
    }
    Ok((seats, admins))
}

fn seat_of<J: Naming>(
    alloc: Global,
    manager: &Manager,
    writer: &ViewWriter<J>,
) -> Result<Seat<J>, Refusal>
    requires { manager.now.book ≡ J.opening }
    ensures seen { IfOk result (λ s. s ≡ token TheManager J.opening 0) }
    ensures refused { IfErr result (λ r. r ≡ WantsPlace) }
{
    let actor = enlist(alloc, manager, writer, By::Manager)?;
    Ok(Seat { actor })
}

fn admin_of<J: Naming>(
    alloc: Global,
    manager: &Manager,
    writer: &ViewWriter<J>,
    number: u32,
) -> Result<Admin<J>, Refusal>
    requires { manager.now.book ≡ J.opening }
    ensures seen { IfOk result (λ s. s ≡ token (TheAdmin (record { 0 = number })) J.opening 0) }
    ensures refused { IfErr result (λ r. r ≡ WantsPlace) }
{
    let actor = enlist(alloc, manager, writer, By::Admin(AdminId(number)))?;
    Ok(Admin::new(AdminId(number), actor))
}

/// Makes an actor with a new slot, which has seen the opening.
fn enlist<J: Naming>(
    alloc: Global,
    manager: &Manager,
    writer: &ViewWriter<J>,
    by: By,
) -> Result<Actor<J>, Refusal>
    requires { manager.now.book ≡ J.opening }
    ensures new { IfOk result (λ s. s ≡ token by J.opening 0) }
    ensures refused { IfErr result (λ r. r ≡ WantsPlace) }
{
    manager.lawful();
    let turn = manager.turn(by);
    let reader = writer.factory().reader().ok().ok_or(Refusal::NoSeat)?;
    Ok(Actor::new(alloc, by, turn, reader))
}

fn keep<X: Drop>(list: &mut Vec<X>, x: X) -> Result<(), Refusal>
    ensures kept { IfOk result (λ _. list.new.items ≡ list.old.items ++ x ∷ []) }
    ensures refused { IfErr result (λ r. r ≡ Memory) }
{
    match list.push(x) {
        Ok(()) => Ok(()),
        Err(_) => Err(Refusal::Memory),
    }
}
