//! Accounts that become one.

ghost use Rattle.std.specs.Prelude.{◌≡◌, IfSome, MatchResult};
ghost use Rattle.sm_history.specs.BookOrder.{Begins};
ghost use Rattle.sm_connection.specs.Connections.{GoesOn};
ghost use Rattle.sm_account.specs.Served.{OneRun, both_told};

use crate::account::Account;
use crate::chronicle::Chronicle;
use sm_connection::{ENTRY, Monitor, Supervisor};
use sm_door::{Admin, Door, Naming, Seat, SeatOrSession};
use sm_history::Gate;
use std::sync::Wait;

/// Returns the account of a free seat as that of a slot.
pub fn at_rest<J: Naming, K: Chronicle>(
    account: Account<Seat<J>, K>,
) -> Account<SeatOrSession<J>, K>
    ensures { result ≡ account }
{
    let (seat, chronicle) = account.into_parts();
    Account::new(SeatOrSession::of_seat(seat), chronicle)
}

/// Lets the client of an ended connection die, if there still is one. Returns the account with its free seat, or as it
/// was if the death was refused.
pub fn bury<J: Naming, K: Chronicle, G: Gate + Drop, H: Supervisor, R: Wait>(
    rt: &R,
    door: &Door<J, G>,
    account: Account<SeatOrSession<J>, K>,
    monitor: &Monitor<H>,
) -> Result<Account<Seat<J>, K>, Account<SeatOrSession<J>, K>>
    ensures told { MatchResult result (λ a. a.told ≡ account.told) (λ a. a.told ≡ account.told) }
    ensures goes_on { MatchResult result (λ a. GoesOn account.token a.token) (λ a. GoesOn account.token a.token) }
{
    let (slot, chronicle) = account.into_parts();
    match slot.into_session() {
        Err(seat) => Ok(Account::new(seat, chronicle)),
        Ok(session) => match door.die(rt, session) {
            Ok(seat) => {
                monitor.count(ENTRY);
                Ok(Account::new(seat, chronicle))
            }
            Err((_, session)) => {
                monitor.run_short();
                Err(Account::new(SeatOrSession::of_session(session), chronicle))
            }
        },
    }
}

// Shows an administrator and a client's slot one history.
#[tactic(auto, using(crate::proofs::Staying::met, crate::proofs::Staying::met_slot))]
fn meet<J: Naming, G: Gate + Drop, R: Wait>(
    rt: &R,
    door: &Door<J, G>,
    admin: &mut Admin<J>,
    slot: SeatOrSession<J>,
)
    ensures admin { GoesOn admin.old admin.new }
    ensures slot { Begins admin.new.seen slot.seen }
{
    match slot.into_session() {
        Ok(mut session) => {
            door.meet_admin(rt, admin, &mut session);
        }
        Err(mut seat) => door.meet_seat(rt, admin, &mut seat),
    }
}

/// Shows an administrator and a client's slot one history, and adds the connections of the other account to this one.
pub fn gather<J: Naming, K: Chronicle, G: Gate + Drop, R: Wait>(
    rt: &R,
    door: &Door<J, G>,
    into: &mut Account<Admin<J>, K>,
    other: Account<SeatOrSession<J>, K>,
)
    ensures told { into.new.told ≡ both_told into.old.told other.told }
    ensures goes_on { GoesOn into.old.token into.new.token }
{
    let (slot, told) = other.into_parts();
    meet(rt, door, &mut into.token, slot);
    into.chronicle.join(told);
}

/// Shows two administrators one history, and adds the connections of the other account to this one.
pub fn gather_administrator<J: Naming, K: Chronicle, G: Gate + Drop, R: Wait>(
    rt: &R,
    door: &Door<J, G>,
    into: &mut Account<Admin<J>, K>,
    other: Account<Admin<J>, K>,
)
    ensures told { into.new.told ≡ both_told into.old.told other.told }
    ensures goes_on { GoesOn into.old.token into.new.token }
{
    let (mut second, told) = other.into_parts();
    door.meet_admins(rt, &mut into.token, &mut second);
    into.chronicle.join(told);
}

/// All connections of an account are parts of one lawful history, which begins with the one of the door's opening.
pub fn opened<J: Naming, K: Chronicle>(account: Account<Admin<J>, K>) -> Account<Admin<J>, K>
    ensures same { result ≡ account }
    ensures one_run { IfSome result.told (OneRun J.opening result.token.seen) }
{
    let (admin, chronicle) = account.into_parts();
    admin.knows_opening();
    Account::new(admin, chronicle)
}
