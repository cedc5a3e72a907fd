//! Openings.

ghost use Rattle.std.specs.Prelude.{◌≡◌, IfOk};
ghost use Rattle.sm_history.specs.Lawful.{MayOpen};
ghost use Rattle.sm_core.specs.Opening.{opened};

use crate::journal::Journal;
use crate::known_labels::LabelledPolicy;
use crate::ledger::Ledger;
use crate::principals::Principals;
use crate::process::Process;
use crate::state::State;
use crate::turns::Turns;
use sm_grants::Grants;
use sm_history::{By, Entry, Event, Outcome};
use sm_inbox::Inboxes;
use sm_names::NameTable;
use sm_policy::Prepared;
use sm_values::{Identity, Places};
use std::alloc::{AllocError, Global};

impl Ledger {
    /// Makes the ledger of a manager that is opened, with its first change.
    pub fn open(
        alloc: Global,
        who: Identity,
        policy: Prepared,
        places: Places,
    ) -> Result<Ledger, AllocError>
        requires { MayOpen who policy }
        ensures { IfOk result (λ l. l.book ≡ opened places who policy) }
    {
        let share = policy.share()?;
        let manager = Process::new(who.clone()?, &share);
        let mut turns = Turns::none(alloc);
        turns.reserve(By::Manager)?;
        turns.count(By::Manager);
        let entry = Entry {
            by: By::Manager,
            turn: 0,
            event: Event::Open(who, policy),
            outcome: Outcome::Opened,
        };
        Ok(Ledger {
            alloc,
            places: places.entries(),
            journal: Journal::open(alloc, entry)?,
            turns,
            state: State {
                principals: Principals {
                    manager,
                    policy: LabelledPolicy::new(alloc, share),
                    version: 1,
                    clients: Vec::new(alloc),
                },
                next: 1,
                names: NameTable::new(alloc),
                grants: Grants::new(alloc),
                inboxes: Inboxes::new(alloc),
            },
        })
    }
}
