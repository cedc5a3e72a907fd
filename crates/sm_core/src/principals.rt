//! The processes that may ask, and the policy in force.

ghost use Rattle.std.specs.Prelude.{◌≡◌, ◌≤◌, ◌<◌, ◌+◌, [], ◌∷◌, true, false, length, IfOk, OnOk, MatchOption};
ghost use Rattle.std.specs.List.{list_any};
ghost use Rattle.std.specs.Vec.{vec_capacity};
ghost use Rattle.sm_history.specs.Effects.{Effects};
ghost use Rattle.sm_history.specs.Clients.{is_live, next_client};
ghost use Rattle.sm_history.specs.Following.{MayFollowApart, MayAllApart, followed};
ghost use Rattle.sm_history.specs.Sound.{Sound};
ghost use Rattle.sm_history.specs.Verdict.{is_there};
ghost use Rattle.sm_history.specs.declared.effect.Effect.TheVariants.{Opens, Sets, Connects, Dies};
ghost use Rattle.sm_history.specs.declared.limits.TheConstants.{GREATEST};
ghost use Rattle.sm_core.specs.Callers.{by_of, HasRow};
ghost use Rattle.sm_core.specs.Stands.{StandPrincipals, sets_in};
ghost use Rattle.sm_core.specs.Tables.{client_row};
ghost use Rattle.sm_core.specs.Viewing as spec;

use crate::caller::Caller;
use crate::client::{LiveClient, copies_of, drop_client, first_row, renumber};
use crate::known_labels::LabelledPolicy;
use crate::process::Process;
use sm_history::{By, Effect};
use sm_policy::Prepared;
use sm_values::{Identity, drop_fields};
use std::alloc::{AllocError, Global};

/// The manager's process and those of the live clients, under the policy in force. A manager and its views keep these.
pub struct Principals {
    pub manager: Process,
    pub policy: LabelledPolicy,
    /// The number of the policy, from 1.
    pub version: u64,
    pub clients: Vec<LiveClient>,
}

impl Drop for Principals {
    fn drop(self) {
        drop_fields!(self: manager, policy, version, clients);
    }
}

/// Returns whether one of some effects changes the processes or the policy.
pub fn moves_any_principals(effects: &[Effect]) -> bool
    ensures { result ≡ list_any spec.moves_principals effects.now }
{
    effects.iter().any(|effect| {
        matches!(
            effect,
            Effect::Opens(_)
                | Effect::Sets(_)
                | Effect::Connects { .. }
                | Effect::Dies { .. }
                | Effect::Resumes { .. }
        )
    })
}

impl Principals {
    /// Copies the processes, which share their texts, and the policy, which is shared.
    pub fn copy(&self, alloc: Global) -> Result<Principals, AllocError>
        ensures stand { IfOk result (λ p. (d : Effects) → StandPrincipals d self.now → StandPrincipals d p) }
        ensures version { IfOk result (λ p. p.version ≡ self.now.version) }
    {
        Ok(Principals {
            manager: self.manager.clone()?,
            policy: LabelledPolicy::new(alloc, self.policy.prepared().share()?),
            version: self.version,
            clients: copies_of(alloc, &self.clients)?,
        })
    }

    /// Copies the processes and the policy, and applies effects.
    pub fn after(&self, alloc: Global, effects: &[Effect]) -> Result<Principals, AllocError>
        requires { self.now.version + sets_in effects.now < GREATEST }
        ensures { IfOk result (λ p. (d : Effects) → Sound d → StandPrincipals d self.now → MayAllApart d effects.now
            → StandPrincipals (followed d effects.now) p) }
    {
        let mut principals = self.copy(alloc)?;
        for effect in effects {
            principals.follow(effect)?;
        }
        Ok(principals)
    }

    /// Applies one effect.
    fn follow(&mut self, effect: &Effect) -> Result<(), AllocError>
        requires { self.old.version + sets_in (effect.now ∷ []) < GREATEST }
        ensures stand { OnOk result ((d : Effects) → Sound d → MayFollowApart d effect.now → StandPrincipals d self.old
            → StandPrincipals (effect.now ∷ d) self.new) }
        ensures version { self.new.version ≤ self.old.version + sets_in (effect.now ∷ []) }
    {
        match effect {
            Effect::Opens(who) => self.open(who.clone()?),
            Effect::Sets(policy) => self.set_policy(policy.share()?),
            Effect::Connects { client, who } => {
                self.clients.reserve(1)?;
                self.connect(*client, who.clone()?);
            }
            Effect::Dies { client } => self.remove_client(*client),
            _ => {}
        }
        Ok(())
    }

    /// Sets the manager's process.
    pub fn open(&mut self, who: Identity)
        ensures stand { (d : Effects) → StandPrincipals d self.old → StandPrincipals (Opens who ∷ d) self.new }
        ensures kept { (vec_capacity self.new.clients ≡ vec_capacity self.old.clients)
            × (length self.new.clients.items ≡ length self.old.clients.items)
            × (self.new.version ≡ self.old.version) }
    {
        let policy = self.policy.prepared();
        self.manager = Process::new(who, policy);
        renumber(&mut self.clients, policy, &self.manager);
    }

    /// Puts a policy in force: each type gets the number that it has there.
    pub fn set_policy(&mut self, policy: Prepared)
        requires { self.old.version + 1 < GREATEST }
        ensures stand { (d : Effects) → StandPrincipals d self.old → StandPrincipals (Sets policy ∷ d) self.new }
        ensures version { self.new.version ≡ self.old.version + 1 }
        ensures kept { (vec_capacity self.new.clients ≡ vec_capacity self.old.clients)
            × (length self.new.clients.items ≡ length self.old.clients.items) }
    {
        self.manager.renumber(&policy);
        renumber(&mut self.clients, &policy, &self.manager);
        self.policy.replace(policy);
        self.version += 1;
    }

    /// Adds a client, for which there is room.
    pub fn connect(&mut self, client: u32, who: Identity)
        requires { length self.old.clients.items + 1 ≤ vec_capacity self.old.clients }
        ensures stand { (d : Effects) → Sound d → client ≡ next_client d → StandPrincipals d self.old
            → StandPrincipals (Connects client who ∷ d) self.new }
        ensures kept { (vec_capacity self.new.clients ≡ vec_capacity self.old.clients)
            × (length self.new.clients.items ≡ length self.old.clients.items + 1)
            × (self.new.version ≡ self.old.version) }
    {
        let row = LiveClient::new(client, who, self.policy.prepared(), &self.manager);
        self.clients.push_reserved(row);
    }

    /// Removes a client.
    pub fn remove_client(&mut self, client: u32)
        ensures stand { (d : Effects) → StandPrincipals d self.old → StandPrincipals (Dies client ∷ d) self.new }
        ensures kept { (vec_capacity self.new.clients ≡ vec_capacity self.old.clients)
            × (length self.new.clients.items ≤ length self.old.clients.items)
            × (self.new.version ≡ self.old.version) }
    {
        drop_client(&mut self.clients, client);
    }

    /// Returns the row of a live client. While no client dies, their numbers follow each other, so the row is at its
    /// number's distance from the first one.
    pub fn client(&self, id: u32) -> Option<&LiveClient>
        ensures { (d : Effects) → StandPrincipals d self.now → MatchOption result (is_live d id ≡ false)
            (λ r. (is_live d id ≡ true) × (r.now ≡ client_row d id)) }
    {
        let rows = self.clients.as_slice();
        if !rows.is_empty() {
            let place = (id.wrapping_sub(rows[0].id) as usize).min(rows.len() - 1);
            let row = &rows[place];
            if row.id == id {
                return Some(row);
            }
        }
        first_row(rows, id)
    }

    /// Returns an actor, if it may act: a client only while it is live.
    pub fn caller(&self, by: By) -> Option<Caller<'_>>
        ensures { (d : Effects) → StandPrincipals d self.now → MatchOption result (is_there d by ≡ false)
            (λ caller. (is_there d by ≡ true) × (by_of caller ≡ by) × HasRow d caller) }
    {
        match by {
            By::Manager => Some(Caller::Manager),
            By::Client(client) => Some(Caller::Client(self.client(client.0)?)),
            By::Admin(admin) => Some(Caller::Admin(admin)),
        }
    }
}
