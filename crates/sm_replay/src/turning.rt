//! Counts of each actor's changes during a replay.

ghost use Rattle.std.specs.Prelude.{◌≡◌, ◌∷◌, ◌++◌, [], ℕ, ◌||◌, false, OnOk, IfOk, map, if◌then◌else◌};
ghost use Rattle.std.specs.List.{list_any};
ghost use Rattle.sm_history.specs.declared.by.By.{By};
ghost use Rattle.sm_history.specs.declared.by.By.TheVariants.{Manager};
ghost use Rattle.sm_history.specs.Openings.{is_same, turns_in};
ghost use Rattle.sm_history.specs.Histories.{client_of};
ghost use Rattle.sm_history.specs.Segments.{admin, client};
ghost use Rattle.sm_replay.specs.Turning.{CountsTurns, admins_in, has_made, is_known, made, more_by, turn_rows};
ghost use Rattle.sm_replay.specs.Turning.{with_order};

use sm_history::{By, ClientRow, TurnRow};
use sm_values::{AdminId, ClientId, drop_fields};
use std::alloc::{AllocError, Global};
use std::collections::HashMap;

/// The number of changes of each actor, and the administrators in the order of their first change.
pub struct Turning {
    pub alloc: Global,
    pub manager: u64,
    pub clients: HashMap<u32, u64>,
    pub admins: HashMap<u32, u64>,
    pub order: Vec<u32>,
}

impl Drop for Turning {
    fn drop(self) {
        drop_fields!(self: alloc, manager, clients, admins, order);
    }
}

/// Returns the client number of an actor, or 0 if it isn't a client.
pub fn number_of(by: By) -> u32
    ensures { result ≡ client_of by }
{
    match by {
        By::Client(client) => client.0,
        By::Manager => 0,
        By::Admin(_) => 0,
    }
}

impl Turning {
    /// Returns counts without changes.
    pub fn none(alloc: Global) -> Turning
        ensures made { (by : By) → made result by ≡ 0 }
        ensures order { result.order.items ≡ [] }
        ensures known { (a : ℕ) → is_known result a ≡ false }
    {
        Turning {
            alloc,
            manager: 0,
            clients: HashMap::new(alloc),
            admins: HashMap::new(alloc),
            order: Vec::new(alloc),
        }
    }

    /// Returns the number of changes of an actor.
    fn of(&self, by: By) -> u64
        ensures { result ≡ made self.now by }
    {
        match by {
            By::Manager => self.manager,
            By::Client(client) => self.clients.get(&client.0).copied().unwrap_or(0),
            By::Admin(admin) => self.admins.get(&admin.0).copied().unwrap_or(0),
        }
    }

    /// Returns whether an administrator has made a change. True of any other actor.
    fn has(&self, by: By) -> bool
        ensures { result ≡ has_made self.now by }
    {
        match by {
            By::Manager => true,
            By::Client(_) => true,
            By::Admin(admin) => self.admins.contains_key(&admin.0),
        }
    }

    /// Sets the number of changes of an actor. Returns an error if an allocation fails.
    fn set(&mut self, by: By, turns: u64) -> Result<(), AllocError>
        ensures made { OnOk result ((b : By) → made self.new b ≡ (if is_same by b then turns else made self.old b)) }
        ensures known { OnOk result ((a : ℕ) → is_known self.new a ≡ (is_same by (admin a) || is_known self.old a)) }
        ensures order { self.new.order ≡ self.old.order }
    {
        match by {
            By::Manager => {
                self.manager = turns;
            }
            By::Client(client) => {
                self.clients.insert(client.0, turns)?;
            }
            By::Admin(admin) => {
                self.admins.insert(admin.0, turns)?;
            }
        }
        Ok(())
    }

    /// Appends an administrator that had made no change. Returns an error if an allocation fails.
    fn note(&mut self, by: By, known: bool) -> Result<(), AllocError>
        ensures made { (b : By) → made self.new b ≡ made self.old b }
        ensures known { (a : ℕ) → is_known self.new a ≡ is_known self.old a }
        ensures order { OnOk result (self.new.order.items ≡ with_order by known self.old.order.items) }
    {
        if known {
            return Ok(());
        }
        if let By::Admin(admin) = by {
            self.order.push(admin.0)?;
        }
        Ok(())
    }

    /// Counts one more change of an actor. Returns an error if an allocation fails.
    pub fn count(&mut self, by: By) -> Result<(), AllocError>
        ensures made { OnOk result ((b : By) → made self.new b ≡ more_by (is_same by b) (made self.old b)) }
        ensures known { OnOk result ((a : ℕ) → is_known self.new a ≡ (is_same by (admin a) || is_known self.old a)) }
        ensures order { OnOk result (self.new.order.items ≡ with_order by (has_made self.old by) self.old.order.items) }
    {
        let known = self.has(by);
        let turns = self.of(by).saturating_add(1);
        self.note(by, known)?;
        self.set(by, turns)?;
        Ok(())
    }

    /// Returns the rows of all actors that may still make a change. Returns an error if an allocation fails.
    pub fn rows(&self, live: &[ClientRow]) -> Result<Vec<TurnRow>, AllocError>
        ensures { IfOk result (λ v. v.items ≡ turn_rows self.now live.now) }
    {
        let mut rows = Vec::new(self.alloc);
        rows.push(TurnRow {
            by: By::Manager,
            turns: self.manager,
        })?;
        self.push_clients(&mut rows, live)?;
        self.push_admins(&mut rows)?;
        Ok(rows)
    }

    fn push_clients(&self, rows: &mut Vec<TurnRow>, live: &[ClientRow]) -> Result<(), AllocError>
        ensures { OnOk result (rows.new.items
            ≡ rows.old.items
            ++ map (λ r. record { by = client r.client; turns = made self.now (client r.client) }) live.now) }
    {
        for row in live {
            let by = By::Client(ClientId(row.client));
            let turns = self.of(by);
            rows.push(TurnRow { by, turns })?;
        }
        Ok(())
    }

    fn push_admins(&self, rows: &mut Vec<TurnRow>) -> Result<(), AllocError>
        ensures { OnOk result (rows.new.items
            ≡ rows.old.items
            ++ map (λ a. record { by = admin a; turns = made self.now (admin a) }) self.now.order.items) }
    {
        for number in &self.order {
            let by = By::Admin(AdminId(*number));
            let turns = self.of(by);
            rows.push(TurnRow { by, turns })?;
        }
        Ok(())
    }

    /// Sets the counts from rows, from the last to the first. Returns an error if an allocation fails.
    fn set_all(&mut self, rows: &[TurnRow]) -> Result<(), AllocError>
        ensures made { OnOk result (((b : By) → made self.old b ≡ 0)
            → (b : By) → made self.new b ≡ turns_in rows.now b) }
        ensures known { OnOk result (((a : ℕ) → is_known self.old a ≡ false)
            → (a : ℕ) → is_known self.new a ≡ list_any (is_same (admin a)) (admins_in rows.now)) }
        ensures order { self.new.order ≡ self.old.order }
    {
        let n = rows.len();
        for k in 0..n {
            let row = &rows[n - 1 - k];
            self.set(row.by, row.turns)?;
        }
        Ok(())
    }

    /// Appends the administrators of rows, in their order. Returns an error if an allocation fails.
    fn note_all(&mut self, rows: &[TurnRow]) -> Result<(), AllocError>
        ensures made { (b : By) → made self.new b ≡ made self.old b }
        ensures known { (a : ℕ) → is_known self.new a ≡ is_known self.old a }
        ensures order { OnOk result (self.old.order.items ≡ [] → map admin self.new.order.items ≡ admins_in rows.now) }
    {
        for row in rows {
            self.note(row.by, false)?;
        }
        Ok(())
    }

    /// Makes the counts that rows begin with. Returns an error if an allocation fails.
    pub fn start(alloc: Global, rows: &[TurnRow]) -> Result<Turning, AllocError>
        ensures { IfOk result (λ t. CountsTurns (turns_in rows.now) (admins_in rows.now) t) }
    {
        let mut turning = Turning::none(alloc);
        turning.set_all(rows)?;
        turning.note_all(rows)?;
        Ok(turning)
    }
}
