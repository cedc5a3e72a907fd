//! Watches of names.

ghost use Rattle.std.specs.Prelude.{◌≡◌, ◌≤◌, true, length, count_by, nat_lt, IfOk};
ghost use Rattle.std.specs.List.{list_any};
ghost use Rattle.sm_history.specs.declared.event.Event.TheVariants.{Unwatch, Watch as WatchName};
ghost use Rattle.sm_history.specs.Clients.{is_live};
ghost use Rattle.sm_history.specs.Histories.{watch};
ghost use Rattle.sm_history.specs.Services.{same_watch, watches_at};
ghost use Rattle.sm_history.specs.declared.limits.TheConstants.{MOST_WATCHES};
ghost use Rattle.sm_history.specs.Verdict.{watch_checks};
ghost use Rattle.sm_core.specs.Tables.{client_row};
ghost use Rattle.sm_core.specs.Judging.{IsBlank, Judged, PassesWith};
ghost use Rattle.sm_core.specs.Managed.{effects_in, moment_in};

use crate::client::LiveClient;
use crate::draft::{Draft, add_effect};
use crate::ledger::Ledger;
use crate::refusing::{Checked, excepted};
use sm_history::{Denial, Effect, Exception, MOST_WATCHES, Outcome, Record, Watch, WatchPair};
use sm_values::{Name, Perms, is_isolated, valid_name};
use std::alloc::AllocError;

/// Makes the watch of a name by a client's object.
fn watch_of(client: u32, name: &Name, object: u32) -> Result<Watch, AllocError>
    ensures { IfOk result (λ w. w ≡ watch client name.now object) }
{
    let name = name.clone()?;
    Ok(Watch {
        client,
        name,
        object,
    })
}

impl Ledger {
    /// Judges a new watch of a name by a client's object (`registerForNotifications`).
    #[inline(never)]
    pub fn judge_watch(
        &self,
        row: &LiveClient,
        name: &Name,
        object: u32,
        draft: &mut Draft,
    ) -> Checked<Outcome>
        requires live { is_live (effects_in self.now) row.now.id ≡ true }
        requires row { row.now ≡ client_row (effects_in self.now) row.now.id }
        requires blank { IsBlank draft.old }
        ensures { Judged self.now.book.history draft.old draft.new row.now.id (WatchName name.now object) result }
    {
        self.judge_watching(row, name, &mut draft.records)?;
        let made = WatchPair::new(row.id, name, object)?;
        add_effect(&mut draft.effects, Effect::Watches(made))?;
        let Some(service) = self.state.names.get(name.bytes()) else {
            return Ok(Outcome::Watched(None));
        };
        let watch = watch_of(row.id, name, object)?;
        let notice = self.notify_one(&watch, service.node, draft)?;
        Ok(Outcome::Watched(Some(notice)))
    }

    /// Checks that a client may watch a name.
    fn judge_watching(&self, row: &LiveClient, name: &Name, notes: &mut Vec<Record>) -> Checked<()>
        requires { row.now ≡ client_row (effects_in self.now) row.now.id }
        ensures { PassesWith (moment_in self.now) notes.old.items notes.new.items
            (watch_checks (effects_in self.now) row.now.id name.now)
            (λ done. nat_lt (length (watches_at (effects_in self.now))) MOST_WATCHES ≡ true) result }
    {
        self.check_to_manager(row, Perms::CALL, notes)?;
        self.check_to_manager(row, Perms::TRANSFER, notes)?;
        self.check_to_label(&row.process, name, Perms::FIND, notes)?;
        if is_isolated(row.process.who.uid) {
            let denial = Denial::Isolated(row.process.who.uid);
            return Err(self.access().barred(denial, &row.process.who, name, notes)?);
        }
        if !valid_name(name.bytes()) {
            return Err(excepted(Exception::InvalidName));
        }
        if self.watches() >= MOST_WATCHES {
            return Err(excepted(Exception::TableFull));
        }
        Ok(())
    }

    /// Returns the number of watches of live clients.
    pub fn watches(&self) -> usize
        ensures count { result ≡ length (watches_at (effects_in self.now)) }
        ensures few { result ≤ MOST_WATCHES }
    {
        self.state.names.watches()
    }

    /// Judges the removal of every watch of a name by a client's object (`unregisterForNotifications`).
    #[inline(never)]
    pub fn judge_unwatch(
        &self,
        row: &LiveClient,
        name: &Name,
        object: u32,
        draft: &mut Draft,
    ) -> Checked<Outcome>
        requires live { is_live (effects_in self.now) row.now.id ≡ true }
        requires row { row.now ≡ client_row (effects_in self.now) row.now.id }
        requires blank { IsBlank draft.old }
        ensures { Judged self.now.book.history draft.old draft.new row.now.id (Unwatch name.now object) result }
    {
        let notes = &mut draft.records;
        self.check_to_manager(row, Perms::CALL, notes)?;
        self.check_to_manager(row, Perms::TRANSFER, notes)?;
        self.check_to_label(&row.process, name, Perms::FIND, notes)?;
        if !self.is_watching(row.id, name.bytes(), object) {
            return Err(excepted(Exception::NothingToUnregister));
        }
        let ended = self.watching(row.id, name.bytes(), object);
        let watch = watch_of(row.id, name, object)?;
        add_effect(&mut draft.effects, Effect::Unwatches(watch))?;
        Ok(Outcome::Unwatched(ended))
    }

    /// Returns whether a client's object watches a name.
    fn is_watching(&self, client: u32, name: &[u8], object: u32) -> bool
        ensures { result ≡ list_any (same_watch (watch client name.now object)) (watches_at (effects_in self.now)) }
    {
        self.state.names.is_watching(client, name, object)
    }

    /// Returns the number of watches of a name by a client's object.
    fn watching(&self, client: u32, name: &[u8], object: u32) -> u32
        ensures { result ≡ count_by (same_watch (watch client name.now object)) (watches_at (effects_in self.now)) }
    {
        self.state.names.watching(client, name, object)
    }
}
