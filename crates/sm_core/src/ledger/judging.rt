//! Judgements, which only read.

ghost use Rattle.std.specs.Prelude.{◌≡◌, ◌+◌, ◌<◌, ◌&&◌, true, false, List, OnOk, length};
ghost use Rattle.sm_history.specs.declared.records.Record.{Record};
ghost use Rattle.sm_history.specs.Clients.{is_live};
ghost use Rattle.sm_history.specs.declared.limits.TheConstants.{GREATEST};
ghost use Rattle.sm_history.specs.Following.{followed, MayAllApart};
ghost use Rattle.sm_history.specs.Histories.{after_event, client_of};
ghost use Rattle.sm_history.specs.Lawful.{IsLawful};
ghost use Rattle.sm_history.specs.Verdict.{actor_checks, checks, is_theirs, has_place};
ghost use Rattle.sm_core.specs.Callers.{by_of, HasRow};
ghost use Rattle.sm_core.specs.Judging.{IsBlank, IsDrafted, Judged, PassesWith};
ghost use Rattle.sm_core.specs.Stands.{connects_in, sets_in};
ghost use Rattle.sm_core.specs.Tables.{client_row};
ghost use Rattle.sm_history.specs.declared.by.By.TheVariants.{Client};
ghost use Rattle.sm_core.specs.Managed.{effects_in, moment_in};

use crate::caller::Caller;
use crate::client::LiveClient;
use crate::counts::counts_fit;
use crate::draft::Draft;
use crate::ledger::Ledger;
use crate::refusing::{Checked, failed};
use sm_history::{By, Effect, Event, Failure, GREATEST, Outcome, Refusal, Reply, is_death};

impl Ledger {
    /// Returns the reply to an event that is refused, or its outcome; drafts its effects and its records.
    #[inline(always)]
    pub fn judge(&self, by: By, turn: u64, event: &Event, draft: &mut Draft) -> Checked<Outcome>
        requires { IsBlank draft.old }
        ensures judged { PassesWith (moment_in self.now) draft.old.records.items draft.new.records.items
            (checks self.now.book.places self.now.book.history by turn event.now)
            (IsDrafted (moment_in self.now) (effects_in self.now) (client_of by) event.now draft.new) result }
        ensures numbers { OnOk result
            ((self.now.state.principals.version + sets_in draft.new.effects.items < GREATEST)
            × (self.now.state.next + connects_in draft.new.effects.items < GREATEST)) }
        ensures lawful { IsLawful self.now.book.places self.now.book.history }
    {
        // Reads a field, so that the invariant is known: see docs/PROOFS.md.
        let _ = &self.places;
        let caller = self.judge_actor(by, turn, event)?;
        let outcome = self.judge_event(caller, event, draft)?;
        if !self.has_place(by, event, draft.effects.as_slice()) {
            return Err(Reply::Refused(Refusal::JournalFull));
        }
        Ok(outcome)
    }

    /// Returns why an actor is refused, or the actor.
    #[inline(always)]
    fn judge_actor(&self, by: By, turn: u64, event: &Event) -> Checked<Caller<'_>>
        ensures { (old : List Record) → PassesWith (moment_in self.now) old old
            (actor_checks self.now.book.history by turn event.now)
            (λ caller. (is_theirs by event.now ≡ true) × (by_of caller ≡ by)
            × HasRow (effects_in self.now) caller) result }
    {
        let is_theirs = match event {
            Event::Open(_, _) => false,
            Event::Connect(_) => matches!(by, By::Manager),
            Event::Reload { .. } => matches!(by, By::Admin(_)),
            _ => matches!(by, By::Client(_)),
        };
        if !is_theirs {
            return Err(failed(Failure::NotYours));
        }
        let Some(caller) = self.state.principals.caller(by) else {
            return Err(failed(Failure::NotConnected));
        };
        let turns = self.turn(by);
        if turn != turns {
            return Err(failed(Failure::OutOfTurn(turns)));
        }
        Ok(caller)
    }

    /// Returns whether an event with these effects has its journal slot besides those kept for the deaths of live
    /// clients, and no length and no count of grants reaches the greatest number by it. A death uses the slot that was
    /// kept for it.
    #[inline(always)]
    fn has_place(&self, by: By, event: &Event, effects: &[Effect]) -> bool
        requires effects { followed (effects_in self.now) effects.now
            ≡ after_event (effects_in self.now) (client_of by) event.now }
        requires may { MayAllApart (effects_in self.now) effects.now }
        ensures { result ≡ has_place self.now.book.places self.now.book.history (client_of by) event.now }
    {
        if is_death(event) {
            return true;
        }
        let needed = match event {
            Event::Connect(_) => 2,
            _ => 1,
        };
        let kept = self.state.principals.clients.len() as u64 + needed;
        let entries = self.journal.entry_count() as u64;
        let length = self.journal.history_length();
        entries + kept <= u64::from(self.places)
            && kept < GREATEST - length
            && counts_fit(&self.state.grants, effects)
    }

    /// Returns the reply to an event of an actor that may make it, or its outcome. Each kind of event has a function of
    /// its own, which has only the locals for its kind.
    #[inline(always)]
    fn judge_event(&self, caller: Caller, event: &Event, draft: &mut Draft) -> Checked<Outcome>
        requires theirs { is_theirs (by_of caller) event.now ≡ true }
        requires row { HasRow (effects_in self.now) caller }
        requires blank { IsBlank draft.old }
        ensures { Judged self.now.book.history draft.old draft.new (client_of (by_of caller.entry)) event.now result }
    {
        match caller {
            Caller::Client(row) => self.judge_client_event(row, event, draft),
            Caller::Manager => match event {
                Event::Connect(who) => self.judge_connect(who, draft),
                _ => unreachable!(),
            },
            Caller::Admin(_) => match event {
                Event::Reload { expected, prepared } => self.judge_reload(
                    *expected, prepared, draft,
                ),
                _ => unreachable!(),
            },
        }
    }

    #[inline(always)]
    fn judge_client_event(
        &self,
        row: &LiveClient,
        event: &Event,
        draft: &mut Draft,
    ) -> Checked<Outcome>
        requires theirs { is_theirs (Client (record { 0 = row.now.id })) event.now ≡ true }
        requires live { is_live (effects_in self.now) row.now.id ≡ true }
        requires row { row.now ≡ client_row (effects_in self.now) row.now.id }
        requires blank { IsBlank draft.old }
        ensures { Judged self.now.book.history draft.old draft.new row.now.id event.now result }
    {
        match event {
            Event::Get { name } => self.judge_get(row, name, draft),
            Event::Add {
                name,
                obj,
                allow_isolated,
                dump,
            } => self.judge_add(row, name, *obj, *allow_isolated, *dump, draft),
            Event::Die => self.judge_die(row.id, draft),
            Event::Release { handle } => self.judge_release(row.id, *handle, draft),
            Event::Take => self.judge_take(row.id, draft),
            Event::Unwatch { name, object } => self.judge_unwatch(row, name, *object, draft),
            Event::Unregister { name, obj } => self.judge_unregister(row, name, *obj, draft),
            Event::Call {
                handle,
                payload,
                refs,
            } => self.judge_call(row, *handle, payload, refs, draft),
            Event::Watch { name, object } => self.judge_watch(row, name, *object, draft),
            Event::Open(_, _) => unreachable!(),
            Event::Connect(_) => unreachable!(),
            Event::Reload { .. } => unreachable!(),
        }
    }
}
