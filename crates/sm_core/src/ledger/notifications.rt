//! Notices to watchers of a registration.

ghost use Rattle.std.specs.Prelude.{◌≡◌, ◌++◌, ◌∷◌, ◌<◌, ◌-◌, ℕ, true, false, [], Some, cond, nat_eq};
ghost use Rattle.std.specs.Prelude.{IfOk, OnOk, MatchOption, MatchResult};
ghost use Rattle.std.specs.List.{list_all, All};
ghost use Rattle.sm_history.specs.declared.effect.Effect.TheVariants.{Delivers};
ghost use Rattle.sm_history.specs.Clients.{is_live};
ghost use Rattle.sm_history.specs.Holdings.{fits_handles, given_to, handed};
ghost use Rattle.sm_history.specs.Services.{watchers_at};
ghost use Rattle.sm_history.specs.Following.{followed};
ghost use Rattle.sm_history.specs.Notices.{notice as spec_notice, notice_at};
ghost use Rattle.sm_core.specs.Judging.{PassesWith, out_of_memory};
ghost use Rattle.sm_core.specs.Managed.{effects_in, moment_in};
ghost use Rattle.sm_core.specs.Notifications.{told_checks, told_to, gives_of, left_at, left_in};
ghost use Rattle.sm_core.specs.Notifications.{AreNotifications, GoesOn, GoesFar, MayPrecede, TellsAll};
ghost use Rattle.sm_core.specs.Tables.{IsLabel};

use crate::draft::{Draft, add_effect};
use crate::inbox_rooms::InboxRooms;
use crate::ledger::Ledger;
use crate::refusing::{Checked, failed, reason};
use sm_history::{
    Delivery, Effect, Failure, Given, Message, Notice, Notices, Record, Shared, Told, Watch,
};
use sm_names::digest;
use sm_policy::Label;
use sm_values::{ClientId, Node, Perms};
use std::alloc::{AllocError, Global};

/// Makes the notice for a watch.
fn notice(watch: &Watch, told: Told) -> Notice
    ensures { result ≡ spec_notice watch.now told }
{
    Notice {
        client: ClientId(watch.client),
        object: watch.object,
        result: told,
    }
}

/// Returns the delivery to a watcher, with the object as it reaches it.
fn registration(alloc: Global, watch: &Watch, given: Given) -> Result<Shared<Delivery>, AllocError>
    ensures { IfOk result (λ x. x ≡ told_to watch.now given) }
{
    let name = watch.name.clone()?;
    let delivery = Delivery {
        object: watch.object,
        what: Message::Registered { name, given },
    };
    Shared::new(alloc, delivery)
}

/// Grants a handle to a client, unless the object is its own.
fn give(effects: &mut Vec<Effect>, client: u32, node: Node, given: Given) -> Result<(), AllocError>
    ensures { OnOk result (effects.new.items ≡ effects.old.items ++ gives_of client node given) }
{
    if let Given::Handle(number) = given {
        add_effect(
            effects,
            Effect::Gives {
                client,
                node,
                number,
            },
        )?;
    }
    Ok(())
}

impl Ledger {
    /// Returns whether a client holds no more handles than it may.
    fn fits_handles(&self, client: u32) -> bool
        requires { is_live (effects_in self.now) client ≡ true }
        ensures { result ≡ fits_handles (effects_in self.now) client }
    {
        self.state.grants.room(client, &[])
    }

    /// Returns an object as it reaches a client, if the client's handles have room.
    fn given_to(&self, client: u32, node: Node) -> Option<Given>
        requires { is_live (effects_in self.now) client ≡ true }
        ensures { MatchOption result (fits_handles (handed (effects_in self.now) client node) client ≡ false)
            (λ g. (fits_handles (handed (effects_in self.now) client node) client ≡ true)
            × (g ≡ given_to (effects_in self.now) client node)) }
    {
        if node.owner.0 == client {
            if !self.fits_handles(client) {
                return None;
            }
            return Some(Given::Own(node.object));
        }
        let number = self.state.grants.number_if_room(client, node)?;
        Some(Given::Handle(number))
    }

    /// Returns the number of deliveries for which a client's inbox still has room.
    fn left(&self, rooms: &InboxRooms, client: u32) -> usize
        ensures { result ≡ left_at (effects_in self.now) rooms.now client }
    {
        match rooms.of(client) {
            Some(left) => left,
            None => self.state.inboxes.free(client),
        }
    }

    /// Returns the object as it reaches a watcher that may be notified, and whose inbox has room for `left` deliveries.
    fn judge_told(
        &self,
        watch: &Watch,
        node: Node,
        label: Label<'_>,
        left: usize,
        notes: &mut Vec<Record>,
    ) -> Checked<Given>
        requires live { is_live (effects_in self.now) watch.now.client ≡ true }
        requires label { IsLabel (effects_in self.now) watch.now.name label }
        ensures { PassesWith (moment_in self.now) notes.old.items notes.new.items
            (told_checks (effects_in self.now) node watch.now left)
            (λ g. g ≡ given_to (effects_in self.now) watch.now.client node) result }
    {
        let Some(row) = self.client_row(watch.client) else {
            unreachable!();
        };
        self.check_to_known_label(&row.process, &watch.name, label, Perms::FIND, notes)?;
        self.check_from_manager(row, Perms::CALL, notes)?;
        self.check_from_manager(row, Perms::TRANSFER, notes)?;
        if left == 0 {
            return Err(failed(Failure::TargetFull));
        }
        self.given_to(watch.client, node)
            .ok_or_else(|| failed(Failure::TargetFull))
    }

    /// Drafts what a watcher is told, whose inbox has room for `left` deliveries, and returns the delivery.
    fn tell(
        &self,
        watch: &Watch,
        node: Node,
        given: Given,
        left: usize,
        rooms: &mut InboxRooms,
        draft: &mut Draft,
    ) -> Result<Shared<Delivery>, AllocError>
        requires { 0 < left }
        ensures told { IfOk result (λ x. x ≡ told_to watch.now given) }
        ensures same { (draft.new.told ≡ draft.old.told) × (draft.new.records ≡ draft.old.records) }
        ensures effects { OnOk result (draft.new.effects.items
            ≡ (draft.old.effects.items ++ gives_of watch.now.client node given)
            ++ Delivers watch.now.client (told_to watch.now given) ∷ []) }
        ensures left { OnOk result ((c : ℕ) → left_in rooms.new c
            ≡ cond (nat_eq watch.now.client c) (Some (left - 1)) (left_in rooms.old c)) }
    {
        let delivery = registration(self.alloc, watch, given)?;
        let told = delivery.clone()?;
        let client = watch.client;
        rooms.set(client, left - 1)?;
        give(&mut draft.effects, client, node, given)?;
        add_effect(&mut draft.effects, Effect::Delivers { client, delivery })?;
        Ok(told)
    }

    /// Notifies a watcher that an object was registered under the name, which has this label, and gives it the object;
    /// or returns why it may not be notified.
    fn notify(
        &self,
        watch: &Watch,
        node: Node,
        label: Label<'_>,
        rooms: &mut InboxRooms,
        draft: &mut Draft,
    ) -> Checked<Notice>
        requires live { is_live (effects_in self.now) watch.now.client ≡ true }
        requires label { IsLabel (effects_in self.now) watch.now.name label }
        requires notifications { AreNotifications (effects_in self.now) node draft.old rooms.old }
        ensures { MatchResult result
            (λ x. (x ≡ notice_at (followed (effects_in self.now) draft.old.effects.items) node watch.now)
            × GoesOn (moment_in self.now) (effects_in self.now) node watch.now draft.old draft.new rooms.new)
            (λ r. r ≡ out_of_memory) }
    {
        let left = self.left(rooms, watch.client);
        match self.judge_told(watch, node, label, left, &mut draft.told) {
            Ok(given) => {
                let told = self.tell(watch, node, given, left, rooms, draft)?;
                Ok(notice(watch, Told::Told(told)))
            }
            Err(reply) => Ok(notice(watch, Told::NotTold(reason(self.alloc, reply)?))),
        }
    }

    /// Notifies the watcher of a new watch of a name, which has this object, after the effects that were drafted before.
    pub fn notify_one(
        &self,
        watch: &Watch,
        node: Node,
        draft: &mut Draft,
    ) -> Checked<Shared<Notice>>
        requires live { is_live (effects_in self.now) watch.now.client ≡ true }
        requires before { MayPrecede (effects_in self.now) node draft.old.effects.items }
        ensures { MatchResult result
            (λ x. TellsAll (moment_in self.now) (effects_in self.now) node (watch.now ∷ []) draft.old draft.new (x ∷ []))
            (λ r. r ≡ out_of_memory) }
    {
        let mut rooms = InboxRooms::new(self.alloc);
        let name = watch.name.bytes();
        let label = self.label(digest(name), name);
        let notice = self.notify(watch, node, label, &mut rooms, draft)?;
        Ok(Shared::new(self.alloc, notice)?)
    }

    /// Notifies the watchers of a name, which has this label, in order that an object was registered under it, after
    /// the effects that were drafted before.
    pub fn notify_all(
        &self,
        name: &[u8],
        node: Node,
        label: Label<'_>,
        draft: &mut Draft,
    ) -> Checked<Notices>
        requires label { IsLabel (effects_in self.now) name.now label }
        requires before { MayPrecede (effects_in self.now) node draft.old.effects.items }
        ensures { MatchResult result
            (TellsAll (moment_in self.now) (effects_in self.now) node (watchers_at (effects_in self.now) name.now)
            draft.old draft.new)
            (λ r. r ≡ out_of_memory) }
    {
        let watches = self.state.names.watchers(name);
        let notices = self.notify_each(watches, node, label, draft)?;
        Ok(Notices::new(self.alloc, notices)?)
    }

    /// Notifies these watchers, each on the state after the ones before it.
    fn notify_each(
        &self,
        watches: &[Watch],
        node: Node,
        label: Label<'_>,
        draft: &mut Draft,
    ) -> Checked<Vec<Notice>>
        requires live { list_all (λ w. is_live (effects_in self.now) w.client) watches.now ≡ true }
        requires label { All (λ w. IsLabel (effects_in self.now) w.name label) watches.now }
        requires before { MayPrecede (effects_in self.now) node draft.old.effects.items }
        ensures { MatchResult result
            (λ notices. TellsAll (moment_in self.now) (effects_in self.now) node watches.now draft.old draft.new
            notices.items)
            (λ r. r ≡ out_of_memory) }
    {
        if watches.is_empty() {
            return Ok(Vec::new(self.alloc));
        }
        let mut notices = Vec::with_capacity(self.alloc, watches.len())?;
        let mut rooms = InboxRooms::new(self.alloc);
        for watch in watches {
            let notice = self.notify(watch, node, label, &mut rooms, draft)?;
            notices.push(notice)?;
        }
        Ok(notices)
    }
}
