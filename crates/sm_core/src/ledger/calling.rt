//! Calls of objects.

ghost use Rattle.std.specs.Prelude.{◌≡◌, ◌≤◌, ◌&&◌, ◌++◌, true, length, take, [], Some, IfOk, OnOk, MatchResult, false, is_some};
ghost use Rattle.std.specs.Prelude.{IsTrue};
ghost use Rattle.sm_values.specs.declared.limits.TheConstants.{MOST_REFS};
ghost use Rattle.sm_history.specs.declared.delivery.Message.TheVariants.{Called};
ghost use Rattle.sm_history.specs.declared.event.Event.TheVariants.{Call};
ghost use Rattle.sm_history.specs.Clients.{is_live};
ghost use Rattle.sm_history.specs.Holdings.{resolve_at, node_at, fits_handles};
ghost use Rattle.sm_history.specs.Inboxes.{has_inbox_room};
ghost use Rattle.sm_history.specs.Verdict.{all_pass_to_client, passes_to_client, is_null};
ghost use Rattle.sm_grants.specs.Several.{after_grants, numbers_for};
ghost use Rattle.sm_grants.specs.Handing.{AreNamed, others, given_as};
ghost use Rattle.sm_core.specs.Tables.{client_row};
ghost use Rattle.sm_core.specs.Judging.{IsBlank, Judged, PassesWith};
ghost use Rattle.sm_core.specs.Judging as spec;
ghost use Rattle.sm_core.specs.Calling.{Sends, gives_of, passing_checks, target_checks};
ghost use Rattle.sm_core.specs.Managed.{effects_in, moment_in};

use crate::client::LiveClient;
use crate::draft::{Draft, add_effect};
use crate::ledger::Ledger;
use crate::refusing::{Checked, failed};
use arrayvec::ArrayVec;
use sm_history::{
    Delivery, Effect, Failure, Given, GivenRefs, Message, Outcome, Record, Refusal, Reply, Shared,
};
use sm_values::{Class, ClientId, Identity, MOST_REFS, Node, ObjRef, Payload, Perms, Refs};
use std::alloc::{AllocError, Global};

/// Puts the objects that a receiver doesn't own, for which it needs handles, first in an array. Returns their number.
fn foreign(receiver: u32, named: &[Option<Node>], nodes: &mut [Node; MOST_REFS]) -> usize
    requires { length named.now ≤ MOST_REFS }
    ensures foreign { take result nodes.new ≡ others receiver named.now }
    ensures few { result ≤ MOST_REFS }
{
    let mut count = 0;
    for node in named {
        if let Some(node) = node {
            if node.owner.0 != receiver {
                nodes[count] = *node;
                count += 1;
            }
        }
    }
    count
}

/// Returns what the receiver gets, with numbers for the objects that need handles.
fn given(
    alloc: Global,
    receiver: u32,
    named: &[Option<Node>],
    numbers: &[u32],
) -> Result<Vec<Given>, AllocError>
    ensures { IfOk result (λ v. v.items ≡ given_as receiver named.now numbers.now) }
{
    let mut list = Vec::with_capacity(alloc, named.len())?;
    let mut next = 0;
    for node in named {
        let Some(node) = node else {
            list.push(Given::Null)?;
            continue;
        };
        if next >= numbers.len() || node.owner.0 == receiver {
            list.push(Given::Own(node.object))?;
        } else {
            list.push(Given::Handle(numbers[next]))?;
            next += 1;
        }
    }
    Ok(list)
}

/// Grants objects under these numbers.
fn give(
    effects: &mut Vec<Effect>,
    receiver: u32,
    nodes: &[Node],
    numbers: &[u32],
) -> Result<(), AllocError>
    requires { length nodes.now ≡ length numbers.now }
    ensures { OnOk result (effects.new.items ≡ effects.old.items ++ gives_of receiver nodes.now numbers.now) }
{
    for i in 0..nodes.len() {
        add_effect(
            effects,
            Effect::Gives {
                client: receiver,
                node: nodes[i],
                number: numbers[i],
            },
        )?;
    }
    Ok(())
}

/// Returns the delivery of a call to an object.
fn delivery(
    alloc: Global,
    who: &Identity,
    object: u32,
    payload: &Payload,
    refs: Vec<Given>,
) -> Result<Shared<Delivery>, AllocError>
    ensures { IfOk result
        (λ b. b ≡ record { object = object; what = Called who.now.pid who.now.uid payload.now refs.items }) }
{
    let what = Message::Called {
        pid: who.pid,
        uid: who.uid,
        payload: payload.clone()?,
        refs: GivenRefs::new(refs),
    };
    Shared::new(alloc, Delivery { object, what })
}

impl Ledger {
    /// Judges a call of another client's object by a handle: a one-way transaction, as Linux's binder driver checks it
    /// by `selinux_binder_transaction` and, for each reference, `selinux_binder_transfer_binder`.
    #[inline(never)]
    pub fn judge_call(
        &self,
        row: &LiveClient,
        handle: u32,
        payload: &Payload,
        refs: &Refs,
        draft: &mut Draft,
    ) -> Checked<Outcome>
        requires live { is_live (effects_in self.now) row.now.id ≡ true }
        requires row { row.now ≡ client_row (effects_in self.now) row.now.id }
        requires blank { IsBlank draft.old }
        ensures { Judged self.now.book.history draft.old draft.new row.now.id
            (Call handle payload.now refs.now) result }
    {
        // Reads a field, so that the invariant is known: see docs/PROOFS.md.
        let _ = &self.places;
        let notes = &mut draft.records;
        let target = self.judge_target(row, handle, notes)?;
        let mut named = ArrayVec::new();
        self.judge_references(row, target.owner.0, refs.list(), &mut named, notes)?;
        let blank = Node {
            owner: ClientId(0),
            object: 0,
        };
        let mut nodes = [blank; MOST_REFS];
        let count = foreign(target.owner.0, named.as_slice(), &mut nodes);
        let nodes = &nodes[..count];
        let mut numbers = ArrayVec::new();
        if !self.has_room(target.owner.0, nodes, &mut numbers) {
            return Err(failed(Failure::TargetFull));
        }
        let named = named.as_slice();
        let numbers = numbers.as_slice();
        self.send(row, target, payload, named, nodes, numbers, draft)
    }

    /// Returns the called object, if its owner lives and the caller may call the owner.
    fn judge_target(&self, row: &LiveClient, handle: u32, notes: &mut Vec<Record>) -> Checked<Node>
        requires { row.now ≡ client_row (effects_in self.now) row.now.id }
        ensures { PassesWith (moment_in self.now) notes.old.items notes.new.items
            (target_checks (effects_in self.now) row.now.id (node_at (effects_in self.now) row.now.id handle))
            (λ n. (node_at (effects_in self.now) row.now.id handle ≡ Some n)
            × (is_live (effects_in self.now) n.owner.0 ≡ true)) result }
    {
        let Some(node) = self.resolved(row.id, ObjRef::Handle(handle)) else {
            return Err(failed(Failure::BadHandle));
        };
        let Some(owner) = self.client_row(node.owner.0) else {
            return Err(Reply::Refused(Refusal::Dead));
        };
        self.access().to_process(
            &row.process,
            &owner.process,
            Class::Binder,
            Perms::CALL,
            notes,
        )?;
        Ok(node)
    }

    /// Checks that each of a call's references may be passed to the receiver, and lists the objects that they name.
    fn judge_references(
        &self,
        row: &LiveClient,
        receiver: u32,
        refs: &[ObjRef],
        named: &mut ArrayVec<Option<Node>, MOST_REFS>,
        notes: &mut Vec<Record>,
    ) -> Checked<()>
        requires row { row.now ≡ client_row (effects_in self.now) row.now.id }
        requires live { is_live (effects_in self.now) receiver ≡ true }
        requires few { length refs.now ≤ MOST_REFS }
        requires none { named.old.items ≡ [] }
        ensures { PassesWith (moment_in self.now) notes.old.items notes.new.items
            (all_pass_to_client (effects_in self.now) row.now.id receiver refs.now)
            (λ done. AreNamed (effects_in self.now) row.now.id refs.now named.new.items) result }
    {
        for obj in refs {
            let node = self.judge_passed(row, receiver, *obj, notes)?;
            named.push(node);
        }
        Ok(())
    }

    /// Returns the object that a reference names, if it is null or may be passed to the receiver.
    fn judge_passed(
        &self,
        row: &LiveClient,
        receiver: u32,
        obj: ObjRef,
        notes: &mut Vec<Record>,
    ) -> Checked<Option<Node>>
        requires row { row.now ≡ client_row (effects_in self.now) row.now.id }
        requires live { is_live (effects_in self.now) receiver ≡ true }
        ensures { PassesWith (moment_in self.now) notes.old.items notes.new.items
            (passes_to_client (effects_in self.now) row.now.id receiver obj)
            (λ o. (resolve_at (effects_in self.now) row.now.id obj ≡ o)
            × (is_null obj ≡ false → is_some o ≡ true)) result }
    {
        match obj {
            ObjRef::Null => Ok(None),
            _ => self.judge_named(row, receiver, self.resolved(row.id, obj), notes),
        }
    }

    /// Returns the object of a reference, if it names one that may be passed to the receiver.
    fn judge_named(
        &self,
        row: &LiveClient,
        receiver: u32,
        node: Option<Node>,
        notes: &mut Vec<Record>,
    ) -> Checked<Option<Node>>
        requires row { row.now ≡ client_row (effects_in self.now) row.now.id }
        requires live { is_live (effects_in self.now) receiver ≡ true }
        ensures { PassesWith (moment_in self.now) notes.old.items notes.new.items
            (passing_checks (effects_in self.now) row.now.id receiver node)
            (λ o. (o ≡ node) × (is_some node ≡ true)) result }
    {
        if node.is_none() {
            return Err(failed(Failure::BadHandle));
        }
        let Some(other) = self.client_row(receiver) else {
            unreachable!();
        };
        self.access().to_process(
            &row.process,
            &other.process,
            Class::Binder,
            Perms::TRANSFER,
            notes,
        )?;
        Ok(node)
    }

    /// Returns whether a receiver has room for a delivery, and for handles to these objects. If so, appends the numbers
    /// of the handles, granted in order, to an empty list.
    fn has_room(
        &self,
        receiver: u32,
        nodes: &[Node],
        numbers: &mut ArrayVec<u32, MOST_REFS>,
    ) -> bool
        requires live { is_live (effects_in self.now) receiver ≡ true }
        requires few { length nodes.now ≤ MOST_REFS }
        requires none { numbers.old.items ≡ [] }
        ensures room { result ≡ (has_inbox_room (effects_in self.now) receiver
            && fits_handles (after_grants (effects_in self.now) receiver nodes.now) receiver) }
        ensures numbers { IsTrue result
            → numbers.new.items ≡ numbers_for (effects_in self.now) receiver nodes.now }
    {
        self.state.inboxes.has_room(receiver)
            && self.state.grants.numbers_if_room(receiver, nodes, numbers)
    }

    /// Drafts a call that passes its checks.
    fn send(
        &self,
        row: &LiveClient,
        target: Node,
        payload: &Payload,
        named: &[Option<Node>],
        nodes: &[Node],
        numbers: &[u32],
        draft: &mut Draft,
    ) -> Checked<Outcome>
        requires row { row.now ≡ client_row (effects_in self.now) row.now.id }
        requires foreign { nodes.now ≡ others target.owner.0 named.now }
        requires numbers { numbers.now ≡ numbers_for (effects_in self.now) target.owner.0 nodes.now }
        requires blank { IsBlank draft.old }
        ensures { MatchResult result
            (Sends (effects_in self.now) row.now.id target payload.now named.now draft.old draft.new)
            (λ r. r ≡ spec.out_of_memory) }
    {
        let owner = target.owner.0;
        give(&mut draft.effects, owner, nodes, numbers)?;
        let given = given(self.alloc, owner, named, numbers)?;
        let delivery = delivery(self.alloc, &row.process.who, target.object, payload, given)?;
        let outcome = Outcome::Sent(delivery.clone()?);
        add_effect(
            &mut draft.effects,
            Effect::Delivers {
                client: owner,
                delivery,
            },
        )?;
        Ok(outcome)
    }
}
