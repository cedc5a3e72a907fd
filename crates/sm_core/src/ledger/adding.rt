//! Adds.

ghost use Rattle.std.specs.Prelude.{List, ◌≡◌, true, Some};
ghost use Rattle.sm_history.specs.declared.event.Event.TheVariants.{Add};
ghost use Rattle.sm_history.specs.Clients.{is_live};
ghost use Rattle.sm_history.specs.Holdings.{resolve_at};
ghost use Rattle.sm_history.specs.Services.{has_name_room};
ghost use Rattle.sm_history.specs.Verdict.{passes_to_manager};
ghost use Rattle.sm_core.specs.Tables.{client_row, IsLabel};
ghost use Rattle.sm_history.specs.declared.records.Record.{Record};
ghost use Rattle.sm_core.specs.Judging.{adder_checks, given_object_checks, IsBlank, Judged, reference_checks, Passes, PassesWith};
ghost use Rattle.sm_core.specs.Judging.{service_checks};
ghost use Rattle.sm_core.specs.Managed.{effects_in, moment_in};

use crate::client::LiveClient;
use crate::draft::{Draft, add_effect};
use crate::ledger::Ledger;
use crate::refusing::{Checked, excepted, failed};
use sm_history::{Denial, Effect, Exception, Failure, Outcome, Record, Service};
use sm_names::digest;
use sm_policy::Label;
use sm_values::{Name, Node, ObjRef, Perms, is_barred_app, valid_name};

impl Ledger {
    /// Judges the registration of a service (`addService`).
    #[inline(never)]
    pub fn judge_add(
        &self,
        row: &LiveClient,
        name: &Name,
        obj: ObjRef,
        allow_isolated: bool,
        dump: u32,
        draft: &mut Draft,
    ) -> Checked<Outcome>
        requires live { is_live (effects_in self.now) row.now.id ≡ true }
        requires row { row.now ≡ client_row (effects_in self.now) row.now.id }
        requires blank { IsBlank draft.old }
        ensures { Judged self.now.book.history draft.old draft.new row.now.id
            (Add name.now obj allow_isolated dump) result }
    {
        let notes = &mut draft.records;
        self.check_to_manager(row, Perms::CALL, notes)?;
        let reference = self.judge_reference(row, obj, notes)?;
        let digest = digest(name.bytes());
        let label = self.state.principals.policy.labelled(digest, name.bytes());
        let node = self.judge_service(row, name, label, reference, notes)?;
        let copy = name.clone()?;
        let service = Service {
            node,
            adder: row.id,
            allow_isolated,
            dump,
        };
        add_effect(
            &mut draft.effects,
            Effect::Adds {
                name: copy,
                service,
            },
        )?;
        draft.near = digest;
        let notices = self.notify_all(name.bytes(), node, label, draft)?;
        Ok(Outcome::Added(notices))
    }

    /// Returns the object that a client's reference names, if it isn't null and may be passed to the manager.
    pub fn judge_reference(
        &self,
        row: &LiveClient,
        obj: ObjRef,
        notes: &mut Vec<Record>,
    ) -> Checked<Option<Node>>
        requires { row.now ≡ client_row (effects_in self.now) row.now.id }
        ensures { PassesWith (moment_in self.now) notes.old.items notes.new.items
            (passes_to_manager (effects_in self.now) row.now.id obj)
            (λ o. o ≡ resolve_at (effects_in self.now) row.now.id obj) result }
    {
        match obj {
            ObjRef::Null => Ok(None),
            _ => self.judge_passing(row, self.resolved(row.id, obj), notes),
        }
    }

    /// Returns the object of a reference, if it names one that may be passed to the manager.
    fn judge_passing(
        &self,
        row: &LiveClient,
        node: Option<Node>,
        notes: &mut Vec<Record>,
    ) -> Checked<Option<Node>>
        requires { row.now ≡ client_row (effects_in self.now) row.now.id }
        ensures { PassesWith (moment_in self.now) notes.old.items notes.new.items
            (reference_checks (effects_in self.now) row.now.id node)
            (λ o. o ≡ node) result }
    {
        if node.is_none() {
            return Err(failed(Failure::BadHandle));
        }
        self.check_to_manager(row, Perms::TRANSFER, notes)?;
        Ok(node)
    }

    /// Returns the object that may be registered under a name, which has this label.
    fn judge_service(
        &self,
        row: &LiveClient,
        name: &Name,
        label: Label<'_>,
        node: Option<Node>,
        notes: &mut Vec<Record>,
    ) -> Checked<Node>
        requires row { row.now ≡ client_row (effects_in self.now) row.now.id }
        requires label { IsLabel (effects_in self.now) name.now label }
        ensures { PassesWith (moment_in self.now) notes.old.items notes.new.items
            (service_checks (effects_in self.now) row.now.id name.now node)
            (λ n. (node ≡ Some n) × (is_live (effects_in self.now) n.owner.0 ≡ true)) result }
    {
        self.judge_adder(row, name, label, notes)?;
        let node = self.judge_object(name, node)?;
        Ok(node)
    }

    /// Checks that a client may register services under a name, which has this label.
    fn judge_adder(
        &self,
        row: &LiveClient,
        name: &Name,
        label: Label<'_>,
        notes: &mut Vec<Record>,
    ) -> Checked<()>
        requires row { row.now ≡ client_row (effects_in self.now) row.now.id }
        requires label { IsLabel (effects_in self.now) name.now label }
        ensures { Passes (moment_in self.now) notes.old.items notes.new.items
            (adder_checks (effects_in self.now) row.now.id name.now) result }
    {
        if is_barred_app(row.process.who.uid) {
            let denial = Denial::App(row.process.who.uid);
            return Err(self.access().barred(denial, &row.process.who, name, notes)?);
        }
        self.check_to_known_label(&row.process, name, label, Perms::ADD, notes)
    }

    /// Returns the object, if there is one that may be registered under a name.
    fn judge_object(&self, name: &Name, node: Option<Node>) -> Checked<Node>
        ensures { (old : List Record) → PassesWith (moment_in self.now) old old
            (given_object_checks (effects_in self.now) name.now node)
            (λ n. (node ≡ Some n) × (is_live (effects_in self.now) n.owner.0 ≡ true)) result }
    {
        let Some(node) = node else {
            return Err(excepted(Exception::NullService));
        };
        if !valid_name(name.bytes()) {
            return Err(excepted(Exception::InvalidName));
        }
        if self.client_row(node.owner.0).is_none() {
            return Err(excepted(Exception::DeadOwner));
        }
        if !self.has_name_room(name.bytes()) {
            return Err(excepted(Exception::TableFull));
        }
        Ok(node)
    }

    /// Returns whether a service may be registered under the name: it has one, or fewer than 4,096 names have one.
    fn has_name_room(&self, name: &[u8]) -> bool
        ensures { result ≡ has_name_room (effects_in self.now) name.now }
    {
        self.state.names.has_room(name)
    }
}
