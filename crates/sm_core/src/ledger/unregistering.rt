//! Unregistering of names.

ghost use Rattle.std.specs.Prelude.{◌≡◌, true};
ghost use Rattle.sm_history.specs.declared.event.Event.TheVariants.{Unregister};
ghost use Rattle.sm_history.specs.Clients.{is_live};
ghost use Rattle.sm_history.specs.Holdings.{is_in_use};
ghost use Rattle.sm_core.specs.Tables.{client_row};
ghost use Rattle.sm_core.specs.Judging.{IsBlank, Judged, removal_checks, Passes};
ghost use Rattle.sm_core.specs.Managed.{effects_in, moment_in};

use crate::client::LiveClient;
use crate::draft::{Draft, add_effect};
use crate::ledger::Ledger;
use crate::refusing::{Checked, excepted};
use sm_history::{Effect, Exception, Outcome, Record};
use sm_values::{Name, Node, ObjRef, Perms};

impl Ledger {
    /// Judges the removal of a service by the client that added it (`tryUnregisterService`).
    #[inline(never)]
    pub fn judge_unregister(
        &self,
        row: &LiveClient,
        name: &Name,
        obj: ObjRef,
        draft: &mut Draft,
    ) -> Checked<Outcome>
        requires live { is_live (effects_in self.now) row.now.id ≡ true }
        requires row { row.now ≡ client_row (effects_in self.now) row.now.id }
        requires blank { IsBlank draft.old }
        ensures { Judged self.now.book.history draft.old draft.new row.now.id (Unregister name.now obj) result }
    {
        let notes = &mut draft.records;
        self.check_to_manager(row, Perms::CALL, notes)?;
        let node = self.judge_reference(row, obj, notes)?;
        self.judge_removal(row, name, node, notes)?;
        add_effect(
            &mut draft.effects,
            Effect::Removes {
                name: name.clone()?,
            },
        )?;
        Ok(Outcome::Unregistered)
    }

    /// Checks that the caller may remove an object from a name.
    fn judge_removal(
        &self,
        row: &LiveClient,
        name: &Name,
        node: Option<Node>,
        notes: &mut Vec<Record>,
    ) -> Checked<()>
        requires { row.now ≡ client_row (effects_in self.now) row.now.id }
        ensures { Passes (moment_in self.now) notes.old.items notes.new.items
            (removal_checks (effects_in self.now) row.now.id name.now node) result }
    {
        let Some(node) = node else {
            return Err(excepted(Exception::NullBinder));
        };
        self.check_to_label(&row.process, name, Perms::ADD, notes)?;
        let Some(service) = self.state.names.get(name.bytes()) else {
            return Err(excepted(Exception::NotRegistered));
        };
        if service.adder != row.id {
            return Err(excepted(Exception::NotAdder));
        }
        if service.node != node {
            return Err(excepted(Exception::OtherObject));
        }
        if self.is_in_use(row.id, node) {
            return Err(excepted(Exception::InUse));
        }
        Ok(())
    }

    /// Returns whether a live client other than one holds an object.
    fn is_in_use(&self, except: u32, node: Node) -> bool
        ensures { result ≡ is_in_use (effects_in self.now) except node }
    {
        self.state.grants.holders(node, except) > 0
    }
}
