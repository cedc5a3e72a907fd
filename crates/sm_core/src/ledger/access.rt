//! The checks of allow rules that events make.

ghost use Rattle.std.specs.Prelude.{◌≡◌, None, Some};
ghost use Rattle.sm_values.specs.declared.class.Class.TheVariants.{Binder, ServiceManager};
ghost use Rattle.sm_history.specs.Clients.{manager_at, label_at};
ghost use Rattle.sm_core.specs.Judging.{IsRuled};
ghost use Rattle.sm_core.specs.Tables.{client_row, process_at, IsLabel};
ghost use Rattle.sm_core.specs.Managed.{effects_in, moment_in};

use crate::access::Access;
use crate::client::LiveClient;
use crate::ledger::Ledger;
use crate::process::Process;
use crate::refusing::Checked;
use sm_history::Record;
use sm_names::digest;
use sm_policy::Label;
use sm_values::{Class, Name, Perms};

impl Ledger {
    /// Returns what checks read now.
    #[inline(always)]
    pub fn access(&self) -> Access<'_>
        ensures { result ≡ moment_in self.now }
    {
        Access {
            alloc: self.alloc,
            length: self.journal.history_length(),
            principals: &self.state.principals,
        }
    }

    /// Returns the label of a name. One that was added with this digest is found fastest; any number gives the same
    /// result.
    #[inline(always)]
    pub fn label(&self, digest: u32, name: &[u8]) -> Label<'_>
        ensures { IsLabel (effects_in self.now) name.now result }
    {
        self.state.principals.policy.labelled(digest, name)
    }

    /// Checks a permission of Binder from a client to the manager.
    #[inline(always)]
    pub fn check_to_manager(
        &self,
        row: &LiveClient,
        perm: Perms,
        notes: &mut Vec<Record>,
    ) -> Checked<()>
        requires { row.now ≡ client_row (effects_in self.now) row.now.id }
        ensures { IsRuled (moment_in self.now) notes.old.items notes.new.items Binder perm row.now.process.who
            (manager_at (effects_in self.now)).context None result }
    {
        if row.to_manager.grants(perm) {
            return Ok(());
        }
        self.settle_to_manager(&row.process, perm, notes)
    }

    /// As `check_to_manager`, by the policy. Few checks need it, so this is out of line.
    #[inline(never)]
    fn settle_to_manager(&self, who: &Process, perm: Perms, notes: &mut Vec<Record>) -> Checked<()>
        requires { who.now ≡ process_at (effects_in self.now) who.now.who }
        ensures { IsRuled (moment_in self.now) notes.old.items notes.new.items Binder perm who.now.who
            (manager_at (effects_in self.now)).context None result }
    {
        let manager = &self.state.principals.manager;
        self.access()
            .to_process(who, manager, Class::Binder, perm, notes)
    }

    /// Checks a permission of Binder from the manager to a client.
    #[inline(always)]
    pub fn check_from_manager(
        &self,
        row: &LiveClient,
        perm: Perms,
        notes: &mut Vec<Record>,
    ) -> Checked<()>
        requires { row.now ≡ client_row (effects_in self.now) row.now.id }
        ensures { IsRuled (moment_in self.now) notes.old.items notes.new.items Binder perm
            (manager_at (effects_in self.now)) row.now.process.who.context None result }
    {
        if row.from_manager.grants(perm) {
            return Ok(());
        }
        self.settle_from_manager(&row.process, perm, notes)
    }

    /// As `check_from_manager`, by the policy. Few checks need it, so this is out of line.
    #[inline(never)]
    fn settle_from_manager(
        &self,
        who: &Process,
        perm: Perms,
        notes: &mut Vec<Record>,
    ) -> Checked<()>
        requires { who.now ≡ process_at (effects_in self.now) who.now.who }
        ensures { IsRuled (moment_in self.now) notes.old.items notes.new.items Binder perm
            (manager_at (effects_in self.now)) who.now.who.context None result }
    {
        let manager = &self.state.principals.manager;
        self.access()
            .to_process(manager, who, Class::Binder, perm, notes)
    }

    /// Checks a permission of the service manager from a process to the label of a name.
    #[inline(always)]
    pub fn check_to_label(
        &self,
        who: &Process,
        name: &Name,
        perm: Perms,
        notes: &mut Vec<Record>,
    ) -> Checked<()>
        requires { who.now ≡ process_at (effects_in self.now) who.now.who }
        ensures { IsRuled (moment_in self.now) notes.old.items notes.new.items ServiceManager perm who.now.who
            (label_at (effects_in self.now) name.now) (Some name.now) result }
    {
        let label = self.label(digest(name.bytes()), name.bytes());
        self.check_to_known_label(who, name, label, perm, notes)
    }

    /// As `check_to_label`, with the label of the name.
    #[inline(always)]
    pub fn check_to_known_label(
        &self,
        who: &Process,
        name: &Name,
        label: Label<'_>,
        perm: Perms,
        notes: &mut Vec<Record>,
    ) -> Checked<()>
        requires who { who.now ≡ process_at (effects_in self.now) who.now.who }
        requires label { IsLabel (effects_in self.now) name.now label }
        ensures { IsRuled (moment_in self.now) notes.old.items notes.new.items ServiceManager perm who.now.who
            (label_at (effects_in self.now) name.now) (Some name.now) result }
    {
        let index = Some(label.index);
        let class = Class::ServiceManager;
        self.access()
            .needs(who, label.context, index, Some(name), class, perm, notes)
    }
}
