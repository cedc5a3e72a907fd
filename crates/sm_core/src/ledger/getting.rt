//! Gets.

ghost use Rattle.std.specs.Prelude.{◌≡◌, ◌&&◌, true, Some};
ghost use Rattle.sm_history.specs.declared.event.Event.TheVariants.{Get};
ghost use Rattle.sm_history.specs.Clients.{is_live};
ghost use Rattle.sm_core.specs.Getting.{sight_checks};
ghost use Rattle.sm_core.specs.Judging.{IsBlank, Judged, PassesWith};
ghost use Rattle.sm_core.specs.Tables.{client_row};
ghost use Rattle.sm_core.specs.Managed.{effects_in, moment_in};

use crate::client::LiveClient;
use crate::draft::{Draft, add_effect};
use crate::ledger::Ledger;
use crate::refusing::{Checked, failed};
use sm_history::{Denial, Effect, Failure, Outcome, Record, Reply, Service};
use sm_names::digest;
use sm_values::{Name, Perms, is_isolated};

impl Ledger {
    /// Judges a client's request for the service of a name (`getService`, `checkService`).
    #[inline(never)]
    pub fn judge_get(&self, row: &LiveClient, name: &Name, draft: &mut Draft) -> Checked<Outcome>
        requires live { is_live (effects_in self.now) row.now.id ≡ true }
        requires row { row.now ≡ client_row (effects_in self.now) row.now.id }
        requires blank { IsBlank draft.old }
        ensures { Judged self.now.book.history draft.old draft.new row.now.id (Get name.now) result }
    {
        let notes = &mut draft.records;
        let digest = digest(name.bytes());
        let found = self.state.names.get_by(digest, name.bytes());
        let service = self.visible(row, name, digest, found, notes)?;
        self.check_from_manager(row, Perms::TRANSFER, notes)?;
        if service.node.owner.0 == row.id {
            return Err(Reply::GotOwn(service.node.object));
        }
        let Some(number) = self.state.grants.number_if_room(row.id, service.node) else {
            return Err(failed(Failure::TargetFull));
        };
        add_effect(
            &mut draft.effects,
            Effect::Gives {
                client: row.id,
                node: service.node,
                number,
            },
        )?;
        Ok(Outcome::Granted(number))
    }

    /// Returns the service of a name, which has this digest, most likely, if there is one and the client may find it.
    fn visible(
        &self,
        row: &LiveClient,
        name: &Name,
        digest: u32,
        found: Option<Service>,
        notes: &mut Vec<Record>,
    ) -> Checked<Service>
        requires { row.now ≡ client_row (effects_in self.now) row.now.id }
        ensures { PassesWith (moment_in self.now) notes.old.items notes.new.items
            (sight_checks (effects_in self.now) row.now.id name.now found)
            (λ service. found ≡ Some service) result }
    {
        self.check_to_manager(row, Perms::CALL, notes)?;
        if is_isolated(row.process.who.uid) && found.is_some_and(|s| !s.allow_isolated) {
            let denial = Denial::Isolated(row.process.who.uid);
            return Err(self.access().barred(denial, &row.process.who, name, notes)?);
        }
        let label = self.label(digest, name.bytes());
        self.check_to_known_label(&row.process, name, label, Perms::FIND, notes)?;
        match found {
            Some(service) => Ok(service),
            None => Err(Reply::GotNull),
        }
    }
}
