//! Releases.

ghost use Rattle.std.specs.Prelude.{◌≡◌, true};
ghost use Rattle.sm_history.specs.declared.event.Event.TheVariants.{Release};
ghost use Rattle.sm_history.specs.Clients.{is_live};
ghost use Rattle.sm_core.specs.Judging.{IsBlank, Judged};
ghost use Rattle.sm_core.specs.Managed.{effects_in};

use crate::draft::{Draft, add_effect};
use crate::ledger::Ledger;
use crate::refusing::{Checked, failed};
use sm_history::{Effect, Failure, Outcome};
use sm_values::ObjRef;

impl Ledger {
    /// Judges a release of one grant of a handle. The last release frees the number.
    #[inline(never)]
    pub fn judge_release(&self, client: u32, handle: u32, draft: &mut Draft) -> Checked<Outcome>
        requires live { is_live (effects_in self.now) client ≡ true }
        requires blank { IsBlank draft.old }
        ensures { Judged self.now.book.history draft.old draft.new client (Release handle) result }
    {
        let Some(node) = self.resolved(client, ObjRef::Handle(handle)) else {
            return Err(failed(Failure::BadHandle));
        };
        add_effect(&mut draft.effects, Effect::Releases { client, node })?;
        draft.near = handle;
        Ok(Outcome::Released)
    }
}
