//! Deaths.

ghost use Rattle.std.specs.Prelude.{◌≡◌, true};
ghost use Rattle.sm_history.specs.declared.event.Event.TheVariants.{Die};
ghost use Rattle.sm_history.specs.Clients.{is_live};
ghost use Rattle.sm_core.specs.Judging.{IsBlank, Judged};
ghost use Rattle.sm_core.specs.Managed.{effects_in};

use crate::draft::{Draft, add_effect};
use crate::ledger::Ledger;
use crate::refusing::Checked;
use sm_history::{Effect, Outcome};

impl Ledger {
    /// Judges a client's death.
    #[inline(never)]
    pub fn judge_die(&self, client: u32, draft: &mut Draft) -> Checked<Outcome>
        requires live { is_live (effects_in self.now) client ≡ true }
        requires blank { IsBlank draft.old }
        ensures { Judged self.now.book.history draft.old draft.new client Die result }
    {
        add_effect(&mut draft.effects, Effect::Dies { client })?;
        Ok(Outcome::Died)
    }
}
