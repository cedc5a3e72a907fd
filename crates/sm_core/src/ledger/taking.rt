//! Takes of deliveries.

ghost use Rattle.std.specs.Prelude.{◌≡◌, ◌∷◌, true, [], drop, MatchOption};
ghost use Rattle.sm_history.specs.declared.event.Event.TheVariants.{Take};
ghost use Rattle.sm_history.specs.Clients.{is_live};
ghost use Rattle.sm_history.specs.Inboxes.{inbox_at};
ghost use Rattle.sm_core.specs.Judging.{IsBlank, Judged};
ghost use Rattle.sm_core.specs.Managed.{effects_in};

use crate::draft::{Draft, add_effect};
use crate::ledger::Ledger;
use crate::refusing::Checked;
use sm_history::{Delivery, Effect, Outcome, Refusal, Reply, Shared};

impl Ledger {
    /// Returns a client's oldest delivery.
    pub fn oldest(&self, client: u32) -> Option<&Shared<Delivery>>
        ensures { MatchOption result (inbox_at (effects_in self.now) client ≡ [])
            (λ x. inbox_at (effects_in self.now) client
            ≡ x.now ∷ drop 1 (inbox_at (effects_in self.now) client)) }
    {
        self.state.inboxes.first(client)
    }

    /// Judges a take of the oldest delivery from a client's inbox.
    #[inline(never)]
    pub fn judge_take(&self, client: u32, draft: &mut Draft) -> Checked<Outcome>
        requires live { is_live (effects_in self.now) client ≡ true }
        requires blank { IsBlank draft.old }
        ensures { Judged self.now.book.history draft.old draft.new client Take result }
    {
        let Some(oldest) = self.oldest(client) else {
            return Err(Reply::Refused(Refusal::Empty));
        };
        add_effect(&mut draft.effects, Effect::Takes { client })?;
        Ok(Outcome::Taken(oldest.clone()?))
    }
}
