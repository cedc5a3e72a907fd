//! Connects.

ghost use Rattle.sm_history.specs.declared.event.Event.TheVariants.{Connect};
ghost use Rattle.sm_core.specs.Judging.{IsBlank, Judged};

use crate::draft::{Draft, add_effect};
use crate::ledger::Ledger;
use crate::refusing::Checked;
use sm_history::{Effect, LAST_CLIENT, MOST_CLIENTS, Outcome, Refusal, Reply};
use sm_values::{ClientId, Identity};

impl Ledger {
    /// Judges a process that connects.
    #[inline(never)]
    pub fn judge_connect(&self, who: &Identity, draft: &mut Draft) -> Checked<Outcome>
        requires { IsBlank draft.old }
        ensures { Judged self.now.book.history draft.old draft.new 0 (Connect who.now) result }
    {
        if self.state.principals.clients.len() >= MOST_CLIENTS
            || self.state.next > u64::from(LAST_CLIENT)
        {
            return Err(Reply::Refused(Refusal::TooManyClients));
        }
        let who = who.clone()?;
        let client = self.state.next as u32;
        add_effect(&mut draft.effects, Effect::Connects { client, who })?;
        Ok(Outcome::Connected(ClientId(client)))
    }
}
