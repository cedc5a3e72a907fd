//! Reloads.

ghost use Rattle.sm_history.specs.declared.event.Event.TheVariants.{Reload};
ghost use Rattle.sm_core.specs.Judging.{IsBlank, Judged};

use crate::draft::{Draft, add_effect};
use crate::ledger::Ledger;
use crate::refusing::Checked;
use sm_history::{Effect, Outcome, Refusal, Reply};
use sm_policy::Prepared;

impl Ledger {
    /// Judges a replacement of the policy by an administrator, if its version is the expected one. Handles stay; every
    /// later check is by the new policy.
    #[inline(never)]
    pub fn judge_reload(
        &self,
        expected: u64,
        prepared: &Prepared,
        draft: &mut Draft,
    ) -> Checked<Outcome>
        requires { IsBlank draft.old }
        ensures { Judged self.now.book.history draft.old draft.new 0 (Reload expected prepared.now) result }
    {
        let version = self.state.principals.version;
        if version != expected {
            return Err(Reply::Refused(Refusal::VersionMoved(version)));
        }
        add_effect(&mut draft.effects, Effect::Sets(prepared.share()?))?;
        Ok(Outcome::Reloaded(version + 1))
    }
}
