//! Processes under a policy.

ghost use Rattle.std.specs.Prelude.{◌≡◌};
ghost use Rattle.sm_core.specs.Tables.{process_under};

use sm_policy::Prepared;
use sm_values::Identity;

/// A process under a policy: its identity, and the number of its type there (`Prepared::type_index`), by which rules
/// are looked up. `None` if the policy doesn't declare its type.
#[derive(Clone)]
pub struct Process {
    pub who: Identity,
    pub index: Option<u16>,
}

impl Drop for Process {
    fn drop(self) {
        let Process { who: _, index: _ } = self;
    }
}

impl Process {
    /// Makes a process under a policy.
    pub fn new(who: Identity, policy: &Prepared) -> Process
        ensures { result ≡ process_under policy.now who }
    {
        let index = policy.type_index(who.context.type_name());
        Process { who, index }
    }

    /// Renumbers its type for another policy.
    pub fn renumber(&mut self, policy: &Prepared)
        ensures { self.new ≡ process_under policy.now self.old.who }
    {
        self.index = policy.type_index(self.who.context.type_name());
    }
}
