//! Commands of a session to its desk.

use sm_policy::Prepared;
use sm_values::Identity;
use sm_wire::Request;

/// A command of a session to its desk.
#[derive(Drop)]
pub enum Command {
    /// A process connects as a client.
    Hello(Identity),
    /// A line of a client or an administrator other than a `hello` or a `reload`.
    Line(Request),
    /// An administrator replaces the policy, if the one in force has the expected version.
    Install { expected: u64, prepared: Prepared },
    /// The session of a client has ended, and so the client dies. If it is dead, there is nothing to do.
    Death,
}
