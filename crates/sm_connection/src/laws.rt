//! Laws of what is answered to connections. Each is the contract of a function that does nothing.

ghost use Rattle.sm_connection.specs.Growing.{ClientsSeeMore, AdminsSeeMore};

/// Each answer to a connection comes from a history that begins with all that the connection had seen, by changes and
/// seals, and is lawful if that was.
#[tactic(auto, using(crate::proofs::Growing::clients_see_more))]
pub fn connections()
    ensures clients { ClientsSeeMore }
    ensures admins { AdminsSeeMore }
{}
