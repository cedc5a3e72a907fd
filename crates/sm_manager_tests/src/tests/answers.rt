//! What no contract says: that these calls give what they are called for.

use sm_history::{Event, Outcome, Refusal, Reply, connected, died, installed, is_death, moves};
use sm_values::ClientId;
use std::process::Abort;

#[test]
fn replies_are_taken_apart(rt: HostRuntime) {
    let client = connected(Reply::Done(Outcome::Connected(ClientId(7))));
    assert!(rt; client.ok() == Some(ClientId(7)));
    assert!(rt; died(Reply::Done(Outcome::Died)).is_none());
    let version = installed(Reply::Done(Outcome::Reloaded(2)));
    assert!(rt; version.ok() == Some(2));
    let refused = installed(Reply::Refused(Refusal::VersionMoved(2)));
    assert!(rt; matches!(refused, Err(Refusal::VersionMoved(2))));
    assert!(rt; moves(&Reply::GotNull) && !moves(&Reply::Refused(Refusal::Memory)));
    assert!(rt; is_death(&Event::Die) && !is_death(&Event::Take));
}
