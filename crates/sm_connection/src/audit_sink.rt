//! Where the audit records of connections go.

use crate::supervisor::Supervisor;
use sm_history::Record;

/// Takes the audit records of a connection's requests.
pub trait AuditSink {
    ghost use Rattle.std.specs.Prelude.{◌≡◌, List, Option, None};
    ghost use Rattle.sm_history.specs.declared.records.Record.{Record};
    ghost use Rattle.sm_connection.specs.Sinks.{with_records};

    // The records that it was given, oldest first, if they are known.
    ghost given: { Self → Option (List Record) } = { λ _. None };

    /// Takes the records of one request, oldest first. There may be none.
    fn give(&mut self, records: &[Record])
        ensures { given self.new ≡ with_records (given self.old) records.now };
}

/// Passes the records to the supervisor of a server.
pub struct SupervisorSink<'a, H> {
    host: &'a H,
}

impl<'a, H> Drop for SupervisorSink<'a, H> {
    fn drop(self) {
        let SupervisorSink { host: _ } = self;
    }
}

impl<'a, H> SupervisorSink<'a, H> {
    /// A sink of this supervisor's.
    pub fn new(host: &'a H) -> SupervisorSink<'a, H> {
        SupervisorSink { host }
    }
}

impl<'a, H: Supervisor> AuditSink for SupervisorSink<'a, H> {
    fn give(&mut self, records: &[Record]) {
        if !records.is_empty() {
            self.host.audit(records);
        }
    }
}
