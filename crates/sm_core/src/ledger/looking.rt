//! Queries, which change nothing.

ghost use Rattle.std.specs.Prelude.{◌≡◌, ◌&&◌, [], false, IfSome, IfNone};
ghost use Rattle.sm_history.specs.declared.query.Query.TheVariants.{Version};
ghost use Rattle.sm_history.specs.declared.reply.Answer.TheVariants.{Version as VersionAnswer};
ghost use Rattle.sm_history.specs.declared.reply.Reply.TheVariants.{Looked};
ghost use Rattle.sm_history.specs.Promises.{Looks};
ghost use Rattle.sm_history.specs.Queries.{is_their_query, query_verdict};
ghost use Rattle.sm_history.specs.Verdict.{is_there};
ghost use Rattle.sm_history.specs.Records.{query_records};
ghost use Rattle.sm_core.specs.Managed.{effects_in, look_leaves};

use crate::ledger::Ledger;
use crate::query_tables::QueryTables;
use sm_history::{By, Query, Record, Reply};
use std::snapshot::Snapshot;

impl Ledger {
    /// Answers a query on the present history, and returns its records, oldest first: none if an allocation fails.
    pub fn look(&self, by: By, query: &Query) -> (Reply, Vec<Record>)
        ensures looks { Looks self.now.book by query.now result.0 }
        ensures records { result.1.items ≡ look_leaves self.now.book by query.now result.0 }
    {
        let journal = Snapshot::of(&self.journal);
        let tables = QueryTables {
            alloc: self.alloc,
            places: self.places,
            length: self.journal.history_length(),
            principals: &self.state.principals,
            services: self.state.names.services(),
            journal: &journal,
            next: &None,
        };
        tables.look_recorded(by, query)
    }

    /// Returns what a `version` of an actor is answered with: the version of the policy in force, and the number of
    /// changes so far. `None` if the actor may not ask it, or isn't connected. It leaves no records.
    pub fn version_seen(&self, by: By) -> Option<(u64, u64)>
        ensures seen { IfSome result
            (λ v. Looked v.0 v.1 VersionAnswer ≡ query_verdict self.now.book.history by Version) }
        ensures refused { IfNone result ((is_their_query by Version && is_there (effects_in self.now) by) ≡ false) }
        ensures records { query_records self.now.book.history by Version ≡ [] }
    {
        if let By::Manager = by {
            return None;
        }
        self.state.principals.caller(by)?;
        Some((self.state.principals.version, self.journal.history_length()))
    }
}
