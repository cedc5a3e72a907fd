//! Queries, which change nothing.

ghost use Rattle.std.specs.Prelude.{◌≡◌, ◌&&◌, [], false, IfOk, IfSome, IfNone};
ghost use Rattle.sm_history.specs.declared.query.Query.TheVariants.{Version};
ghost use Rattle.sm_history.specs.declared.reply.Answer.TheVariants.{Version as VersionAnswer};
ghost use Rattle.sm_history.specs.declared.reply.Reply.TheVariants.{Looked};
ghost use Rattle.sm_history.specs.Histories.{effects_of};
ghost use Rattle.sm_history.specs.Promises.{Looks};
ghost use Rattle.sm_history.specs.Queries.{is_their_query, query_verdict};
ghost use Rattle.sm_history.specs.Verdict.{is_there};
ghost use Rattle.sm_history.specs.Records.{query_records};
ghost use Rattle.sm_core.specs.Managed.{look_leaves};

use crate::manager::Manager;
use crate::refusing::is_memory;
use sm_history::{By, Query, Record, Reply};
use std::alloc::AllocError;

impl Manager {
    /// Answers a query, on the present history.
    pub fn look(&self, by: By, query: Query) -> Reply
        ensures { Looks self.now.book by query result }
    {
        self.ledger.look(by, &query).0
    }

    /// As `look`, and returns the records of the query.
    pub fn look_recorded(&self, by: By, query: Query) -> (Reply, Vec<Record>)
        ensures looks { Looks self.now.book by query result.0 }
        ensures records { result.1.items ≡ look_leaves self.now.book by query result.0 }
    {
        self.ledger.look(by, &query)
    }

    /// Returns what a `version` of an actor is answered with: the version of the policy in force, and the number of
    /// changes so far. `None` if the actor may not ask it, or isn't connected. It leaves no records.
    pub fn version_seen(&self, by: By) -> Option<(u64, u64)>
        ensures seen { IfSome result
            (λ v. Looked v.0 v.1 VersionAnswer ≡ query_verdict self.now.book.history by Version) }
        ensures refused { IfNone result
            ((is_their_query by Version && is_there (effects_of self.now.book.history) by) ≡ false) }
        ensures records { query_records self.now.book.history by Version ≡ [] }
    {
        self.ledger.version_seen(by)
    }

    /// Returns the records of a query. Returns an error if an allocation fails.
    pub fn look_records(&self, by: By, query: &Query) -> Result<Vec<Record>, AllocError>
        ensures { IfOk result (λ v. v.items ≡ query_records self.now.book.history by query.now) }
    {
        let (reply, records) = self.ledger.look(by, query);
        if is_memory(&reply) {
            return Err(AllocError);
        }
        Ok(records)
    }
}
