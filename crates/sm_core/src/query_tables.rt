//! The answers to queries, which change nothing.

ghost use Rattle.std.specs.Prelude.{◌≡◌, false, IfErr, IfOk};
ghost use Rattle.sm_history.specs.Clients.{version_at};
ghost use Rattle.sm_history.specs.Histories.{effects_of, length_of};
ghost use Rattle.sm_history.specs.PossibleReplies.{takes_memory};
ghost use Rattle.sm_history.specs.Promises.{Looks};
ghost use Rattle.sm_history.specs.Queries.{is_their_query, list_checks, checks_of_query, found_out, names_by_mask};
ghost use Rattle.sm_history.specs.Records.{moment_of};
ghost use Rattle.sm_history.specs.declared.query.Query.TheVariants.{List as ListNames};
ghost use Rattle.sm_history.specs.declared.reply.Reply.TheVariants.{Looked};
ghost use Rattle.sm_core.specs.Judging.{IsAskerStop, PassesWith};
ghost use Rattle.sm_core.specs.Managed.{look_leaves};
ghost use Rattle.sm_core.specs.Tables.{client_row};

use crate::access::Access;
use crate::caller::Caller;
use crate::client::LiveClient;
use crate::journal::Journal;
use crate::principals::Principals;
use crate::refusing::{Checked, failed, is_memory};
use sm_history::{Answer, By, Entry, Failure, NameList, Query, Record, Reply, Shared};
use sm_names::Services;
use sm_values::{Class, Perms};
use std::alloc::{AllocError, Global};
use std::marker::Model;
use std::snapshot::Snapshot;

/// What a query reads, of a manager or of a view: the processes and the policy in force, the services, and the number
/// of changes so far. Contracts see the slots and the history.
#[derive(Drop)]
pub struct QueryTables<'a> {
    pub alloc: Global,
    pub places: u32,
    pub length: u64,
    pub principals: &'a Principals,
    pub services: &'a Services,
    pub journal: &'a Snapshot<Journal>,
    pub next: &'a Option<Snapshot<Entry>>,
}

impl<'a> Model for QueryTables<'a> {
    ghost use Rattle.sm_history.specs.Books.{Book};
    ghost use Rattle.sm_core.specs.Looking.{AreTablesOf};
    ghost use Rattle.sm_core.specs.Viewing.{with_next};

    ghost Value = { Book };

    ghost view = { λ t. record {
      places = t.places;
      history = with_next (λ s. s.value) t.next.now t.journal.now.value.history;
    } };

    ghost invariant = { λ t. AreTablesOf (with_next (λ s. s.value) t.next.now t.journal.now.value.history) t.length
        t.principals.now t.services.now };
}

/// Returns whether an actor may ask a query.
fn may_ask(by: By, query: &Query) -> bool
    ensures { result ≡ is_their_query by query.now }
{
    match by {
        By::Manager => false,
        By::Client(_) => !matches!(query, Query::Explain { .. }),
        By::Admin(_) => !matches!(query, Query::List(_)),
    }
}

impl<'a> QueryTables<'a> {
    /// Answers a query, and returns its records, oldest first: none if an allocation fails.
    #[inline(always)]
    pub fn look_recorded(&self, by: By, query: &Query) -> (Reply, Vec<Record>)
        ensures looks { Looks self.now by query.now result.0 }
        ensures records { result.1.items ≡ look_leaves self.now by query.now result.0 }
    {
        let mut notes = Vec::new(self.alloc);
        match self.judge_query(by, query, &mut notes) {
            Ok(found) => (self.looked(found), notes),
            Err(reply) => {
                if is_memory(&reply) {
                    return (reply, Vec::new(self.alloc));
                }
                (reply, notes)
            }
        }
    }

    /// Returns a result with the version and the length.
    fn looked(&self, found: Answer) -> Reply
        ensures { result ≡ Looked (version_at (effects_of self.now.history)) (length_of self.now.history) found }
    {
        Reply::Looked {
            version: self.principals.version,
            length: self.length,
            answer: found,
        }
    }

    /// Returns why a query is refused, or its result.
    fn judge_query(&self, by: By, query: &Query, notes: &mut Vec<Record>) -> Checked<Answer>
        ensures judged { PassesWith (moment_of self.now.history) notes.old.items notes.new.items
            (checks_of_query self.now.history by query.now)
            (λ found. found ≡ found_out (effects_of self.now.history) query.now) result }
        ensures asker { takes_memory query.now ≡ false → IfErr result IsAskerStop }
    {
        if !may_ask(by, query) {
            return Err(failed(Failure::NotYours));
        }
        let Some(caller) = self.principals.caller(by) else {
            return Err(failed(Failure::NotConnected));
        };
        match query {
            Query::List(mask) => match caller {
                Caller::Client(row) => self.list(row, *mask, notes),
                Caller::Manager => unreachable!(),
                Caller::Admin(_) => unreachable!(),
            },
            Query::Version => Ok(Answer::Version),
            Query::Explain {
                source,
                target,
                class,
                perm,
            } => {
                let policy = self.principals.policy.prepared();
                Ok(Answer::Why(policy.why(source.bytes(), target.bytes(), *class, *perm)))
            }
        }
    }

    /// Judges a list (`listServices`): `list` is checked against the manager's own context.
    fn list(&self, row: &LiveClient, mask: u32, notes: &mut Vec<Record>) -> Checked<Answer>
        requires { row.now ≡ client_row (effects_of self.now.history) row.now.id }
        ensures { PassesWith (moment_of self.now.history) notes.old.items notes.new.items
            (list_checks (effects_of self.now.history) row.now.id)
            (λ found. found ≡ found_out (effects_of self.now.history) (ListNames mask)) result }
    {
        let access = Access {
            alloc: self.alloc,
            length: self.length,
            principals: self.principals,
        };
        let who = &row.process;
        let manager = &self.principals.manager;
        access.to_process(who, manager, Class::Binder, Perms::CALL, notes)?;
        access.to_process(who, manager, Class::ServiceManager, Perms::LIST, notes)?;
        Ok(Answer::Names(self.names(mask)?))
    }

    /// Returns the names whose dump flags share a bit with a mask, in rising byte order.
    fn names(&self, mask: u32) -> Result<Shared<NameList>, AllocError>
        ensures { IfOk result (λ names. names ≡ names_by_mask (effects_of self.now.history) mask) }
    {
        let names = self.services.by_mask(self.alloc, mask)?;
        Shared::new(self.alloc, names)
    }
}
