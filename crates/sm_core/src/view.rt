//! Views.

ghost use Rattle.std.specs.Prelude.{◌≡◌, [], IfOk};
ghost use Rattle.sm_history.specs.Histories.{entered, turn_of};
ghost use Rattle.sm_history.specs.Segments.{sealed};
ghost use Rattle.sm_history.specs.declared.by.By.{By};
ghost use Rattle.sm_core.specs.Counting.{change_count};
ghost use Rattle.sm_core.specs.Kept.{Kept};
ghost use Rattle.sm_core.specs.Managed.{look_leaves};
ghost use Rattle.sm_core.specs.Viewing.{IsComing};
ghost use Rattle.sm_history.specs.BookOrder.{IsLawfulBook};
ghost use Rattle.sm_history.specs.Promises.{Looks};

use crate::journal::Journal;
use crate::query_tables::QueryTables;
use crate::state::State;
use crate::turn_counts::{TurnCounts, is_same};
use crate::turns::Turns;
use crate::view_tables::{ViewTables, next_tables};
use sm_history::{By, Effect, Entry, Query, Record, Reply, TurnRow};
use sm_values::drop_fields;
use std::alloc::{AllocError, Global};
use std::marker::Model;
use std::snapshot::Snapshot;
use std::sync::Arc;

/// A manager at one moment, for readers: the processes that may ask, and the answers. Contracts see the slots and the
/// history.
///
/// Its tables are shared with other views: a change that doesn't alter the names copies no name.
pub struct View {
    alloc: Global,
    places: u32,
    length: u64,
    tables: Arc<ViewTables>,
    /// The row of the actor that made the last change. It is the manager's if there is none since the opening or a seal.
    newest: TurnRow,
    journal: Snapshot<Journal>,
    next: Option<Snapshot<Entry>>,
}

impl Drop for View {
    fn drop(self) {
        drop_fields!(self: alloc, places, length, tables, newest, journal, next);
    }
}

impl Model for View {
    ghost use Rattle.std.specs.Arc.{arc_value};
    ghost use Rattle.sm_history.specs.Books.{Book};
    ghost use Rattle.sm_core.specs.Viewing.{with_next, Viewed};

    ghost Value = { Book };

    ghost view = { λ v. record {
      places = v.places;
      history = with_next (λ s. s.value) v.next v.journal.value.history;
    } };

    ghost invariant = { λ v. Viewed v.places (with_next (λ s. s.value) v.next v.journal.value.history) v.length
        (arc_value v.tables) v.newest };
}

impl View {
    /// Makes the view of the present state.
    pub(crate) fn of(
        alloc: Global,
        places: u32,
        journal: &Journal,
        state: &State,
        turns: &Turns,
    ) -> Result<View, AllocError>
        requires { Kept places journal.now.history turns.now state.now }
        ensures { IfOk result (λ v. v ≡ record { places = places; history = journal.now.history }) }
    {
        let tables = ViewTables {
            principals: Arc::new(alloc, state.principals.copy(alloc)?)?,
            services: Arc::new(alloc, state.names.services().copy(alloc, 0)?)?,
            turn_counts: TurnCounts::of(alloc, turns)?,
        };
        Ok(View {
            alloc,
            places,
            length: journal.history_length(),
            tables: Arc::new(alloc, tables)?,
            newest: turns.row(By::Manager),
            journal: Snapshot::of(journal),
            next: None,
        })
    }

    /// Returns the view after a ready event is committed. `journal` is the present segment, `turns` are its counts.
    /// Parts that the event doesn't change are shared with this view, which is of the present state.
    pub(crate) fn after(
        &self,
        journal: &Journal,
        turns: &Turns,
        entry: &Entry,
        effects: &[Effect],
    ) -> Result<View, AllocError>
        requires history { journal.now.history ≡ self.now.history }
        requires turns { (by : By) → change_count turns.now by ≡ turn_of self.now.history by }
        requires coming { IsComing self.now.places self.now.history entry.now effects.now }
        ensures { IfOk result
            (λ v. v ≡ record { places = self.now.places; history = entered entry.now self.now.history }) }
    {
        let alloc = self.alloc;
        let by = entry.by;
        Ok(View {
            alloc,
            places: self.places,
            length: self.length + 1,
            tables: next_tables(alloc, &self.tables, turns, self.newest, by, effects)?,
            newest: TurnRow {
                by,
                turns: turns.of(by) + 1,
            },
            journal: Snapshot::of(journal),
            next: Some(Snapshot::of(entry)),
        })
    }

    /// Returns the view after the open segment is closed. `journal` is the next segment, `turns` are the counts that it
    /// begins with. Processes and services are shared with this view, since a seal changes neither.
    pub(crate) fn after_seal(&self, journal: &Journal, turns: &Turns) -> Result<View, AllocError>
        requires history { journal.now.history ≡ sealed self.now.history }
        requires turns { (by : By) → change_count turns.now by ≡ turn_of (sealed self.now.history) by }
        ensures { IfOk result (λ v. v ≡ record { places = self.now.places; history = journal.now.history }) }
    {
        let tables = ViewTables {
            principals: Arc::try_clone(&self.tables.principals)?,
            services: Arc::try_clone(&self.tables.services)?,
            turn_counts: TurnCounts::of(self.alloc, turns)?,
        };
        Ok(View {
            alloc: self.alloc,
            places: self.places,
            length: self.length,
            tables: Arc::new(self.alloc, tables)?,
            newest: turns.row(By::Manager),
            journal: Snapshot::of(journal),
            next: None,
        })
    }

    /// The history is lawful.
    pub fn lawful(&self)
        ensures { IsLawfulBook self.now }
    {
        // Reads a field, so that the invariant is known: see docs/PROOFS.md.
        let _ = &self.places;
    }

    /// Returns the number of changes of an actor.
    pub fn turn(&self, by: By) -> u64
        ensures { result ≡ turn_of self.now.history by }
    {
        // Reads a field, so that the invariant is known: see docs/PROOFS.md.
        let _ = &self.places;
        if is_same(by, self.newest.by) {
            return self.newest.turns;
        }
        self.tables.turn_counts.of_actor(by)
    }

    /// The answer to a query, on the history that it is of. It adds no record to the ring.
    pub fn look(&self, by: By, query: Query) -> Reply
        ensures { Looks self.now by query result }
    {
        self.look_recorded(by, query).0
    }

    /// As `look`, and returns the audit records of the query, oldest first.
    pub fn look_recorded(&self, by: By, query: Query) -> (Reply, Vec<Record>)
        ensures looks { Looks self.now by query result.0 }
        ensures records { result.1.items ≡ look_leaves self.now by query result.0 }
    {
        let tables = QueryTables {
            alloc: self.alloc,
            places: self.places,
            length: self.length,
            principals: &self.tables.principals,
            services: &self.tables.services,
            journal: &self.journal,
            next: &self.next,
        };
        tables.look_recorded(by, &query)
    }
}
