//! Shared views: views with the ids of their histories.

ghost use Rattle.std.specs.Prelude.{◌≡◌, IfOk};
ghost use Rattle.std.specs.Arc.{arc_value};
ghost use Rattle.sm_history.specs.Histories.{turn_of};
ghost use Rattle.sm_history.specs.BookOrder.{IsLawfulBook};
ghost use Rattle.sm_door.specs.Logged.{LooksLogged};

use crate::published::ShowsView;
use crate::registry::{HistoryId, Naming, Registry};
use sm_core::View;
use sm_history::{By, Failure, Query, Record, Refusal, Reply};
use sm_values::drop_fields;
use std::alloc::{AllocError, Global};
use std::marker::Model;
use std::sync::{Arc, Wait};

/// A view with the id of its history. Contracts see that history with its slots.
pub struct SharedView<J: Naming> {
    pub(crate) view: View,
    pub(crate) history_id: HistoryId<J>,
}

impl<J: Naming> Drop for SharedView<J> {
    fn drop(self) {
        drop_fields!(self: view, history_id);
    }
}

impl<J: Naming> Model for SharedView<J> {
    ghost use Rattle.std.specs.Prelude.{◌≡◌};
    ghost use Rattle.sm_history.specs.Books.{Book};

    ghost Value = { Book };

    ghost view = { λ p. p.view };

    ghost invariant = { λ p. p.history_id ≡ p.view };
}

impl<J: Naming> SharedView<J> {
    /// Makes a shared view of a view, with a new id. Returns an error if an allocation failed or no number is left.
    #[inline(always)]
    pub(crate) fn new<R: Wait>(
        rt: &R,
        alloc: Global,
        registry: &mut Registry<J>,
        view: View,
    ) -> Result<Arc<SharedView<J>>, AllocError>
        ensures { IfOk result (λ p. arc_value p ≡ view) }
    {
        let Some(history_id) = registry.add::<View, ShowsView, R>(rt, &view) else {
            return Err(AllocError);
        };
        Ok(Arc::new(alloc, SharedView { view, history_id })?)
    }

    /// Returns the number of changes of an actor. The history is lawful.
    pub fn turn(&self, by: By) -> u64
        ensures turn { result ≡ turn_of self.now.history by }
        ensures lawful { IsLawfulBook self.now }
    {
        self.view.lawful();
        self.view.turn(by)
    }

    /// Answers a query of an actor at its turn on the shared view's history, with the query's audit records. `OutOfTurn`
    /// if the actor made another number of changes.
    pub fn look_in_turn(
        &self,
        alloc: Global,
        by: By,
        turn: u64,
        query: Query,
    ) -> (Reply, Vec<Record>)
        ensures { LooksLogged self.now by turn query result.0 result.1.items }
    {
        let made = self.view.turn(by);
        if made != turn {
            let refusal = Refusal::Failed(Failure::OutOfTurn(made));
            return (Reply::Refused(refusal), Vec::new(alloc));
        }
        self.view.look_recorded(by, query)
    }
}
