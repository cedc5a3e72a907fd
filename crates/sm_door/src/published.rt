//! The published shared view, and the rule over what reader slots have seen.

use crate::registry::Naming;
use crate::registry_rule::Shows as ShowsBook;
use crate::shared_view::SharedView;
use crossbeam_utils::rule::{Outcome, Protocol};
use left_right::Absorb;
use left_right::reader::Reader;
use left_right::writer::Writer;
use sm_core::View;
use std::alloc::AllocError;
use std::marker::PhantomData;
use std::sync::Arc;

/// The payload of the readers. Each operation of the writer is a whole shared view, which replaces the one before.
pub struct Published<J: Naming> {
    pub shared_view: Arc<SharedView<J>>,
}

impl<J: Naming> Drop for Published<J> {
    fn drop(self) {
        let Published { shared_view: _ } = self;
    }
}

impl<J: Naming> Absorb<Arc<SharedView<J>>> for Published<J> {
    ghost use Rattle.std.specs.Arc.{arc_value};

    type State = View;

    ghost state = { λ s. arc_value s.shared_view };

    ghost applied = { λ _ o. arc_value o };

    fn absorb_first(
        &mut self,
        operation: &Arc<SharedView<J>>,
        _other: &Published<J>,
    ) -> Result<(), AllocError> {
        self.shared_view = Arc::try_clone(operation)?;
        Ok(())
    }

    fn absorb_second(
        &mut self,
        operation: Arc<SharedView<J>>,
        _other: &Published<J>,
    ) -> Result<(), Arc<SharedView<J>>> {
        self.shared_view = operation;
        Ok(())
    }
}

/// What a reader slot knows, in proofs only: the history that it has seen, and the number of its reads. No value of it
/// is made.
pub struct ReaderKnowledge {
    pub seen: View,
    pub reads: u64,
}

/// The rule: the published history begins with the one of the opening, and with all that each slot has seen. A new slot
/// has seen the opening.
pub struct OneHistory<J> {
    of: PhantomData<J>,
}

impl<J: Naming> Protocol<Published<J>, ReaderKnowledge> for OneHistory<J> {
    ghost use Rattle.std.specs.Arc.{arc_value};
    ghost use Rattle.sm_door.specs.Rule.{Keeps, known};

    ghost holds = { λ x. Keeps J.opening (arc_value x.shared_view) };

    ghost first = { known J.opening 0 };
}

/// A reader enters, and sees the published history.
pub struct Sees;

impl<J: Naming> Outcome<Published<J>, ReaderKnowledge> for Sees {
    ghost use Rattle.std.specs.Arc.{arc_value};
    ghost use Rattle.sm_door.specs.Rule.{Enters};

    ghost then = { λ v x y w. Enters v (arc_value y.shared_view) w };
}

/// The writer publishes. Nothing is said of its own slot.
pub struct Publishes;

impl<J: Naming> Outcome<Published<J>, ReaderKnowledge> for Publishes {
    ghost then = { λ v x y w. Unit {0} };
}

/// A reader slot.
pub type ViewReader<J> = Reader<Published<J>, ReaderKnowledge, OneHistory<J>>;

/// The writer.
pub type ViewWriter<J> = Writer<Published<J>, Arc<SharedView<J>>, ReaderKnowledge, OneHistory<J>>;

/// A view shows its book to a registry.
pub struct ShowsView;

impl ShowsBook<View> for ShowsView {
    ghost book = { λ view. view };
}
