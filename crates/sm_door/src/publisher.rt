//! Publication: the shared view that readers find, and the writer that replaces it.

ghost use Rattle.std.specs.Prelude.{◌≡◌, ◌<◌, MatchResult};
ghost use Rattle.std.specs.Arc.{arc_value};
ghost use Rattle.left_right.specs.Sides.{view as place_view};
ghost use Rattle.sm_history.specs.BookOrder.{Begins};

use crate::published::{Published, Publishes, Sees, ViewReader, ViewWriter};
use crate::registry::{Naming, Registry};
use crate::shared_view::SharedView;
use left_right::Absorb;
use sm_core::View;
use std::alloc::{AllocError, Global};
use std::marker::Model;
use std::sync::{Arc, Wait};

/// The published shared view and its writer. Contracts see the book that readers find.
pub struct Publisher<J: Naming>
where
    Published<J>: Absorb<Arc<SharedView<J>>, State = View>,
{
    alloc: Global,
    registry: Registry<J>,
    /// The writer, which has the shared view that readers find. It is absent only within `publish`.
    writer: Option<ViewWriter<J>>,
}

impl<J: Naming> Model for Publisher<J>
where
    Published<J>: Absorb<Arc<SharedView<J>>, State = View>,
{
    ghost use Rattle.std.specs.Prelude.{MatchOption};
    ghost use Rattle.std.specs.Arc.{arc_value};
    ghost use Rattle.sm_history.specs.Books.{Book};
    ghost use Rattle.sm_history.specs.Tokens.{at_or};

    ghost Value = { Book };

    ghost view = { λ p. at_or J.opening (λ w. arc_value w.desk.shown.value.shared_view) p.writer };

    ghost invariant = { λ p. MatchOption p.writer ⊥ (λ w. Unit {0}) };
}

/// Publishes a shared view. On an error readers find what they found, and the next shared view overtakes the one that
/// stays pending.
fn show<J: Naming, R: Wait>(
    rt: &R,
    mut writer: ViewWriter<J>,
    next: Arc<SharedView<J>>,
) -> (ViewWriter<J>, Result<(), AllocError>)
    requires { Begins (arc_value next) (arc_value writer.desk.shown.value.shared_view) }
    ensures { MatchResult result.1 (λ _. arc_value result.0.desk.shown.value.shared_view ≡ arc_value next)
        (λ _. result.0.desk.shown.value ≡ writer.desk.shown.value) }
{
    match writer.append(next) {
        Ok(()) => return writer.publish_as::<Publishes, R>(rt),
        Err(_) => return (writer, Err(AllocError)),
    }
}

impl<J: Naming> Publisher<J> {
    /// Makes a publisher with this writer. Contracts see the book that the writer shows.
    pub(crate) fn new(alloc: Global, registry: Registry<J>, writer: ViewWriter<J>) -> Publisher<J>
        ensures { result ≡ arc_value writer.desk.shown.value.shared_view }
    {
        Publisher {
            alloc,
            registry,
            writer: Some(writer),
        }
    }

    /// Replaces the published shared view with that of a view.
    ///
    /// # Errors
    ///
    /// `AllocError` if an allocation failed, or no id is left. Readers find the shared view that they found.
    pub(crate) fn publish<R: Wait>(&mut self, rt: &R, view: View) -> Result<(), AllocError>
        requires { Begins view self.old }
        ensures { MatchResult result (λ done. self.new ≡ view) (λ e. self.new ≡ self.old) }
    {
        let shared_view = SharedView::new(rt, self.alloc, &mut self.registry, view)?;
        let writer = self.writer.take().unwrap();
        let (writer, shown) = show(rt, writer, shared_view);
        match self.writer.replace(writer) {
            None => (),
            Some(_writer) => unreachable!(),
        }
        shown
    }

    /// Returns the shared view that readers find.
    #[inline(always)]
    pub(crate) fn shared_view(&self) -> &SharedView<J>
        ensures { result.now ≡ self.now }
    {
        match &self.writer {
            Some(writer) => &writer.published().shared_view,
            None => unreachable!(),
        }
    }

    /// A reader enters until it finds the publisher's own shared view, whose book begins with all that the reader had
    /// seen. The first entry does, since nobody else can publish.
    pub(crate) fn inform<R: Wait>(&self, rt: &R, mut reader: ViewReader<J>) -> ViewReader<J>
        ensures seen { (place_view result.place).seen ≡ self.now }
        ensures begins { Begins self.now (place_view reader.place).seen }
        ensures entered { (place_view reader.place).reads < (place_view result.place).reads }
    {
        for _ in rt.forever() {
            match reader.enter_as::<Sees>() {
                Ok(reading) => {
                    let shown = &reading.get().shared_view.history_id;
                    let found = shown.is(&self.shared_view().history_id);
                    reader = reading.leave();
                    if found {
                        return reader;
                    }
                }
                Err(back) => reader = back,
            }
        }
        unreachable!()
    }

    /// Ends the writer. It waits for the readers that are inside.
    pub(crate) fn close<R: Wait>(self, rt: &R) {
        let Publisher {
            alloc: _,
            registry: _registry,
            writer,
        } = self;
        writer.unwrap().take(rt);
    }
}
