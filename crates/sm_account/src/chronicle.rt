//! Which connections were served.

use crate::page::Page;
use crate::visit::Visited;

/// A list of the connections that were served. As contracts see the bytes of a writer, they see the list of a chronicle
/// that knows it. That of the program keeps nothing.
pub trait Chronicle {
    ghost use Rattle.std.specs.Prelude.{◌≡◌, List, Option, None};
    ghost use Rattle.sm_account.specs.Served.{Served, with_served, both_told};

    // The connections, oldest first, if they are known.
    ghost told: { Self → Option (List Served) } = { λ _. None };

    /// Returns a page for one direction of a connection that begins.
    fn page(&self) -> Page;

    /// Adds a connection.
    fn add<V: Visited>(&mut self, visit: &V)
        ensures { told self.new ≡ with_served (told self.old) (V.served visit.now) };

    /// Keeps the pages of a connection that has ended: what was read, and what was written.
    fn keep(&mut self, read: Page, written: Page)
        ensures { told self.new ≡ told self.old };

    /// Counts connections that were turned away.
    fn turn_away(&mut self, number: u64)
        ensures { told self.new ≡ told self.old };

    /// Adds all connections of another one.
    fn join(&mut self, other: Self)
        ensures { told self.new ≡ both_told (told self.old) (told other) };
}

/// A chronicle that keeps nothing.
#[derive(Drop)]
pub struct Forgets {
    kept: (),
}

impl Forgets {
    /// Makes one.
    pub fn new() -> Forgets {
        Forgets { kept: () }
    }
}

impl Chronicle for Forgets {
    fn page(&self) -> Page {
        Page::blank()
    }

    fn add<V: Visited>(&mut self, _visit: &V) {}

    fn keep(&mut self, _read: Page, _written: Page) {}

    fn turn_away(&mut self, _number: u64) {}

    fn join(&mut self, _other: Forgets) {}
}

#[test]
fn a_chronicle_that_keeps_nothing(rt: HostRuntime) {
    let mut one = Forgets::new();
    let mut page = one.page();
    page.note(b"version\n");
    assert!(rt; page.into_bytes().is_none());
    one.keep(one.page(), one.page());
    one.turn_away(1);
    one.join(Forgets::new());
}
