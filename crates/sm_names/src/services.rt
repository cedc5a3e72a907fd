//! Services under their names.

ghost use Rattle.std.specs.Prelude.{◌≡◌, ◌≤◌, ◌<◌, ◌+◌, true, [], ◌∷◌, length, nat_lt, IfOk, OnOk};
ghost use Rattle.sm_history.specs.declared.effect.Effect.TheVariants.{Adds, Removes, Dies};
ghost use Rattle.sm_history.specs.Effects.{Effects};
ghost use Rattle.sm_history.specs.Clients.{is_live};
ghost use Rattle.sm_history.specs.Services.{service_at, current_names};
ghost use Rattle.sm_history.specs.Queries.{names_by_mask};
ghost use Rattle.sm_names.specs.Rows.{TracksRows};

use crate::digests::digest;
use crate::hints::Hints;
use crate::named_rows::NamedRows;
use sm_history::{NameList, NamedRow, Service};
use sm_values::Name;
use std::alloc::{AllocError, Global};

/// The names that have a service, in rising byte order.
pub struct Services {
    rows: NamedRows,
    /// Where rows may be found without a search.
    hints: Hints,
}

impl Drop for Services {
    fn drop(self) {
        let Services { rows: _, hints: _ } = self;
    }
}

impl Services {
    /// Makes an empty table.
    pub fn new(alloc: Global) -> Services
        ensures { TracksRows [] result.rows.items }
    {
        Services {
            rows: NamedRows::new(alloc),
            hints: Hints::new(alloc),
        }
    }

    /// Copies the services, with room for `n` more names. The names are shared.
    pub fn copy(&self, alloc: Global, n: usize) -> Result<Services, AllocError>
        ensures { IfOk result (λ s. (s.rows.items ≡ self.now.rows.items)
            × (length self.now.rows.items + n ≤ s.rows.capacity)) }
    {
        let rows = self.rows.copy(alloc, n)?;
        Ok(Services {
            rows,
            hints: Hints::new(alloc),
        })
    }

    /// Returns the services under their names, in rising byte order.
    pub fn listed(&self, alloc: Global) -> Result<Vec<NamedRow>, AllocError>
        ensures { IfOk result (λ v. (d : Effects) → TracksRows d self.now.rows.items → TracksRows d v.items) }
    {
        self.rows.listed(alloc)
    }

    /// Makes room for `n` more names.
    pub fn reserve(&mut self, n: usize) -> Result<(), AllocError>
        ensures same { self.new.rows.items ≡ self.old.rows.items }
        ensures room { OnOk result (length self.new.rows.items + n ≤ self.new.rows.capacity) }
        ensures kept { self.old.rows.capacity ≤ self.new.rows.capacity }
    {
        self.hints.reserve(self.rows.rows());
        self.rows.reserve(n)
    }

    /// Returns whether one more name allocates nothing.
    pub fn is_ready(&self) -> bool
        ensures { result ≡ nat_lt (length self.now.rows.items) self.now.rows.capacity }
    {
        self.rows.is_ready()
    }

    /// Returns the number of names that have a service.
    pub fn len(&self) -> usize
        ensures { (d : Effects) → TracksRows d self.now.rows.items
            → result ≡ length (current_names d) }
    {
        self.rows.len()
    }

    /// Returns the service of a name.
    pub fn get(&self, name: &[u8]) -> Option<Service>
        ensures { (d : Effects) → TracksRows d self.now.rows.items
            → result ≡ service_at d name.now }
    {
        self.guessed(self.hints.slot_of(name), name)
    }

    /// As `get`. A name with this digest is found fastest; any number gives the same result.
    #[inline(always)]
    pub fn get_by(&self, digest: u32, name: &[u8]) -> Option<Service>
        ensures { (d : Effects) → TracksRows d self.now.rows.items
            → result ≡ service_at d name.now }
    {
        self.guessed(self.hints.slot_by(digest), name)
    }

    /// Returns the service of a name, which has this slot, most likely.
    #[inline(always)]
    fn guessed(&self, slot: usize, name: &[u8]) -> Option<Service>
        ensures { (d : Effects) → TracksRows d self.now.rows.items
            → result ≡ service_at d name.now }
    {
        let hint = self.hints.get(slot);
        if let Some(service) = self.rows.guess(hint, name) {
            return Some(service);
        }
        match self.rows.search(name) {
            Ok(position) => Some(self.rows.service_at(position)),
            Err(_) => None,
        }
    }

    /// Returns the names whose dump flags share a bit with a mask, in rising byte order.
    pub fn by_mask(&self, alloc: Global, mask: u32) -> Result<NameList, AllocError>
        ensures { IfOk result (λ names. (d : Effects) → TracksRows d self.now.rows.items
            → names ≡ names_by_mask d mask) }
    {
        self.rows.by_mask(alloc, mask)
    }

    /// Puts a service under a name, replacing any earlier one. Allocates nothing.
    pub fn put(&mut self, name: Name, service: Service)
        requires { length self.old.rows.items < self.old.rows.capacity }
        ensures tracks { (d : Effects) → TracksRows d self.old.rows.items
            → is_live d service.node.owner.0 ≡ true
            → TracksRows (Adds name service ∷ d) self.new.rows.items }
        ensures kept { (self.new.rows.capacity ≡ self.old.rows.capacity)
            × (length self.new.rows.items ≤ length self.old.rows.items + 1) }
    {
        let digest = digest(name.bytes());
        self.put_by(digest, name, service);
    }

    /// As `put`. A name with this digest is found fastest; any number gives the same result.
    #[inline(always)]
    pub fn put_by(&mut self, digest: u32, name: Name, service: Service)
        requires { length self.old.rows.items < self.old.rows.capacity }
        ensures tracks { (d : Effects) → TracksRows d self.old.rows.items
            → is_live d service.node.owner.0 ≡ true
            → TracksRows (Adds name service ∷ d) self.new.rows.items }
        ensures kept { (self.new.rows.capacity ≡ self.old.rows.capacity)
            × (length self.new.rows.items ≤ length self.old.rows.items + 1) }
    {
        let slot = self.hints.slot_by(digest);
        let hint = self.hints.get(slot);
        if self.rows.put_guess(hint, name.bytes(), service) {
            return;
        }
        match self.rows.search(name.bytes()) {
            Ok(position) => {
                self.hints.set(slot, self.rows.index_at(position));
                self.rows.set(position, service);
            }
            Err(position) => {
                self.hints.set(slot, self.rows.len());
                self.rows.insert(position, NamedRow { name, service });
            }
        }
    }

    /// Removes the service of a name, if there is one.
    pub fn remove(&mut self, name: &[u8])
        ensures tracks { (d : Effects) → TracksRows d self.old.rows.items
            → TracksRows (Removes name.now ∷ d) self.new.rows.items }
        ensures kept { (self.new.rows.capacity ≡ self.old.rows.capacity)
            × (length self.new.rows.items ≤ length self.old.rows.items) }
    {
        if let Ok(position) = self.rows.search(name) {
            let i = self.rows.remove(position);
            self.hints.moved(self.rows.rows(), i);
        }
    }

    /// Removes the services of a client's objects.
    pub fn remove_client(&mut self, client: u32)
        ensures tracks { (d : Effects) → TracksRows d self.old.rows.items
            → TracksRows (Dies client ∷ d) self.new.rows.items }
        ensures kept { (self.new.rows.capacity ≡ self.old.rows.capacity)
            × (length self.new.rows.items ≤ length self.old.rows.items) }
    {
        self.rows.remove_client(client, &mut self.hints);
    }
}
