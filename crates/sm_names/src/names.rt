//! Names: services and watches.

ghost use Rattle.std.specs.Prelude.{◌≡◌, ◌≤◌, ◌<◌, ◌+◌, ◌↔◌, ℕ, true, [], ◌∷◌, length, count_by, IfOk, OnOk, IsTrue};
ghost use Rattle.std.specs.List.{list_any};
ghost use Rattle.sm_history.specs.declared.limits.TheConstants.{MOST_WATCHES};
ghost use Rattle.sm_history.specs.declared.effect.Effect.TheVariants.{Adds, Removes, Watches, Unwatches, Dies};
ghost use Rattle.sm_history.specs.Effects.{Effects};
ghost use Rattle.sm_history.specs.Clients.{is_live};
ghost use Rattle.sm_history.specs.Services.{service_at, has_name_room, same_watch, watches_at, watchers_at};
ghost use Rattle.sm_history.specs.Histories.{watch as make_watch};
ghost use Rattle.sm_history.specs.Queries.{names_by_mask};
ghost use Rattle.sm_names.specs.Rows.{TracksRows};
ghost use Rattle.sm_names.specs.Tracking.{TracksNames, HasRoom, watch_count};

use crate::services::Services;
use crate::watch_list::WatchList;
use crate::watch_order::{append_watch, remove_watch, remove_watches};
use sm_history::{MOST_NAMES, MOST_WATCHES, NameList, Service, Watch, WatchPair, watches_of};
use sm_values::{Name, drop_fields};
use std::alloc::{AllocError, Global};

/// The table of services under their names, and of watches: by name, and in `order` oldest first. A segment begins with
/// them in this order, which the list by name doesn't have.
pub struct NameTable {
    services: Services,
    watches: WatchList,
    order: Vec<Watch>,
}

impl Drop for NameTable {
    fn drop(self) {
        drop_fields!(self: services, watches, order);
    }
}

impl NameTable {
    /// Makes an empty table.
    pub fn new(alloc: Global) -> NameTable
        ensures { TracksNames [] result }
    {
        NameTable {
            services: Services::new(alloc),
            watches: WatchList::new(alloc),
            order: Vec::new(alloc),
        }
    }

    /// Makes room for `n` more names and `n` more watches, so that as many calls of `put` and of `watch` allocate
    /// nothing.
    pub fn reserve(&mut self, n: usize) -> Result<(), AllocError>
        ensures tracks { (d : Effects) → TracksNames d self.old → TracksNames d self.new }
        ensures room { OnOk result (HasRoom n self.new) }
        ensures kept { (m : ℕ) → HasRoom m self.old → HasRoom m self.new }
        ensures same { watch_count self.new ≡ watch_count self.old }
    {
        self.services.reserve(n)?;
        self.watches.list.reserve(n)?;
        self.order.reserve(n)
    }

    /// Returns the services, without the watches.
    pub fn services(&self) -> &Services
        ensures { (d : Effects) → TracksNames d self.now → TracksRows d result.now.rows.items }
    {
        &self.services
    }

    /// Returns the service of a name.
    pub fn get(&self, name: &[u8]) -> Option<Service>
        ensures { (d : Effects) → TracksNames d self.now → result ≡ service_at d name.now }
    {
        self.services.get(name)
    }

    /// As `get`. A name with this `digest` is found fastest; any number gives the same result.
    #[inline(always)]
    pub fn get_by(&self, digest: u32, name: &[u8]) -> Option<Service>
        ensures { (d : Effects) → TracksNames d self.now → result ≡ service_at d name.now }
    {
        self.services.get_by(digest, name)
    }

    /// Returns whether a service may be put under a name: it has one, or fewer than 4,096 names have one.
    pub fn has_room(&self, name: &[u8]) -> bool
        ensures { (d : Effects) → TracksNames d self.now → result ≡ has_name_room d name.now }
    {
        self.services.len() < MOST_NAMES || self.services.get(name).is_some()
    }

    /// Returns the names whose dump flags share a bit with a mask, in rising byte order.
    pub fn by_mask(&self, alloc: Global, mask: u32) -> Result<NameList, AllocError>
        ensures { IfOk result (λ names. (d : Effects) → TracksNames d self.now
            → names ≡ names_by_mask d mask) }
    {
        self.services.by_mask(alloc, mask)
    }

    /// Returns the number of watches of all live clients, at most 4,096.
    pub fn watches(&self) -> usize
        ensures tracks { (d : Effects) → TracksNames d self.now → result ≡ length (watches_at d) }
        ensures count { result ≡ watch_count self.now }
        ensures few { result ≤ MOST_WATCHES }
    {
        self.watches.len()
    }

    /// Returns whether a client's object watches a name.
    pub fn is_watching(&self, client: u32, name: &[u8], object: u32) -> bool
        ensures { (d : Effects) → TracksNames d self.now
            → result ≡ list_any (same_watch (make_watch client name.now object)) (watches_at d) }
    {
        self.watches.contains(client, name, object)
    }

    /// Returns the number of watches of a name by a client's object.
    pub fn watching(&self, client: u32, name: &[u8], object: u32) -> u32
        ensures { (d : Effects) → TracksNames d self.now
            → result ≡ count_by (same_watch (make_watch client name.now object)) (watches_at d) }
    {
        self.watches.count(client, name, object)
    }

    /// Returns all watches, oldest first. They share their names with the table.
    pub fn listed_watches(&self, alloc: Global) -> Result<Vec<Watch>, AllocError>
        ensures { IfOk result (λ v. (d : Effects) → TracksNames d self.now → v.items ≡ watches_at d) }
    {
        watches_of(alloc, &self.order)
    }

    /// Returns the watches of a name, oldest first.
    pub fn watchers(&self, name: &[u8]) -> &[Watch]
        ensures { (d : Effects) → TracksNames d self.now → result.now ≡ watchers_at d name.now }
    {
        self.watches.watchers(name)
    }

    /// Returns whether one more `put` or `watch` allocates nothing.
    pub fn is_ready(&self) -> bool
        ensures { IsTrue result ↔ HasRoom 1 self.now }
    {
        self.services.is_ready()
            && self.watches.list.len() < self.watches.list.capacity()
            && self.order.len() < self.order.capacity()
    }

    /// Puts a service under a name, replacing any earlier one. Allocates nothing.
    pub fn put(&mut self, name: Name, service: Service)
        requires { HasRoom 1 self.old }
        ensures tracks { (d : Effects) → TracksNames d self.old
            → is_live d service.node.owner.0 ≡ true
            → TracksNames (Adds name service ∷ d) self.new }
        ensures left { (n : ℕ) → HasRoom (n + 1) self.old → HasRoom n self.new }
        ensures same { watch_count self.new ≡ watch_count self.old }
    {
        self.services.put(name, service);
    }

    /// As `put`. A name with this `digest` is found fastest; any number gives the same result.
    #[inline(always)]
    pub fn put_by(&mut self, digest: u32, name: Name, service: Service)
        requires { HasRoom 1 self.old }
        ensures tracks { (d : Effects) → TracksNames d self.old
            → is_live d service.node.owner.0 ≡ true
            → TracksNames (Adds name service ∷ d) self.new }
        ensures left { (n : ℕ) → HasRoom (n + 1) self.old → HasRoom n self.new }
        ensures same { watch_count self.new ≡ watch_count self.old }
    {
        self.services.put_by(digest, name, service);
    }

    /// Removes the service of a name, if there is one.
    pub fn remove(&mut self, name: &[u8])
        ensures tracks { (d : Effects) → TracksNames d self.old
            → TracksNames (Removes name.now ∷ d) self.new }
        ensures left { (n : ℕ) → HasRoom n self.old → HasRoom n self.new }
        ensures same { watch_count self.new ≡ watch_count self.old }
    {
        self.services.remove(name);
    }

    /// Appends a watch to those of its name. Allocates nothing.
    pub fn watch(&mut self, watch: WatchPair)
        requires room { HasRoom 1 self.old }
        requires few { watch_count self.old < MOST_WATCHES }
        ensures tracks { (d : Effects) → TracksNames d self.old → is_live d watch.client ≡ true
            → TracksNames (Watches watch ∷ d) self.new }
        ensures left { (n : ℕ) → HasRoom (n + 1) self.old → HasRoom n self.new }
        ensures more { watch_count self.new ≡ watch_count self.old + 1 }
    {
        let (by_name, newest) = watch.apart();
        self.watches.add(by_name);
        append_watch(&mut self.order, newest);
    }

    /// Removes every watch of a name by a client's object, and returns their number.
    pub fn unwatch(&mut self, client: u32, name: &[u8], object: u32) -> u32
        ensures ended { (d : Effects) → TracksNames d self.old
            → result ≡ count_by (same_watch (make_watch client name.now object)) (watches_at d) }
        ensures tracks { (d : Effects) → TracksNames d self.old
            → TracksNames (Unwatches (make_watch client name.now object) ∷ d) self.new }
        ensures left { (n : ℕ) → HasRoom n self.old → HasRoom n self.new }
        ensures fewer { watch_count self.new ≤ watch_count self.old }
    {
        remove_watch(&mut self.order, client, name, object);
        self.watches.remove(client, name, object)
    }

    /// Removes the services of a client's objects, and its watches.
    pub fn remove_client(&mut self, client: u32)
        ensures tracks { (d : Effects) → TracksNames d self.old
            → TracksNames (Dies client ∷ d) self.new }
        ensures left { (n : ℕ) → HasRoom n self.old → HasRoom n self.new }
        ensures fewer { watch_count self.new ≤ watch_count self.old }
    {
        self.services.remove_client(client);
        self.watches.remove_client(client);
        remove_watches(&mut self.order, client);
    }
}
