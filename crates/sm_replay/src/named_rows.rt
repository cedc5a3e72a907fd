//! Rows of names with their services.

ghost use Rattle.std.specs.Prelude.{◌≡◌, ◌∷◌, true, ℕ, length, OnOk, MatchResult};
ghost use Rattle.std.specs.List.Sorted.{IsSearchInRange};
ghost use Rattle.sm_history.specs.declared.effect.Effect.TheVariants.{Adds, Dies, Removes};
ghost use Rattle.sm_history.specs.Effects.{Effects};
ghost use Rattle.sm_history.specs.Clients.{is_live};
ghost use Rattle.sm_history.specs.Services.{service_at};
ghost use Rattle.sm_history.specs.Rising.{IsRising};
ghost use Rattle.sm_history.specs.Tables.{names_of, IsNamePlace, IsNameGap, TracksNames};

use sm_history::{NamedRow, Service};
use sm_values::Name;
use std::alloc::AllocError;

/// Returns the index of a name's row, or the index at which it would be inserted.
fn place_of_name(rows: &[NamedRow], name: &[u8]) -> Result<usize, usize>
    ensures within { IsSearchInRange result (length rows.now) }
    ensures place { IsRising (names_of rows.now)
        → MatchResult result (IsNamePlace rows.now name.now) (IsNameGap rows.now name.now) }
{
    rows.binary_search_by(|row| row.name.bytes().cmp(name))
}

/// Returns the service of a name.
pub fn service_in(rows: &[NamedRow], name: &[u8]) -> Option<Service>
    ensures { (d : Effects) → TracksNames d rows.now → result ≡ service_at d name.now }
{
    match place_of_name(rows, name) {
        Ok(i) => Some(rows[i].service),
        Err(_) => None,
    }
}

/// Sets the service of a name, replacing any earlier one. Returns an error if an allocation fails.
pub fn put_name(rows: &mut Vec<NamedRow>, name: Name, service: Service) -> Result<(), AllocError>
    ensures { OnOk result ((d : Effects) → TracksNames d rows.old.items
        → is_live d service.node.owner.0 ≡ true → TracksNames (Adds name service ∷ d) rows.new.items) }
{
    match place_of_name(rows, name.bytes()) {
        Ok(i) => {
            rows[i].service = service;
            Ok(())
        }
        Err(i) => {
            rows.insert(i, NamedRow { name, service })?;
            Ok(())
        }
    }
}

/// Removes the service of a name, if there is one.
pub fn remove_name(rows: &mut Vec<NamedRow>, name: &[u8])
    ensures { (d : Effects) → TracksNames d rows.old.items → TracksNames (Removes name.now ∷ d) rows.new.items }
{
    if let Ok(i) = place_of_name(rows, name) {
        let _ = rows.remove(i);
    }
}

/// Removes the services of a client's objects.
pub fn remove_names(rows: &mut Vec<NamedRow>, client: u32)
    ensures { (d : Effects) → TracksNames d rows.old.items → TracksNames (Dies client ∷ d) rows.new.items }
{
    rows.retain(|row| client != row.service.node.owner.0);
}
