//! The types of a policy source.

ghost use Rattle.std.specs.Prelude.{◌≡◌, ◌<◌, ◌≤◌, ◌+◌, ◌/◌, ℕ, List, length, position, slice_get, option_map, IfOk};
ghost use Rattle.std.specs.Prelude.{IfErr, IfSome, Some, is_some, nat_eq, false, true};
ghost use Rattle.std.specs.Str.{bytes_eq};
ghost use Rattle.sm_bits.specs.Bits.{has, row};
ghost use Rattle.sm_values.specs.Reading.{Fails};
ghost use Rattle.sm_ruletext.specs.declared.statement.Statement.{Statement as TheStatement};
ghost use Rattle.sm_types.specs.Names.{at, is_at};
ghost use Rattle.sm_types.specs.Declaring.{is_memory, symbols_of, UnlessMemory};
ghost use Rattle.sm_types.specs.Denoting.{in_set, declares, all_known};
ghost use Rattle.sm_types.specs.Members.{IsOf};
ghost use Rattle.sm_types.specs.declared.TheConstants.{MOST_TYPES};
ghost use Rattle.sm_types.specs.declared.fault.TypesFault.TheVariants.{Unknown};

use crate::table::{Table, chosen_types, only_attribute, only_chosen, table_of};
use crate::{TypeCount, TypesFault};
use sm_bits::BitRow;
use sm_ruletext::{Set, Statement};
use std::alloc::Global;
use std::marker::Model;

/// The declared types of a policy source, numbered from 0 in the order of their declaration, and the members of its
/// attributes.
///
/// Contracts see it as a table of names and rows; `IsOf` says that the table is that of a source.
pub struct Types {
    table: Table,
}

impl Drop for Types {
    fn drop(self) {
        let Types { table: _ } = self;
    }
}

impl Model for Types {
    ghost use Rattle.sm_types.specs.declared.table.Table.{Table};
    ghost use Rattle.sm_types.specs.Members.{IsSound};

    ghost Value = { Table };

    ghost view = { λ t. t.table };

    ghost invariant = { λ t. IsSound t.table };
}

impl Types {
    /// Builds the types of a policy source.
    ///
    /// # Errors
    ///
    /// First all declarations in the order of the source: `Twice` for a name that is declared again, as a type or an
    /// attribute, and `TooMany` for a type past [`MOST_TYPES`] or an attribute past [`MOST_ATTRIBUTES`]. Then all
    /// memberships in that order: `Unknown` if a `type` statement gives a name that is no attribute, or a
    /// `typeattribute` statement has a name that is no type, or no attribute. `Memory` if an allocation fails.
    pub fn build(alloc: Global, statements: &[Statement]) -> Result<Types, TypesFault>
        ensures refused { IfErr result (λ e. Fails is_memory e (symbols_of statements.now)) }
        ensures built { IfOk result (λ types. IsOf statements.now types) }
    {
        let table = table_of(alloc, statements)?;
        Ok(Types { table })
    }

    /// Returns the number of types, with its bound.
    pub fn type_count(&self) -> TypeCount
        ensures { result ≡ length self.now.symbols.types }
    {
        TypeCount::new(self.table.symbols.types.len())
    }

    /// Returns the number of types.
    pub fn count(&self) -> usize
        ensures count { result ≡ length self.now.symbols.types }
        ensures few { result ≤ MOST_TYPES }
    {
        self.type_count().get()
    }

    /// Returns the number of attributes, at most [`MOST_ATTRIBUTES`](crate::MOST_ATTRIBUTES).
    pub fn attribute_count(&self) -> usize
        ensures { result ≡ length self.now.symbols.attributes }
    {
        self.table.symbols.attributes.len()
    }

    /// Returns the number of a type.
    pub fn index(&self, name: &[u8]) -> Option<u16>
        ensures place { result ≡ position (bytes_eq name.now) self.now.symbols.types }
        ensures named { IfSome result (λ i. slice_get self.now.symbols.types i ≡ Some name.now) }
        ensures declared { (policy : List TheStatement) → IsOf policy self.now
            → is_some result ≡ declares policy name.now }
    {
        match self.table.symbols.types.index(name) {
            Some(i) => Some(i as u16),
            None => None,
        }
    }

    /// Returns the name of a type by its number.
    pub fn name(&self, index: u16) -> Option<&[u8]>
        ensures name { option_map (λ n. n.now) result ≡ slice_get self.now.symbols.types index }
        ensures index { IfSome result (λ n. position (bytes_eq n.now) self.now.symbols.types
            ≡ Some index) }
    {
        let name = self.table.symbols.types.name(usize::from(index))?;
        Some(name)
    }

    /// Returns the name of an attribute by its number.
    pub fn attribute_name(&self, index: usize) -> Option<&[u8]>
        ensures { option_map (λ n. n.now) result ≡ slice_get self.now.symbols.attributes index }
    {
        self.table.symbols.attributes.name(index)
    }

    /// Returns the number of the type that a set denotes, if the set is written as the name of one type. `None` says
    /// nothing of the set: [`expand`](Types::expand) has its types.
    pub fn only(&self, set: &Set) -> Option<u16>
        ensures inside { IfSome result (λ t. t < length self.now.symbols.types) }
        ensures denoted { IfSome result (λ t. (policy : List TheStatement) → IsOf policy self.now
            → (i : ℕ) → i < length self.now.symbols.types
            → in_set policy set.now (at self.now.symbols.types i) ≡ nat_eq i t) }
        ensures known { IfSome result (λ t. (policy : List TheStatement) → IsOf policy self.now
            → all_known policy set.now ≡ true) }
    {
        let t = only_chosen(&self.table, set)?;
        Some(t as u16)
    }

    /// Returns the number of the attribute that a set denotes, if the set is written as the name of one attribute.
    /// `None` says nothing of the set: [`expand`](Types::expand) has its types.
    pub fn only_attribute(&self, set: &Set) -> Option<usize>
        ensures inside { IfSome result (λ a. a < length self.now.symbols.attributes) }
        ensures denoted { IfSome result (λ a. (policy : List TheStatement) → IsOf policy self.now
            → (i : ℕ) → i < length self.now.symbols.types
            → has (row self.now.members.items a) i ≡ in_set policy set.now (at self.now.symbols.types i)) }
        ensures known { IfSome result (λ a. (policy : List TheStatement) → IsOf policy self.now
            → all_known policy set.now ≡ true) }
    {
        let a = only_attribute(&self.table, set)?;
        Some(a)
    }

    /// Returns the types that have an attribute, as bits by their numbers.
    pub fn members(&self, attribute: usize) -> &BitRow
        requires { attribute < length self.now.symbols.attributes }
        ensures row { result.now ≡ row self.now.members.items attribute }
        ensures room { length result.now ≡ length self.now.symbols.types / 64 + 1 }
        ensures past { (i : ℕ) → length self.now.symbols.types ≤ i → has result.now i ≡ false }
    {
        &self.table.members[attribute]
    }

    /// Returns the types that a set denotes, as bits by their numbers.
    ///
    /// # Errors
    ///
    /// `Unknown`, with the set's line, if a name of the set isn't declared, as a type or as an attribute; `Memory` if
    /// an allocation fails.
    pub fn expand(&self, alloc: Global, set: &Set) -> Result<BitRow, TypesFault>
        ensures room { IfOk result (λ row. length row ≡ length self.now.symbols.types / 64 + 1) }
        ensures denoted { IfOk result (λ row. (policy : List TheStatement) → IsOf policy self.now
            → (i : ℕ) → i < length self.now.symbols.types
            → has row i ≡ in_set policy set.now (at self.now.symbols.types i)) }
        ensures past { IfOk result (λ row. (i : ℕ) → length self.now.symbols.types ≤ i
            → has row i ≡ false) }
        ensures known { IfOk result (λ row. (policy : List TheStatement) → IsOf policy self.now
            → all_known policy set.now ≡ true) }
        ensures unknown { IfErr result (λ e. UnlessMemory e ((e ≡ Unknown set.now.line)
            × ((policy : List TheStatement) → IsOf policy self.now
            → all_known policy set.now ≡ false))) }
    {
        let row = chosen_types(alloc, &self.table, set)?;
        Ok(row)
    }
}
