//! The table of types, and the types that a set denotes.

ghost use Rattle.std.specs.Prelude.{◌≡◌, ◌||◌, ◌&&◌, ◌<◌, ◌≤◌, ◌+◌, ◌/◌, ℕ, List, length, IfOk, IfErr, IfSome, IsTrue};
ghost use Rattle.std.specs.Prelude.{not, nat_eq, nat_lt, false, true};
ghost use Rattle.std.specs.List.{list_any};
ghost use Rattle.std.specs.Str.{bytes_eq};
ghost use Rattle.sm_bits.specs.Bits.{has, row};
ghost use Rattle.sm_values.specs.Reading.{Fails};
ghost use Rattle.sm_ruletext.specs.declared.statement.Statement.{Statement as TheStatement};
ghost use Rattle.sm_types.specs.Names.{at};
ghost use Rattle.sm_types.specs.Declaring.{is_memory, symbols_of, is_declared, all_declared, UnlessMemory};
ghost use Rattle.sm_types.specs.Denoting.{is_named, has_attribute, chosen, in_set, IsWord};
ghost use Rattle.sm_types.specs.Members.{Fits, HasAll, IsOf};
ghost use Rattle.sm_types.specs.declared.TheConstants.{MOST_TYPES};
ghost use Rattle.sm_types.specs.declared.fault.TypesFault.TheVariants.{Unknown};

use crate::TypesFault;
use crate::members::members_of;
use crate::symbols::{Symbols, symbols_of};
use sm_bits::BitRow;
use sm_ruletext::{Set, Statement};
use sm_values::{Names, drop_fields};
use std::alloc::{AllocError, Global};

/// The types of a policy source, and for each attribute the row of its members.
pub struct Table {
    pub symbols: Symbols,
    pub members: Vec<BitRow>,
    /// The row of all types.
    pub all: BitRow,
}

impl Drop for Table {
    fn drop(self) {
        drop_fields!(self: symbols, members, all);
    }
}

/// Reads the table of a policy source, or returns the first refusal.
pub fn table_of(alloc: Global, statements: &[Statement]) -> Result<Table, TypesFault>
    ensures refused { IfErr result (λ e. Fails is_memory e (symbols_of statements.now)) }
    ensures built { IfOk result (λ t. IsOf statements.now t) }
    ensures few { IfOk result (λ t. length t.symbols.types ≤ MOST_TYPES) }
    ensures all { IfOk result (λ t. HasAll t.symbols t.all) }
{
    let symbols = symbols_of(alloc, statements)?;
    let members = members_of(alloc, &symbols, statements)?;
    let all = all_types(alloc, &symbols)?;
    Ok(Table {
        symbols,
        members,
        all,
    })
}

/// Adds the type of that name. Returns `false` if there is none.
fn add_type(table: &Table, set: &mut BitRow, word: &[u8]) -> bool
    requires { length set.old ≡ length table.now.symbols.types / 64 + 1 }
    ensures room { length set.new ≡ length set.old }
    ensures known { result ≡ list_any (bytes_eq word.now) table.now.symbols.types }
    ensures added { (i : ℕ) → i < length table.now.symbols.types
        → has set.new i ≡ (has set.old i || bytes_eq word.now (at table.now.symbols.types i)) }
    ensures past { (i : ℕ) → length table.now.symbols.types ≤ i → has set.new i ≡ has set.old i }
{
    match table.symbols.types.index(word) {
        Some(t) => {
            set.insert(t);
            true
        }
        None => false,
    }
}

/// Adds the types that have the attribute of that name. Returns `false` if there is no such attribute.
fn add_members(table: &Table, set: &mut BitRow, word: &[u8]) -> bool
    requires fits { Fits table.now.members.items table.now.symbols }
    requires room { length set.old ≡ length table.now.symbols.types / 64 + 1 }
    ensures room { length set.new ≡ length set.old }
    ensures known { result ≡ list_any (bytes_eq word.now) table.now.symbols.attributes }
    ensures added { (policy : List TheStatement) → IsOf policy table.now → (i : ℕ)
        → i < length table.now.symbols.types
        → has set.new i ≡ (has set.old i
        || has_attribute policy (at table.now.symbols.types i) word.now) }
    ensures past { (i : ℕ) → length table.now.symbols.types ≤ i → has set.new i ≡ has set.old i }
{
    match table.symbols.attributes.index(word) {
        Some(a) => {
            set.union_with(&table.members[a]);
            true
        }
        None => false,
    }
}

fn named_type(table: &Table, word: &[u8]) -> Option<usize>
    ensures inside { IfSome result (λ t. t < length table.now.symbols.types) }
    ensures named { IfSome result (λ t. (policy : List TheStatement) → IsOf policy table.now → (i : ℕ)
        → i < length table.now.symbols.types
        → is_named policy (at table.now.symbols.types i) word.now ≡ nat_eq i t) }
    ensures known { IfSome result (λ t. is_declared table.now.symbols word.now ≡ true) }
{
    let t = table.symbols.types.index(word)?;
    Some(t)
}

fn named_attribute(table: &Table, word: &[u8]) -> Option<usize>
    ensures inside { IfSome result (λ a. a < length table.now.symbols.attributes) }
    ensures named { IfSome result (λ a. (policy : List TheStatement) → IsOf policy table.now → (i : ℕ)
        → i < length table.now.symbols.types
        → is_named policy (at table.now.symbols.types i) word.now ≡ has (row table.now.members.items a) i) }
    ensures known { IfSome result (λ a. is_declared table.now.symbols word.now ≡ true) }
{
    let a = table.symbols.attributes.index(word)?;
    Some(a)
}

/// Adds the types that a word names. Returns `false` if the word isn't declared.
fn add_named(table: &Table, set: &mut BitRow, word: &[u8]) -> bool
    requires fits { Fits table.now.members.items table.now.symbols }
    requires room { length set.old ≡ length table.now.symbols.types / 64 + 1 }
    ensures room { length set.new ≡ length set.old }
    ensures known { result ≡ is_declared table.now.symbols word.now }
    ensures added { (policy : List TheStatement) → IsOf policy table.now → (i : ℕ)
        → i < length table.now.symbols.types
        → has set.new i ≡ (has set.old i
        || is_named policy (at table.now.symbols.types i) word.now) }
    ensures past { (i : ℕ) → length table.now.symbols.types ≤ i → has set.new i ≡ has set.old i }
{
    add_type(table, set, word) || add_members(table, set, word)
}

/// Adds the types that words name. Returns `false` if some word isn't declared.
fn add_all(table: &Table, set: &mut BitRow, words: &Names) -> bool
    requires fits { Fits table.now.members.items table.now.symbols }
    requires room { length set.old ≡ length table.now.symbols.types / 64 + 1 }
    ensures room { length set.new ≡ length set.old }
    ensures known { result ≡ all_declared table.now.symbols words.now }
    ensures added { IsTrue result → (policy : List TheStatement) → IsOf policy table.now → (i : ℕ)
        → i < length table.now.symbols.types
        → has set.new i ≡ (has set.old i
        || list_any (is_named policy (at table.now.symbols.types i)) words.now) }
    ensures past { (i : ℕ) → length table.now.symbols.types ≤ i → has set.new i ≡ has set.old i }
{
    for word in words.list() {
        if !add_named(table, set, word.bytes()) {
            return false;
        }
    }
    true
}

fn all_types(alloc: Global, symbols: &Symbols) -> Result<BitRow, AllocError>
    ensures { IfOk result (λ row. HasAll symbols.now row) }
{
    let count = symbols.types.len();
    let mut set = BitRow::empty(alloc, count / 64 + 1)?;
    for t in 0..count {
        set.insert(t);
    }
    Ok(set)
}

/// Makes a row of all types, or of none.
fn all_or_none(alloc: Global, table: &Table, is_all: bool) -> Result<BitRow, AllocError>
    requires { HasAll table.now.symbols table.now.all }
    ensures room { IfOk result (λ row. length row ≡ length table.now.symbols.types / 64 + 1) }
    ensures all { IfOk result (λ row. (i : ℕ) → has row i
        ≡ (is_all && nat_lt i (length table.now.symbols.types))) }
{
    let mut set = BitRow::empty(alloc, table.symbols.types.len() / 64 + 1)?;
    if is_all {
        set.union_with(&table.all);
    }
    Ok(set)
}

/// Removes the types that a word names. Returns `false` if the word isn't declared.
fn remove_named(table: &Table, set: &mut BitRow, word: &[u8]) -> bool
    requires fits { Fits table.now.members.items table.now.symbols }
    requires room { length set.old ≡ length table.now.symbols.types / 64 + 1 }
    ensures room { length set.new ≡ length set.old }
    ensures known { result ≡ is_declared table.now.symbols word.now }
    ensures left { (policy : List TheStatement) → IsOf policy table.now → (i : ℕ)
        → i < length table.now.symbols.types
        → has set.new i ≡ (has set.old i
        && not (is_named policy (at table.now.symbols.types i) word.now)) }
    ensures past { (i : ℕ) → length table.now.symbols.types ≤ i → has set.old i ≡ false
        → has set.new i ≡ false }
{
    if let Some(t) = table.symbols.types.index(word) {
        set.remove(t);
        return true;
    }
    match table.symbols.attributes.index(word) {
        Some(a) => {
            set.subtract(&table.members[a]);
            true
        }
        None => false,
    }
}

/// Removes the types that words name. Returns `false` if some word isn't declared.
fn remove_all(table: &Table, set: &mut BitRow, words: &Names) -> bool
    requires fits { Fits table.now.members.items table.now.symbols }
    requires room { length set.old ≡ length table.now.symbols.types / 64 + 1 }
    ensures room { length set.new ≡ length set.old }
    ensures known { result ≡ all_declared table.now.symbols words.now }
    ensures left { IsTrue result → (policy : List TheStatement) → IsOf policy table.now → (i : ℕ)
        → i < length table.now.symbols.types
        → has set.new i ≡ (has set.old i
        && not (list_any (is_named policy (at table.now.symbols.types i)) words.now)) }
    ensures past { (i : ℕ) → length table.now.symbols.types ≤ i → has set.old i ≡ false
        → has set.new i ≡ false }
{
    for word in words.list() {
        if !remove_named(table, set, word.bytes()) {
            return false;
        }
    }
    true
}

/// Returns the word of a set that is written as one word.
fn only_word(set: &Set) -> Option<&[u8]>
    ensures { IfSome result (λ word. IsWord word.now set.now) }
{
    if set.has_star() || set.is_complement() {
        return None;
    }
    match (set.plus().list(), set.minus().list()) {
        ([name], []) => Some(name.bytes()),
        _ => None,
    }
}

/// Returns the type that a set denotes, if the set is written as the name of one type.
#[tactic(auto, unfolding(crate::specs::Denoting::chosen))]
pub fn only_chosen(table: &Table, set: &Set) -> Option<usize>
    ensures inside { IfSome result (λ t. t < length table.now.symbols.types) }
    ensures denoted { IfSome result (λ t. (policy : List TheStatement) → IsOf policy table.now
        → (i : ℕ) → i < length table.now.symbols.types
        → chosen policy set.now (at table.now.symbols.types i) ≡ nat_eq i t) }
    ensures known { IfSome result (λ t. (all_declared table.now.symbols set.now.plus
        && all_declared table.now.symbols set.now.minus) ≡ true) }
{
    named_type(table, only_word(set)?)
}

/// Returns the attribute that a set denotes, if the set is written as the name of one attribute.
#[tactic(auto, unfolding(crate::specs::Denoting::chosen))]
pub fn only_attribute(table: &Table, set: &Set) -> Option<usize>
    ensures inside { IfSome result (λ a. a < length table.now.symbols.attributes) }
    ensures denoted { IfSome result (λ a. (policy : List TheStatement) → IsOf policy table.now
        → (i : ℕ) → i < length table.now.symbols.types
        → chosen policy set.now (at table.now.symbols.types i) ≡ has (row table.now.members.items a) i) }
    ensures known { IfSome result (λ a. (all_declared table.now.symbols set.now.plus
        && all_declared table.now.symbols set.now.minus) ≡ true) }
{
    named_attribute(table, only_word(set)?)
}

/// Returns the types that the items of a set choose.
#[tactic(auto, unfolding(crate::specs::Denoting::chosen))]
pub fn chosen_types(alloc: Global, table: &Table, set: &Set) -> Result<BitRow, TypesFault>
    requires fits { Fits table.now.members.items table.now.symbols }
    requires all { HasAll table.now.symbols table.now.all }
    ensures room { IfOk result (λ row. length row ≡ length table.now.symbols.types / 64 + 1) }
    ensures denoted { IfOk result (λ row. (policy : List TheStatement) → IsOf policy table.now
        → (i : ℕ) → i < length table.now.symbols.types
        → has row i ≡ chosen policy set.now (at table.now.symbols.types i)) }
    ensures past { IfOk result (λ row. (i : ℕ) → length table.now.symbols.types ≤ i
        → has row i ≡ false) }
    ensures known { IfOk result (λ row. (all_declared table.now.symbols set.now.plus
        && all_declared table.now.symbols set.now.minus) ≡ true) }
    ensures unknown { IfErr result (λ e. UnlessMemory e ((e ≡ Unknown set.now.line)
        × ((all_declared table.now.symbols set.now.plus
        && all_declared table.now.symbols set.now.minus) ≡ false))) }
{
    let mut chosen = all_or_none(alloc, table, set.has_star())?;
    if !add_all(table, &mut chosen, set.plus()) {
        return Err(TypesFault::Unknown(set.line()));
    }
    if !remove_all(table, &mut chosen, set.minus()) {
        return Err(TypesFault::Unknown(set.line()));
    }
    if !set.is_complement() {
        return Ok(chosen);
    }
    let mut others = all_or_none(alloc, table, true)?;
    others.subtract(&chosen);
    Ok(others)
}
