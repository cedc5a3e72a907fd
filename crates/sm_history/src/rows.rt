//! What changes left, as plain rows.

use sm_values::drop_fields;
use std::marker::Model;

/// Everything that a verdict reads of the changes so far: the manager and the policy in force, once it was opened, each
/// live client with its handles and deliveries, names, watches, turns, and the number of changes. A segment begins with
/// these; contracts see them as the rows that a history leaves.
pub struct Rows {
    tables: Tables,
    turns: Vec<TurnRow>,
    length: u64,
}

impl Drop for Rows {
    fn drop(self) {
        drop_fields!(self: tables, turns, length);
    }
}

impl Model for Rows {
    ghost use Rattle.sm_history.specs.Openings.{Opening};
    ghost use Rattle.sm_history.specs.Tables.{tables_of, AreLeft};

    ghost Value = { Opening };

    ghost view = { λ r. record { tables = tables_of r.tables; length = r.length; turns = r.turns.items } };

    ghost invariant = { λ r. AreLeft r.tables };
}

ghost use Rattle.std.specs.Prelude.{◌≡◌, map};
ghost use Rattle.std.specs.List.{flat_map};
ghost use Rattle.sm_history.specs.Openings.{blank_opening};
ghost use Rattle.sm_history.specs.Tables.{held_of, live_of, manager_of, policy_of, tables_of, waiting_of, AreLeft};

use crate::client_row::ClientRow;
use crate::effect::Watch;
use crate::named_row::NamedRow;
use crate::tables::Tables;
use crate::turn::TurnRow;
use sm_policy::Prepared;
use sm_values::Identity;
use std::alloc::Global;

/// Returns empty tables.
fn no_tables(alloc: Global) -> Tables
    ensures left { AreLeft result }
    ensures nothing { tables_of result ≡ blank_opening.tables }
{
    Tables {
        alloc,
        manager: None,
        policy: None,
        version: 0,
        clients: 0,
        live: Vec::new(alloc),
        names: Vec::new(alloc),
        watches: Vec::new(alloc),
    }
}

impl Rows {
    /// Returns the rows before the first change.
    pub fn nothing(alloc: Global) -> Rows
        ensures { result ≡ blank_opening }
    {
        Rows {
            tables: no_tables(alloc),
            turns: Vec::new(alloc),
            length: 0,
        }
    }

    /// Makes rows from tables that some changes left, the number of changes of each actor, and the number of all
    /// changes.
    pub fn new(tables: Tables, turns: Vec<TurnRow>, length: u64) -> Rows
        requires { AreLeft tables }
        ensures { result ≡ record { tables = tables_of tables; length = length; turns = turns.items } }
    {
        Rows {
            tables,
            turns,
            length,
        }
    }

    /// Returns the tables that the changes left.
    pub fn tables(&self) -> &Tables
        ensures left { AreLeft result.now }
        ensures same { tables_of result.now ≡ self.now.tables }
    {
        &self.tables
    }

    /// Returns the manager's process, once it was opened.
    pub fn manager(&self) -> &Option<Identity>
        ensures { manager_of result.now ≡ self.now.tables.manager }
    {
        &self.tables.manager
    }

    /// Returns the policy in force, once the manager was opened.
    pub fn policy(&self) -> &Option<Prepared>
        ensures { policy_of result.now ≡ self.now.tables.policy }
    {
        &self.tables.policy
    }

    /// Returns the number of policies that were set.
    pub fn version(&self) -> u64
        ensures { result ≡ self.now.tables.version }
    {
        self.tables.version
    }

    /// Returns the number of clients that ever connected.
    pub fn clients(&self) -> u64
        ensures { result ≡ self.now.tables.clients }
    {
        self.tables.clients
    }

    /// Returns the live clients, oldest first, with the handles and deliveries of each.
    pub fn live(&self) -> &[ClientRow]
        ensures live { map live_of result.now ≡ self.now.tables.live }
        ensures held { flat_map held_of result.now ≡ self.now.tables.held }
        ensures waiting { flat_map waiting_of result.now ≡ self.now.tables.waiting }
    {
        self.tables.live.as_slice()
    }

    /// Returns the names that have a service, in rising byte order.
    pub fn names(&self) -> &[NamedRow]
        ensures { result.now ≡ self.now.tables.names }
    {
        self.tables.names.as_slice()
    }

    /// Returns the watches, oldest first.
    pub fn watches(&self) -> &[Watch]
        ensures { result.now ≡ self.now.tables.watches }
    {
        self.tables.watches.as_slice()
    }

    /// Returns the number of changes of each actor that may still make some: the manager, the live clients, and the
    /// administrators in the order of their first change.
    pub fn turns(&self) -> &[TurnRow]
        ensures { result.now ≡ self.now.turns }
    {
        self.turns.as_slice()
    }

    /// Returns the length of the history that left them: the number of its changes.
    pub fn history_length(&self) -> u64
        ensures { result ≡ self.now.length }
    {
        self.length
    }
}
