//! A token with the connections that it stands for.

ghost use Rattle.std.specs.Prelude.{◌≡◌, IfSome, All};
ghost use Rattle.sm_account.specs.Served.{IsPartOf, account};

use crate::chronicle::Chronicle;
use crate::holds::Holds;
use crate::page::Page;
use sm_values::drop_fields;
use std::marker::Model;

/// A token with a chronicle. Each connection of the chronicle was answered from beginnings of the history that the token
/// has seen.
pub struct Account<T: Holds, K: Chronicle> {
    pub(crate) token: T,
    pub(crate) chronicle: K,
}

impl<T: Holds + Drop, K: Chronicle + Drop> Drop for Account<T, K> {
    fn drop(self) {
        drop_fields!(self: token, chronicle);
    }
}

impl<T: Holds, K: Chronicle> Model for Account<T, K> {
    ghost use Rattle.std.specs.Prelude.{IfSome, All};
    ghost use Rattle.sm_account.specs.Served.{Accounted, IsPartOf, account};

    ghost Value = { Accounted };

    ghost view = { λ a. account (T.knows a.token) (K.told a.chronicle) };

    ghost invariant = { λ a. IfSome (K.told a.chronicle) (All (IsPartOf (T.knows a.token).seen)) };
}

impl<T: Holds, K: Chronicle> Account<T, K> {
    /// Makes the account of a token that has seen what the connections of this chronicle were answered from.
    pub fn new(token: T, chronicle: K) -> Account<T, K>
        requires { IfSome (K.told chronicle) (All (IsPartOf (T.knows token).seen)) }
        ensures { result ≡ account (T.knows token) (K.told chronicle) }
    {
        Account { token, chronicle }
    }

    /// Returns the token and the chronicle.
    pub(crate) fn into_parts(self) -> (T, K)
        ensures token { T.knows result.0 ≡ self.token }
        ensures told { K.told result.1 ≡ self.told }
        ensures parts { IfSome (K.told result.1) (All (IsPartOf (T.knows result.0).seen)) }
    {
        let Account { token, chronicle } = self;
        (token, chronicle)
    }

    /// Returns the chronicle alone.
    pub fn into_chronicle(self) -> K
    where
        T: Drop,
        ensures { K.told result ≡ self.told }
    {
        let Account {
            token: _,
            chronicle,
        } = self;
        chronicle
    }

    /// Returns a page of the chronicle.
    pub fn page(&self) -> Page {
        self.chronicle.page()
    }

    /// Keeps what was read and what was written in a connection that has ended. The account stays as it is.
    pub fn keep(&mut self, read: Page, written: Page)
        ensures { self.new ≡ self.old }
    {
        self.chronicle.keep(read, written);
    }

    /// Counts connections that were turned away. The account stays as it is.
    pub fn turn_away(&mut self, number: u64)
        ensures { self.new ≡ self.old }
    {
        self.chronicle.turn_away(number);
    }
}
