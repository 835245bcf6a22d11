//! Rows as data: one row for each key of a table of a TOML text, with whether it is needed and the
//! sort of its value. The network file has the same kind of rows.
ghost use Rattle.std.specs.Prelude.{◌≡◌, ◌≤◌, length};
ghost use Rattle.wrp_caldb.specs.Key.{required_key, optional_key, number_key, default_key, defaulted_key};

use std::marker::Model;
use wrp_caldb::{Need, Sort};

/// A key of a table; its name has at most 16 octets.
#[derive(Debug, Drop)]
pub struct Row {
    key: &'static str,
    need: Need,
    sort: Sort,
}

impl Model for Row {
    ghost use Rattle.std.specs.Prelude.{◌≤◌, length};
    ghost use Rattle.wrp_caldb.specs.Key.{Key};

    ghost Value = { Key };

    ghost view = { λ r. record { name = r.key.now; need = r.need; sort = r.sort } };

    ghost invariant = { λ r. length r.key.now ≤ 16 };
}

impl Row {
    /// A key that has to be there.
    pub fn required(key: &'static str, sort: Sort) -> Row
        requires { length key.now ≤ 16 }
        ensures { result ≡ required_key key.now sort }
    {
        Row {
            key,
            need: Need::Required,
            sort,
        }
    }

    /// A key that may be missing.
    pub fn optional(key: &'static str, sort: Sort) -> Row
        requires { length key.now ≤ 16 }
        ensures { result ≡ optional_key key.now sort }
    {
        Row {
            key,
            need: Need::Optional,
            sort,
        }
    }

    /// A key of a whole number from `least` to `greatest` that has to be there.
    pub fn number(key: &'static str, least: i64, greatest: i64) -> Row
        requires { length key.now ≤ 16 }
        ensures { result ≡ number_key key.now least greatest }
    {
        Row::required(key, Sort::Number { least, greatest })
    }

    /// A key of a whole number from `least` to `greatest`, and the value used if it is missing.
    pub fn with_default(key: &'static str, least: i64, greatest: i64, default: i64) -> Row
        requires { length key.now ≤ 16 }
        ensures { result ≡ default_key key.now least greatest default }
    {
        Row {
            key,
            need: Need::Default(default),
            sort: Sort::Number { least, greatest },
        }
    }

    /// A key with the value used if it is missing.
    pub fn defaulted(key: &'static str, sort: Sort, default: i64) -> Row
        requires { length key.now ≤ 16 }
        ensures { result ≡ defaulted_key key.now sort default }
    {
        Row {
            key,
            need: Need::Default(default),
            sort,
        }
    }

    /// The key's name: at most 16 octets.
    pub fn key(&self) -> &'static str
        ensures value { result.now ≡ self.now.name }
        ensures short { length result.now ≤ 16 }
    {
        self.key
    }

    /// The value used for the key if it is missing.
    pub fn need(&self) -> Need
        ensures { result ≡ self.now.need }
    {
        self.need
    }

    /// The sort of its value.
    pub fn sort(&self) -> Sort
        ensures { result ≡ self.now.sort }
    {
        self.sort
    }
}
