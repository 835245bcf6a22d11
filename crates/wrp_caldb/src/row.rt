//! What a key of a table of a TOML text may hold: the sort of its value, the value used if it is
//! missing, and the codes of what is wrong with it.
ghost use Rattle.std.specs.Prelude.{◌≡◌};
ghost use Rattle.wrp_caldb.specs.Refusal.{number_of};

/// A linear delay law: the way down takes `(2^39 + kappa) / 2^40` of both ways.
#[derive(Clone, Copy, Debug, PartialEq, Eq)]
pub struct Linear {
    /// The asymmetry, from `-2^38` to `2^38`.
    pub kappa: i64,
    /// How far a stored point may be from the law, in tau: 0 to `10^9`.
    pub err: u64,
}

/// The sort of a key's value.
#[derive(Clone, Copy, Debug, PartialEq, Eq)]
pub enum Sort {
    /// A whole number from `least` to `greatest`.
    Number {
        least: i64,
        greatest: i64,
    },
    /// One of two whole numbers.
    OneOf {
        first: i64,
        second: i64,
    },
    /// A clockIdentity: 16 hex digits in lower case.
    Identity,
    /// A wavelength in nm: 0 for any, or 800 to 1700.
    Wavelength,
    /// A wavelength that is 0 if and only if the first one of its pair is.
    SecondWavelength {
        first: Option<i64>,
    },
    /// An array of 2 to 32 points, each an array of a two-way delay x and a one-way delay y, in tau: x
    /// from `-2^30` to `2^53` and rising, y from `-2^53` to `2^53` and not falling, each within the
    /// law's `err` of the law if there is one.
    Points {
        law: Option<Linear>,
    },
    /// `true` or `false`.
    Flag,
    /// Any text.
    Text,
    /// A name: a letter `a` to `z`, then letters, digits and `_`, at most 16 octets.
    Name,
    /// A name other than `unlisted`.
    ModuleName,
    /// A table.
    Table,
    /// An array of only tables, at least `least` and at most `greatest` of them.
    Tables {
        least: usize,
        greatest: Option<usize>,
    },
}

/// The value used for a key that is missing.
#[derive(Clone, Copy, Debug, PartialEq, Eq)]
pub enum Need {
    /// Nothing: the key has to be there.
    Required,
    /// Nothing, and the key may be missing.
    Optional,
    /// This number.
    Default(i64),
}

/// Why a table is refused, by the number that a refusal's line has.
#[derive(Clone, Copy, Debug, PartialEq, Eq)]
pub enum Code {
    /// A table has a key that is not listed.
    UnknownKey = 2,
    /// A required key is missing.
    Missing = 3,
    /// A value is of the wrong sort, or out of its range.
    Range = 4,
    /// A value repeats one that may occur only once.
    Twice = 5,
}

impl Code {
    /// The code's number.
    pub fn number(self) -> u8
        ensures { result ≡ number_of self }
    {
        self as u8
    }
}
