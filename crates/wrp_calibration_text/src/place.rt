//! Places of a text, and how a refusal's line writes them.
ghost use Rattle.std.specs.Prelude.{◌≡◌, ◌≤◌, ◌++◌, ◌+◌, length, IfOk, OnOk, None, Some, decimal};
ghost use Rattle.arrayvec.specs.ArrayString.{array_string_len};
ghost use Rattle.wrp_caldb.specs.Place.{table_text, place_text};
ghost use Rattle.wrp_caldb.specs.declared.place.At.TheVariants as tables;

use arrayvec::ArrayString;
use std::alloc::{AllocError, Global};
use std::marker::Model;
use wrp_caldb::At;

/// A place of a text: a table, or a key of it.
#[derive(Debug, Drop)]
pub struct Place {
    at: At,
    key: Option<&'static str>,
}

impl Model for Place {
    ghost use Rattle.std.specs.Prelude.{◌≤◌, length, option_map};
    ghost use Rattle.std.specs.Option.{ForSome};
    ghost use Rattle.wrp_caldb.specs.Place.{PlaceAt};

    ghost Value = { PlaceAt };

    ghost view = { λ p. record { at = p.at; key = option_map (λ k. k.now) p.key } };

    ghost invariant = { λ p. ForSome p.key (λ k. length k.now ≤ 16) };
}

impl Place {
    /// A table as a whole.
    pub fn of_table(at: At) -> Place
        ensures { result ≡ record { at = at; key = None } }
    {
        Place { at, key: None }
    }

    /// A key of a table; its name has at most 16 octets.
    pub fn of_key(at: At, key: &'static str) -> Place
        requires { length key.now ≤ 16 }
        ensures { result ≡ record { at = at; key = Some key.now } }
    {
        Place { at, key: Some(key) }
    }

    /// The place as a refusal's line writes it: `module.2` for a table, `module.2.tx` for a key,
    /// `module.2.pair.1.tx_nm` for a key of a pair, and the name alone for a key of the top. Returns
    /// an error if there is no memory for the digits of a number; the place stays as it is.
    pub fn text(&self, alloc: Global) -> Result<ArrayString<96>, AllocError>
        ensures { IfOk result (λ text. text.bytes ≡ place_text self.now) }
    {
        match (self.at, self.key) {
            (at, None) => table_text(alloc, at),
            (At::Top, Some(key)) => Ok(short_text(key)),
            (at, Some(key)) => {
                let mut text = table_text(alloc, at)?;
                text.push_str(".");
                text.push_str(key);
                Ok(text)
            }
        }
    }
}

// A text of at most 16 octets.
fn short_text(text: &str) -> ArrayString<96>
    requires { length text.now ≤ 16 }
    ensures value { result.bytes ≡ text.now }
    ensures short { array_string_len result ≤ 16 }
{
    let mut copy = ArrayString::new();
    copy.push_str(text);
    copy
}

// Appends a number in decimal.
fn push_number(alloc: Global, text: &mut ArrayString<96>, number: usize) -> Result<(), AllocError>
    requires { array_string_len text.old ≤ 64 }
    ensures ok { OnOk result (text.new.bytes ≡ text.old.bytes ++ decimal number) }
    ensures short { array_string_len text.new ≤ array_string_len text.old + 20 }
{
    let digits = format!(in alloc; "{number}")?;
    text.push_str(digits.as_str());
    Ok(())
}

// A table of an array, by the array's key with a point after it, and its number.
fn numbered(alloc: Global, kind: &str, number: usize) -> Result<ArrayString<96>, AllocError>
    requires { length kind.now ≤ 16 }
    ensures value { IfOk result (λ text. text.bytes ≡ kind.now ++ decimal number) }
    ensures short { IfOk result (λ text. array_string_len text ≤ 36) }
{
    let mut text = short_text(kind);
    push_number(alloc, &mut text, number)?;
    Ok(text)
}

// A pair of a module.
fn pair_text(alloc: Global, owner: usize, pair: usize) -> Result<ArrayString<96>, AllocError>
    ensures value { IfOk result (λ text. text.bytes ≡ table_text (tables.Pair owner pair)) }
    ensures short { IfOk result (λ text. array_string_len text ≤ 62) }
{
    let mut text = numbered(alloc, "module.", owner)?;
    text.push_str(".pair.");
    push_number(alloc, &mut text, pair)?;
    Ok(text)
}

// A table.
fn table_text(alloc: Global, at: At) -> Result<ArrayString<96>, AllocError>
    ensures value { IfOk result (λ text. text.bytes ≡ table_text at) }
    ensures short { IfOk result (λ text. array_string_len text ≤ 62) }
{
    match at {
        At::Top => Ok(short_text("top")),
        At::Network => Ok(short_text("network")),
        At::Node(number) => numbered(alloc, "node.", number),
        At::Link(number) => numbered(alloc, "link.", number),
        At::Module(number) => numbered(alloc, "module.", number),
        At::Pair(owner, pair) => pair_text(alloc, owner, pair),
        At::Fibre(number) => numbered(alloc, "fibre.", number),
    }
}
