//! Names of modules in event lines, and the parts of a field.
ghost use Rattle.std.specs.Prelude.{◌≡◌, ◌==◌, ◌<◌, IfSome, length, true, Option, Some, None, option_map, if◌then◌else◌};
ghost use Rattle.std.specs.List.{position};
ghost use Rattle.wrp_caldb.specs.Name.{is_name};
ghost use Rattle.wrp_trace.specs.EventFields.{before, behind};

use std::str;
use wrp_caldb::{is_name, name_of};
use wrp_network::Name;

/// The text of a name; None if and only if the octets are no name.
#[tactic(auto, using(crate::proofs::NameLemmas::no_utf8_no_name))]
pub fn name_in(text: &[u8]) -> Option<Name>
    ensures { option_map (λ name. name.bytes) result
        ≡ (if is_name text.now then Some text.now else None) }
{
    match str::from_utf8(text) {
        Ok(text) => valid_name(text),
        Err(_) => None,
    }
}

fn valid_name(text: &str) -> Option<Name>
    ensures { option_map (λ name. name.bytes) result
        ≡ (if is_name text.now then Some text.now else None) }
{
    if is_name(text) {
        Some(name_of(text))
    } else {
        None
    }
}

// The place of the first octet of this value.
fn place_of(text: &[u8], octet: u8) -> Option<usize>
    ensures value { result ≡ position (λ c. c == octet) text.now }
    ensures within { IfSome result (λ i. i < length text.now) }
{
    text.iter().position(|c| *c == octet)
}

/// What comes before the first octet of this value, and what comes after it; all of the text, and
/// nothing, if there is no such octet.
pub fn parts_at(text: &[u8], octet: u8) -> (&[u8], &[u8])
    ensures before { result.0.now ≡ before octet text.now }
    ensures behind { result.1.now ≡ behind octet text.now }
{
    match place_of(text, octet) {
        Some(at) => (&text[..at], &text[at + 1..]),
        None => (text, &[]),
    }
}
