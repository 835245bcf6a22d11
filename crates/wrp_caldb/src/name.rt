//! Names of nodes, links, modules and fibres.
ghost use Rattle.std.specs.Prelude.{◌≡◌, ◌&&◌, Some, length, nat_le};
ghost use Rattle.std.specs.List.{list_all};
ghost use Rattle.wrp_caldb.specs.Database.{name_or_none};
ghost use Rattle.wrp_caldb.specs.Name.{is_name_octet, is_name, is_module_name, is_hex_digit, is_identity};

use wrp_network::Name;

// A letter, a digit or `_`.
fn is_name_octet(octet: u8) -> bool
    ensures { result ≡ is_name_octet octet }
{
    matches!(octet, b'a'..=b'z' | b'0'..=b'9' | b'_')
}

fn are_name_octets(octets: &[u8]) -> bool
    ensures { result ≡ list_all is_name_octet octets.now }
{
    octets.iter().all(|octet| is_name_octet(*octet))
}

// Whether these octets may follow a name's first letter.
fn ends_name(rest: &[u8]) -> bool
    ensures { result ≡ (list_all is_name_octet rest.now && nat_le (length rest.now) 15) }
{
    are_name_octets(rest) && rest.len() <= 15
}

/// Whether a text is a name: a letter `a` to `z`, then letters `a` to `z`, digits and `_`; at most
/// 16 octets.
pub fn is_name(text: &str) -> bool
    ensures { result ≡ is_name text.now }
{
    match text.as_bytes() {
        [first, rest @ ..] => first.is_ascii_lowercase() && ends_name(rest),
        [] => false,
    }
}

/// A text as a name; an empty name if it is none.
pub fn name_of(text: &str) -> Name
    ensures { result.bytes ≡ name_or_none (Some text.now) }
{
    let mut name = Name::new();
    if is_name(text) {
        name.push_str(text);
    }
    name
}

/// Whether a module may have this name: any but `unlisted`, which means a module without an entry.
pub fn is_module_name(text: &str) -> bool
    ensures { result ≡ is_module_name text.now }
{
    is_name(text) && text != "unlisted"
}

fn is_hex_digit(octet: u8) -> bool
    ensures { result ≡ is_hex_digit octet }
{
    matches!(octet, b'0'..=b'9' | b'a'..=b'f')
}

fn are_hex_digits(octets: &[u8]) -> bool
    ensures { result ≡ list_all is_hex_digit octets.now }
{
    octets.iter().all(|octet| is_hex_digit(*octet))
}

/// Whether a text is a clockIdentity: 16 hex digits in lower case.
pub fn is_identity(text: &str) -> bool
    ensures { result ≡ is_identity text.now }
{
    are_hex_digits(text.as_bytes()) && text.len() == 16
}
