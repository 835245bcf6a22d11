//! Where a line ends.
ghost use Rattle.std.specs.Prelude.{◌≡◌, ◌≤◌, ◌==◌, ◌++◌, length, take, MatchOption, IfOk, OnErr};
ghost use Rattle.std.specs.List.{position};
ghost use Rattle.wrp_records.specs.Lines.{line_feed, HasNoFeed, IsWhole};

use memchr::memchr;
use std::alloc::AllocError;

/// The place of the first LF. None if and only if there is none.
#[tactic(auto, using(crate::proofs::FirstFeed::first_is))]
pub fn first_feed(octets: &[u8]) -> Option<usize>
    ensures { result ≡ position (λ octet. octet == line_feed) octets.now }
{
    memchr(b'\n', octets)
}

/// The number of octets up to and including the first LF, or None if there is no LF.
pub fn first_whole(octets: &[u8]) -> Option<usize>
    ensures { MatchOption result
        (HasNoFeed octets.now)
        (λ size. (size ≤ length octets.now) × IsWhole (take size octets.now)) }
{
    match first_feed(octets) {
        Some(at) => Some(at + 1),
        None => None,
    }
}

/// Appends the octets up to and including the first LF, and answers their number. If there is no
/// LF, it appends all octets and answers None. `AllocError` if memory runs out: the line is as
/// before.
pub fn append_front(line: &mut Vec<u8>, octets: &[u8]) -> Result<Option<usize>, AllocError>
    requires { HasNoFeed line.old.items }
    ensures all { IfOk result (λ given. MatchOption given
        (HasNoFeed line.new.items × (line.new.items ≡ line.old.items ++ octets.now))
        (λ size. (size ≤ length octets.now) × IsWhole line.new.items
        × (line.new.items ≡ line.old.items ++ take size octets.now))) }
    ensures err { OnErr result (line.new.items ≡ line.old.items) }
{
    match first_whole(octets) {
        Some(size) => {
            line.extend_from_slice(&octets[..size])?;
            Ok(Some(size))
        }
        None => {
            line.extend_from_slice(octets)?;
            Ok(None)
        }
    }
}
