//! How a refusal's line writes the inequality that a network breaks, and the node that is no part of
//! a tree.
ghost use Rattle.std.specs.Prelude.{◌≡◌, ◌≤◌, ◌+◌, ◌++◌, IfOk, OnOk, codes, decimal, length};
ghost use Rattle.std.specs.Fmt.{signed_decimal};
ghost use Rattle.arrayvec.specs.ArrayString.{array_string_len};
ghost use Rattle.wrp_network_text.specs.Reading.{clash_text, IsClashFault, IsNodeFault};

use crate::tree::TreeFault;
use arrayvec::ArrayString;
use std::alloc::{AllocError, Global};
use wrp_base::{ConfFault, Tau};
use wrp_bounds::Clash;

// `:` and a number.
fn push_side(alloc: Global, text: &mut ArrayString<96>, side: Tau) -> Result<(), AllocError>
    requires { array_string_len text.old ≤ 50 }
    ensures ok { OnOk result (text.new.bytes ≡ text.old.bytes ++ codes ":" ++ signed_decimal side) }
    ensures short { array_string_len text.new ≤ array_string_len text.old + 41 }
{
    let digits = format!(in alloc; "{side}")?;
    text.push_str(":");
    text.push_str(digits.as_str());
    Ok(())
}

// An inequality with both its sides, as `c3:LEFT:RIGHT`.
fn clash_text(alloc: Global, clash: &Clash) -> Result<ArrayString<96>, AllocError>
    ensures { IfOk result (λ text. text.bytes ≡ clash_text clash.now) }
{
    let number = clash.number;
    let digits = format!(in alloc; "c{number}")?;
    let mut text = ArrayString::new();
    text.push_str(digits.as_str());
    push_side(alloc, &mut text, clash.left)?;
    push_side(alloc, &mut text, clash.right)?;
    Ok(text)
}

/// Code 10: the inequality that a network breaks.
pub fn clash_fault(alloc: Global, clash: &Clash) -> ConfFault
    ensures { IsClashFault clash.now result }
{
    match clash_text(alloc, clash) {
        Ok(place) => ConfFault::Fault { code: 10, place },
        Err(error) => ConfFault::Memory(error),
    }
}

// A node by its place from 0, which the text counts from 1.
fn node_text(alloc: Global, n: u8) -> Result<ArrayString<96>, AllocError>
    ensures { IfOk result (λ text. text.bytes ≡ codes "node." ++ decimal (n + 1)) }
{
    let number = u16::from(n) + 1;
    let digits = format!(in alloc; "node.{number}")?;
    let mut text = ArrayString::new();
    text.push_str(digits.as_str());
    Ok(text)
}

/// Codes 7 to 9: a node that is no part of a tree.
pub fn node_fault(alloc: Global, fault: TreeFault, n: u8) -> ConfFault
    ensures { IsNodeFault fault n result }
{
    match node_text(alloc, n) {
        Ok(place) => ConfFault::Fault {
            code: fault.number(),
            place,
        },
        Err(error) => ConfFault::Memory(error),
    }
}
