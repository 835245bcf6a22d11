//! Inputs that are listed: instead of what was there, or after it.
ghost use Rattle.std.specs.Prelude.{◌≡◌, ◌++◌, ◌∷◌, [], OnOk};
ghost use Rattle.wrp_changes.specs.Giving.{IsListed, IsListedAlone, listed};

use std::alloc::AllocError;
use std::mem::swap;
use wrp_course::NodeOut;
use wrp_node::{Input, Outputs};

/// An input of a node.
#[derive(Drop)]
pub struct Gift {
    /// The node that gets it.
    pub node: u8,
    /// The input itself.
    pub input: Input,
}

// Uses an entry again.
fn set(out: &mut NodeOut, gift: Gift)
    ensures { out.new ≡ record out.old { node = gift.node; input = gift.input } }
{
    out.node = gift.node;
    out.input = gift.input;
}

/// Lists an input after the others. `AllocError` if there is not enough memory; then the others are listed as
/// before. An entry is large, so this function builds it in a stack frame of its own, and other events need no
/// room for it.
#[cold]
#[inline(never)]
pub fn add(outs: &mut Vec<NodeOut>, gift: Gift) -> Result<(), AllocError>
    ensures { OnOk result (outs.new.items ≡ outs.old.items ++ (listed gift ∷ [])) }
{
    outs.push(NodeOut {
        node: gift.node,
        input: gift.input,
        outs: Outputs::new(),
    })?;
    Ok(())
}

// Lists one input and nothing else. It uses an entry again if there is one.
fn put_one(outs: &mut Vec<NodeOut>, gift: Gift) -> Result<(), AllocError>
    ensures { OnOk result (IsListedAlone gift outs.new.items) }
{
    outs.truncate(1);
    if outs.is_empty() {
        add(outs, gift)
    } else {
        set(&mut outs[0], gift);
        Ok(())
    }
}

/// If there is no entry, takes the ones that were laid aside.
pub fn take_up(outs: &mut Vec<NodeOut>, aside: &mut Vec<NodeOut>) {
    if outs.is_empty() {
        swap(outs, aside);
    }
}

/// Lays the listed entries aside, so that nothing is listed.
pub fn lay_aside(outs: &mut Vec<NodeOut>, aside: &mut Vec<NodeOut>)
    ensures { outs.new.items ≡ [] }
{
    if !outs.is_empty() {
        swap(outs, aside);
    }
    outs.clear();
}

/// Lists one input, or none, instead of what was there. Entries are large: the ones that are not needed now
/// are laid aside and used again later. `AllocError` if there is not enough memory; then the contents of
/// `outs` are not specified.
pub fn put(
    outs: &mut Vec<NodeOut>,
    aside: &mut Vec<NodeOut>,
    gift: Option<Gift>,
) -> Result<(), AllocError>
    ensures { OnOk result (IsListed gift outs.new.items) }
{
    match gift {
        Some(gift) => {
            take_up(outs, aside);
            put_one(outs, gift)
        }
        None => {
            lay_aside(outs, aside);
            Ok(())
        }
    }
}
