//! A tick or a sample that is listed alone. An entry that is there already is used again, and its input is changed in
//! place. An input takes much room, and most events are of these two kinds.
ghost use Rattle.std.specs.Prelude.{◌≡◌, ◌++◌, ◌∷◌, [], true, OnOk};
ghost use Rattle.wrp_node.specs.declared.interface.Input.TheVariants.{Sample, Tick};
ghost use Rattle.wrp_changes.specs.Giving.{IsListedAlone, listed};

use super::listing::{Gift, add, take_up};
use std::alloc::AllocError;
use wrp_course::NodeOut;
use wrp_node::Input;

// Whether an input is a tick.
fn is_tick(input: &Input) -> bool
    ensures { result ≡ true → input.now ≡ Tick }
{
    match input {
        Input::Tick => true,
        _ => false,
    }
}

// A tick is written in place of the input.
#[inline(never)]
fn write_tick(input: &mut Input)
    ensures { input.new ≡ Tick }
{
    *input = Input::Tick;
}

// The input is a tick. If it is one already, nothing is written.
fn make_tick(input: &mut Input)
    ensures { input.new ≡ Tick }
{
    if !is_tick(input) {
        write_tick(input);
    }
}

// A sample is written in place of the input.
#[inline(never)]
fn write_sample(input: &mut Input, number: u32, base: u16, bits: u64)
    ensures { input.new ≡ Sample number base bits }
{
    *input = Input::Sample {
        n: number,
        base,
        bits,
    };
}

// An entry is used again for a tick.
fn set_tick(out: &mut NodeOut, n: u8)
    ensures { out.new ≡ record out.old { node = n; input = Tick } }
{
    out.node = n;
    make_tick(&mut out.input);
}

// An entry is used again for a sample.
fn set_sample(out: &mut NodeOut, n: u8, number: u32, base: u16, bits: u64)
    ensures { out.new ≡ record out.old { node = n; input = Sample number base bits } }
{
    out.node = n;
    write_sample(&mut out.input, number, base, bits);
}

// The first entry for a tick.
#[cold]
#[inline(never)]
fn add_tick(outs: &mut Vec<NodeOut>, n: u8) -> Result<(), AllocError>
    ensures { OnOk result (outs.new.items ≡ outs.old.items
        ++ (listed (record { node = n; input = Tick }) ∷ [])) }
{
    add(
        outs,
        Gift {
            node: n,
            input: Input::Tick,
        },
    )
}

// The first entry for a sample.
#[cold]
#[inline(never)]
fn add_sample(
    outs: &mut Vec<NodeOut>,
    n: u8,
    number: u32,
    base: u16,
    bits: u64,
) -> Result<(), AllocError>
    ensures { OnOk result (outs.new.items ≡ outs.old.items
        ++ (listed (record { node = n; input = Sample number base bits }) ∷ [])) }
{
    add(
        outs,
        Gift {
            node: n,
            input: Input::Sample {
                n: number,
                base,
                bits,
            },
        },
    )
}

/// A tick is listed alone. `AllocError` if there is not enough memory for an entry; then nothing is listed.
pub fn put_tick(outs: &mut Vec<NodeOut>, aside: &mut Vec<NodeOut>, n: u8) -> Result<(), AllocError>
    ensures { OnOk result (IsListedAlone (record { node = n; input = Tick }) outs.new.items) }
{
    take_up(outs, aside);
    outs.truncate(1);
    if outs.is_empty() {
        add_tick(outs, n)
    } else {
        set_tick(&mut outs[0], n);
        Ok(())
    }
}

/// A sample is listed alone: its number, and the base and the bits of its beat. `AllocError` if there is not enough
/// memory for an entry; then nothing is listed.
pub fn put_sample(
    outs: &mut Vec<NodeOut>,
    aside: &mut Vec<NodeOut>,
    n: u8,
    number: u32,
    base: u16,
    bits: u64,
) -> Result<(), AllocError>
    ensures { OnOk result
        (IsListedAlone (record { node = n; input = Sample number base bits }) outs.new.items) }
{
    take_up(outs, aside);
    outs.truncate(1);
    if outs.is_empty() {
        add_sample(outs, n, number, base, bits)
    } else {
        set_sample(&mut outs[0], n, number, base, bits);
        Ok(())
    }
}
