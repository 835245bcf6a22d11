//! The line of an event that breaks a premise.
ghost use Rattle.std.specs.Prelude.{◌≡◌, ◌++◌, IfOk};
ghost use Rattle.wrp_audit.specs.Broken.{broken_line, premise_name};

use std::alloc::{AllocError, Global};
use wrp_base::Tau;
use wrp_records::append_broken_words;

// The name of a premise, by its number.
#[tactic(auto, unfolding(crate::specs::Broken::premise_name))]
fn premise_name(premise: u8) -> &'static str
    ensures { result.now ≡ premise_name premise }
{
    match premise {
        1 => "TickEarly",
        2 => "TickLate",
        3 => "Rate",
        4 => "FibreRate",
        5 => "Fibre",
        6 => "Module",
        7 => "TxStamp",
        8 => "RxRaw",
        9 => "Beat",
        10 => "TooOld",
        11 => "NotSent",
        12 => "Forged",
        13 => "NotUp",
        _ => "",
    }
}

/// Appends the line of an event that breaks a premise: the number of the premise, and both sides of
/// the comparison that fails. `AllocError` if memory runs out: then nothing is known of `text`.
pub fn append_broken(
    alloc: Global,
    text: &mut Vec<u8>,
    number: u32,
    premise: u8,
    shown: Tau,
    bound: Tau,
) -> Result<(), AllocError>
    ensures { IfOk result (λ _. text.new.items ≡ text.old.items ++ broken_line number
        (record { premise = premise; shown = shown; bound = bound })) }
{
    append_broken_words(
        alloc,
        text,
        number,
        premise,
        premise_name(premise),
        shown,
        bound,
    )
}
