//! The line that names a record whose event breaks a premise.
ghost use Rattle.std.specs.Prelude.{◌≡◌, ◌++◌, IfOk};
ghost use Rattle.wrp_plain.specs.LineText.{broken_line, premise_name};

use crate::event::PlainBroken;
use std::alloc::{AllocError, Global};
use wrp_records::{Refusal, Taken, append_broken_words};

/// Appends the line of a record whose event breaks a premise. `AllocError` if memory runs out: then
/// nothing is known of `text`.
pub fn refuse_broken(
    alloc: Global,
    number: u32,
    broken: PlainBroken,
    text: &mut Vec<u8>,
) -> Result<Taken, AllocError>
    ensures { IfOk result (λ taken. (taken ≡ Taken.Refused Refusal.Broken)
        × (text.new.items ≡ text.old.items ++ broken_line number broken)) }
{
    let name = premise_name(broken.premise);
    append_broken_words(
        alloc,
        text,
        number,
        broken.premise,
        name,
        broken.shown,
        broken.bound,
    )?;
    Ok(Taken::Refused(Refusal::Broken))
}

// The name of a premise, by its number.
#[tactic(auto, unfolding(crate::specs::LineText::premise_name))]
fn premise_name(premise: u8) -> &'static str
    ensures { result.now ≡ premise_name premise }
{
    match premise {
        1 => "TickLate",
        2 => "Rate",
        3 => "Span",
        4 => "Least",
        5 => "Move",
        6 => "Stamp",
        _ => "",
    }
}
