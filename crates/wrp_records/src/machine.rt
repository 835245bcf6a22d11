//! What handles the records of a command, one line each, and the end of its input.
ghost use Rattle.std.specs.Prelude.{◌≡◌, ℕ, ◌+◌, ◌^◌, ◌<◌, ◌≤◌, List, [], ◌∷◌, ◌++◌, length, IfOk};
ghost use Rattle.wrp_records.specs.declared.machine.Refusal.{Refusal};
ghost use Rattle.wrp_records.specs.Split.{IsSplit};

use csv::ByteRecord;
use std::alloc::{AllocError, Global};

/// Why a record is refused.
#[derive(Clone, Copy, Debug, PartialEq, Eq)]
pub enum Refusal {
    /// It is not a line of its kind.
    BadTrace,
    /// It breaks a premise.
    Broken,
}

/// What a machine answers to a line.
#[derive(Clone, Copy, Debug, PartialEq, Eq)]
pub enum Taken {
    /// It is a record, and what it writes is given.
    Accepted,
    /// It is refused, and the line that names the refusal is given.
    Refused(Refusal),
}

/// What a machine answers to the end of the input.
#[derive(Clone, Copy, Debug, PartialEq, Eq)]
pub enum Closing {
    /// What is written after all records is given.
    Closed,
    /// The records as a whole give no answer, and the line that says why is given.
    BadCalib,
}

/// What handles the records of a command.
pub trait Machine {
    /// What no record changes: the network and the node.
    type Setting;

    /// The setting.
    ghost setting: { Self → Self.Setting };

    /// How many records were taken, at most.
    ghost count: { Self → ℕ };

    /// The machine can take a line.
    ghost is_ready: { Self → Type 0 };

    /// The machine is in the state that lines which say this lead to.
    ghost has_taken: { Self → List (List ℕ) → Type 0 };

    /// Lines that say this are records, and write this.
    ghost accepts: { Self.Setting → List (List ℕ) → List ℕ → Type 0 };

    /// After lines that say this, a line that says this is refused, and this last line names it.
    ghost refuses: { Self.Setting → List (List ℕ) → List ℕ → Refusal → List ℕ → Type 0 };

    /// After lines that say this, and no more, this is written at the end.
    ghost closes: { Self.Setting → List (List ℕ) → List ℕ → Type 0 };

    /// Lines that say this, and no more, give no answer, and this last line says why.
    ghost bars: { Self.Setting → List (List ℕ) → List ℕ → Type 0 };

    /// Takes what a line says, by the parts that `csv` gives, as the record of this number, and
    /// appends its output to `text`. A line that is not plain has no parts. `AllocError` if memory
    /// runs out: the machine keeps its setting, and nothing is known of `text` or of what the
    /// machine has taken.
    fn take(
        &mut self,
        alloc: Global,
        line: &[u8],
        parts: Option<&ByteRecord>,
        number: u32,
        text: &mut Vec<u8>,
    ) -> Result<Taken, AllocError>
        requires split { IsSplit line.now parts }
        requires ready { is_ready self.old }
        requires none { text.old.items ≡ [] }
        requires room { count self.old + 1 < 2 ^ 32 }
        ensures ready { is_ready self.new }
        ensures count { count self.new ≤ count self.old + 1 }
        ensures setting { setting self.new ≡ setting self.old }
        ensures accepted { (lines : List (List ℕ)) (before : List ℕ) → IfOk result (λ taken.
            taken ≡ Taken.Accepted
            → has_taken self.old lines → accepts (setting self.old) lines before
            → has_taken self.new (lines ++ line.now ∷ [])
            × accepts (setting self.old) (lines ++ line.now ∷ []) (before ++ text.new.items)) }
        ensures refused { (lines : List (List ℕ)) (refusal : Refusal) → IfOk result (λ taken.
            taken ≡ Taken.Refused refusal
            → has_taken self.old lines → number ≡ length lines + 1
            → refuses (setting self.old) lines line.now refusal text.new.items) };

    /// Takes the end of the input, and appends what is written after all records to `text`.
    /// `AllocError` if memory runs out: then nothing is known of `text`.
    fn close(&self, alloc: Global, text: &mut Vec<u8>) -> Result<Closing, AllocError>
        requires ready { is_ready self.now }
        requires none { text.old.items ≡ [] }
        ensures closed { (lines : List (List ℕ)) → IfOk result (λ closing.
            closing ≡ Closing.Closed
            → has_taken self.now lines → closes (setting self.now) lines text.new.items) }
        ensures barred { (lines : List (List ℕ)) → IfOk result (λ closing.
            closing ≡ Closing.BadCalib
            → has_taken self.now lines → bars (setting self.now) lines text.new.items) };
}
