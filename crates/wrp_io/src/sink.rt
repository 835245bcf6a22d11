//! Where octets go.
ghost use Rattle.std.specs.Prelude.{Option, None, List, ℕ, length, ◌<◌, ◌≤◌, IfOk};
ghost use Rattle.std.specs.Io.KnownBytes.{WriteAppends};
ghost use Rattle.wrp_io.specs.Faults.{HasCause};

use crate::source::Failed;

/// Where octets go.
pub trait Sink {
    /// The octets that the sink holds, if it reports them.
    ghost held: { Self → Option (List ℕ) } = { λ _. None };

    /// How often the sink has failed. The count is a u64, and stays at its greatest value.
    ghost faults: { Self → ℕ };

    /// Appends the first octets of `piece`, and answers how many: at least one if there is one.
    /// `Failed` if the sink failed: its count of faults rose, and if it reports its octets, none was
    /// appended.
    fn write(&mut self, piece: &[u8]) -> Result<usize, Failed>
        ensures bound { IfOk result (λ n. n ≤ length piece.now) }
        ensures some { 0 < length piece.now → IfOk result (λ n. 0 < n) }
        ensures octets { WriteAppends (held self.old) (held self.new) result piece.now }
        ensures cause { HasCause (faults self.old) (faults self.new) result };
}
