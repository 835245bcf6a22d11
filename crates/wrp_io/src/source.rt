//! Where octets come from.
ghost use Rattle.std.specs.Prelude.{Option, None, List, ℕ, length, ◌≤◌, IfOk};
ghost use Rattle.std.specs.Io.KnownBytes.{ReadConsumes};
ghost use Rattle.wrp_io.specs.Faults.{HasCause};

/// A call of a source, a sink or a link failed, and the object's count of faults rose. If the object
/// reports its octets or its frames, the call took nothing and appended nothing.
#[derive(Clone, Copy, Debug, PartialEq, Eq)]
pub struct Failed;

/// Where octets come from.
pub trait Source {
    /// The octets that are left, if the source reports them.
    ghost left: { Self → Option (List ℕ) } = { λ _. None };

    /// How often the source has failed. The count is a u64, and stays at its greatest value.
    ghost faults: { Self → ℕ };

    /// Puts the next octets that are left at the front of `buf`, and answers how many. For a buffer
    /// that has room, 0 means the end. `Failed` if the source failed: its count of faults rose, and if
    /// it reports its octets, the same are left.
    fn read(&mut self, buf: &mut [u8]) -> Result<usize, Failed>
        ensures bound { IfOk result (λ n. n ≤ length buf.new) }
        ensures octets { ReadConsumes (left self.old) (left self.new) result buf.new }
        ensures cause { HasCause (faults self.old) (faults self.new) result };
}
