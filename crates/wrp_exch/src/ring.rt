//! The good phase samples that an exchange still knows.
ghost use Rattle.std.specs.Prelude.{◌≡◌};
ghost use Rattle.wrp_exch.specs.Samples.{phase_in};

use circular_buffer::HeapCircularBuffer;

/// A good phase sample.
#[derive(Clone, Copy, Debug)]
pub struct GoodSample {
    /// Its number.
    pub number: u32,
    /// The unwrapped phase at it, in tau.
    pub phase: i64,
}

/// The last good samples, the newest in front.
pub type SampleRing = HeapCircularBuffer<GoodSample>;

/// The phase at the sample of this number, in tau. None if the ring does not have it, or no longer has it.
pub fn phase_of(ring: &SampleRing, number: u32) -> Option<i64>
    ensures { result ≡ phase_in ring.now.items number }
{
    ring.iter().find(|s| s.number == number).map(|s| s.phase)
}
