//! The rule by which 64 beat bits become a tag.
ghost use Rattle.std.specs.Prelude.{◌≡◌, ◌<◌};
ghost use Rattle.wrp_base.specs.Clock.{steps_of_period};
ghost use Rattle.wrp_phase.specs.Beat.{deglitched};

use wrp_base::STEPS_OF_PERIOD;

/// The least number of leading zeros, and of trailing ones, that a sample needs.
const SETTLED: u32 = 8;

/// The tag of a sample, in detector steps: 0 to 16383.
///
/// A sample is a base, 0 to 16383, and 64 beat bits, the most significant first; its tag is the base
/// and the number of zero bits, round the period. None if the bits have fewer than 8 leading zeros
/// or fewer than 8 trailing ones, so that the edge is not known to lie between them.
pub fn deglitch(base: u16, bits: u64) -> Option<u16>
    requires { base < steps_of_period }
    ensures { result ≡ deglitched base bits }
{
    if bits.leading_zeros() < SETTLED || bits.trailing_ones() < SETTLED {
        return None;
    }
    let zeros = bits.count_zeros() as u16;
    Some((base + zeros) % STEPS_OF_PERIOD)
}
