//! Seeds: the numbers that the words of the command line may write.
ghost use Rattle.std.specs.Prelude.{◌≡◌};
ghost use Rattle.wrp_words.specs.Fields.{seed_of};

use wrp_fields::unsigned;

// The most digits that a seed may have.
const SEED_DIGITS: usize = 20;

/// The seed that a text writes: 1 to 20 digits. None if it is not that, or is above the greatest u64.
pub fn seed(text: &[u8]) -> Option<u64>
    ensures { result ≡ seed_of text.now }
{
    if text.len() <= SEED_DIGITS {
        unsigned(text, 0, u64::MAX)
    } else {
        None
    }
}
