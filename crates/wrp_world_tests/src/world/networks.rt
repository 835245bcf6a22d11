//! The keys of the runs, ahead of the network of three nodes, and its numbers.
use wrp_base::Tau;

/// The keys with which links are soon on: a frame lives 20 ms, quiet time is 6 ticks, an
/// Announce is sent each 5 ticks, and 5 good samples lock.
pub const SOON_ON: &str = "\
    [network]\n\
    life_ns = 20000000\n\
    quiet = 6\n\
    announce = 5\n\
    holdoff = 10\n\
    lock_samples = 5\n\
    delock_samples = 4\n";

/// The same, and nodes are soon in TRACK, and not for long in HOLDOVER.
pub const SOON_IN_TRACK: &str = "\
    [network]\n\
    life_ns = 20000000\n\
    quiet = 6\n\
    announce = 5\n\
    holdoff = 10\n\
    lock_samples = 5\n\
    delock_samples = 4\n\
    stable = 3\n\
    report = 2\n\
    sync = 3\n\
    delay = 3\n\
    lease = 12\n\
    age = 30\n\
    holdover = 20\n";

/// The delays of each fibre: both ways are 100 us, of which the way down has its share.
pub const MS: Tau = 3_277_238_822_364;

pub const SM: Tau = 3_276_361_177_636;

/// The one-way delay down, with 14745600000 of blue and 14876672000 of violet.
pub const DOWN: Tau = 3_306_861_094_364;

/// The error of each module's entry and of the asymmetry, except for 1 tau that rounding takes.
pub const ERROR: i64 = 1_310_719;

/// The error of a send stamp, and of a tag.
pub const E_TX: Tau = 655_360;

pub const E_TAG: Tau = 64_000;

/// The DAC value at rest, and the greatest rates of a locked clock and of one in HOLDOVER, in 10^-12.
pub const BIAS: i128 = 32_768;

pub const SLEW: i128 = 500;

pub const HELD: i128 = 10;
