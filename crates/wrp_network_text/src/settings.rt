//! The rows of `network`: one for each of its numbers, and the period of the clock.
ghost use Rattle.std.specs.Prelude.{◌≡◌};
ghost use Rattle.wrp_network_text.specs.Keys.{key_of, network_keys, period_key};

use wrp_caldb::Sort;
use wrp_calibration_text::Row;

/// A key of `network` with a number.
#[derive(Clone, Copy)]
pub enum NetworkKey {
    Epoch,
    Domain,
    DminNs,
    DmaxNs,
    LifeNs,
    ReachNs,
    Quiet,
    Holdover,
    Wait,
    LockWait,
    Holdoff,
    Lease,
    Age,
    Report,
    Stable,
    LockSamples,
    Retries,
    Gap,
    Announce,
    Sync,
    Delay,
    Ring,
    TrackTau,
    LoopTau,
    PhaseStep,
    Kp,
    Ki,
    Bias,
    Threshold,
    DelockSamples,
}

impl NetworkKey {
    /// Its row: the key, the least and the greatest number, and the number used if it is missing.
    pub fn row(self) -> Row
        ensures { result ≡ key_of self }
    {
        match self {
            NetworkKey::Epoch => Row::with_default("epoch", 1_000_000, 34_359_738_368, 1_000_000),
            NetworkKey::Domain => Row::with_default("domain", 0, 255, 0),
            NetworkKey::DminNs => Row::with_default("dmin_ns", 1_000, 1_000_000_000, 9_000_000),
            NetworkKey::DmaxNs => Row::with_default("dmax_ns", 1_000, 1_000_000_000, 11_000_000),
            NetworkKey::LifeNs => Row::with_default("life_ns", 1, 10_000_000_000, 100_000_000),
            NetworkKey::ReachNs => Row::with_default("reach_ns", 1, 1_000_000_000, 100_000),
            NetworkKey::Quiet => Row::with_default("quiet", 2, 1_000_000, 24),
            NetworkKey::Holdover => Row::with_default("holdover", 2, 1_000_000, 320),
            NetworkKey::Wait => Row::with_default("wait", 1, 1_000_000, 30),
            NetworkKey::LockWait => Row::with_default("lock_wait", 1, 1_000_000, 1_500),
            NetworkKey::Holdoff => Row::with_default("holdoff", 1, 1_000_000, 300),
            NetworkKey::Lease => Row::with_default("lease", 1, 1_000_000, 250),
            NetworkKey::Age => Row::with_default("age", 1, 1_000_000, 300),
            NetworkKey::Report => Row::with_default("report", 1, 1_000_000, 100),
            NetworkKey::Stable => Row::with_default("stable", 1, 1_000_000, 50),
            NetworkKey::LockSamples => Row::with_default("lock_samples", 1, 1_000_000, 100),
            NetworkKey::Retries => Row::with_default("retries", 0, 100, 3),
            NetworkKey::Gap => Row::with_default("gap", 1, 100, 2),
            NetworkKey::Announce => Row::with_default("announce", 1, 10_000, 100),
            NetworkKey::Sync => Row::with_default("sync", 1, 10_000, 25),
            NetworkKey::Delay => Row::with_default("delay", 1, 10_000, 25),
            NetworkKey::Ring => Row::with_default("ring", 1, 4_096, 64),
            NetworkKey::TrackTau => Row::with_default("track_tau", 1, 1_000_000_000, 3_276_800),
            NetworkKey::LoopTau => Row::with_default("loop_tau", 1, 1_000_000_000, 3_276_800),
            NetworkKey::PhaseStep => Row::with_default("phase_step", 1, 1_000_000_000, 100_000),
            NetworkKey::Kp => Row::with_default("kp", 0, 65_535, 125),
            NetworkKey::Ki => Row::with_default("ki", 0, 65_535, 5),
            NetworkKey::Bias => Row::with_default("bias", 0, 65_535, 32_768),
            NetworkKey::Threshold => Row::with_default("threshold", 1, 1_048_576, 6_400),
            NetworkKey::DelockSamples => Row::with_default("delock_samples", 0, 1_000_000, 50),
        }
    }
}

/// `period_ps`: the period of the clock, 8000 or 16000.
pub fn period_row() -> Row
    ensures { result ≡ period_key }
{
    Row::defaulted(
        "period_ps",
        Sort::OneOf {
            first: 8_000,
            second: 16_000,
        },
        8_000,
    )
}

/// The rows of `network`.
pub fn network_rows() -> [Row; 31]
    ensures { result ≡ network_keys }
{
    [
        NetworkKey::Epoch.row(),
        NetworkKey::Domain.row(),
        NetworkKey::DminNs.row(),
        NetworkKey::DmaxNs.row(),
        NetworkKey::LifeNs.row(),
        NetworkKey::ReachNs.row(),
        NetworkKey::Quiet.row(),
        NetworkKey::Holdover.row(),
        NetworkKey::Wait.row(),
        NetworkKey::LockWait.row(),
        NetworkKey::Holdoff.row(),
        NetworkKey::Lease.row(),
        NetworkKey::Age.row(),
        NetworkKey::Report.row(),
        NetworkKey::Stable.row(),
        NetworkKey::LockSamples.row(),
        NetworkKey::Retries.row(),
        NetworkKey::Gap.row(),
        NetworkKey::Announce.row(),
        NetworkKey::Sync.row(),
        NetworkKey::Delay.row(),
        NetworkKey::Ring.row(),
        NetworkKey::TrackTau.row(),
        NetworkKey::LoopTau.row(),
        NetworkKey::PhaseStep.row(),
        NetworkKey::Kp.row(),
        NetworkKey::Ki.row(),
        NetworkKey::Bias.row(),
        NetworkKey::Threshold.row(),
        NetworkKey::DelockSamples.row(),
        period_row(),
    ]
}
