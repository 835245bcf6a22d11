//! The settings of a servo: `usual` are the settings of a network file without keys, and `usual 62` the same at 62.5
//! MHz; at `small` the detector locks at 2, and counts errors of up to 10,000 tau, and the gains are 0.
ghost use Rattle.std.specs.Prelude.{IfOk};
ghost use Rattle.wrp_servo.specs.Sizes.{FitsServoSet};

use wrp_base::Clock;
use wrp_servo::ServoSet;
use wrp_suite::Fault;

const USUAL: ServoSet = ServoSet {
    holdover: 320,
    age: 300,
    stable: 50,
    gap: 2,
    lock_samples: 100,
    delock_samples: 50,
    threshold: 6400,
    track_tau: 3_276_800,
    loop_tau: 3_276_800,
    phase_step: 100_000,
    kp: 125,
    ki: 5,
    bias: 32_768,
    clock: Clock::Mhz125,
};

const SMALL: ServoSet = ServoSet {
    holdover: 3,
    age: 4,
    stable: 2,
    gap: 2,
    lock_samples: 2,
    delock_samples: 0,
    threshold: 10,
    track_tau: 40_000,
    loop_tau: 40_000,
    phase_step: 100_000,
    kp: 0,
    ki: 0,
    bias: 32_768,
    clock: Clock::Mhz125,
};

/// The settings of a case.
pub fn set_of(words: &[String]) -> Result<ServoSet, Fault>
    ensures { IfOk result FitsServoSet }
{
    let [word] = words else {
        return Err(Fault::Input);
    };
    match word.as_str() {
        "usual" => Ok(USUAL),
        "usual-62" => Ok(ServoSet {
            clock: Clock::Mhz62,
            ..USUAL
        }),
        "small" => Ok(SMALL),
        _ => Err(Fault::Input),
    }
}
