//! The rule by which two counters and a tag become one reading.
ghost use Rattle.std.specs.Prelude.{◌≡◌, ◌^◌, ◌<◌, pos};
ghost use Rattle.wrp_base.specs.Clock.{period_of, steps_of_period};
ghost use Rattle.wrp_stamp.specs.Merge.{place_of, periods_at, merged};

use wrp_base::{Clock, Raw, STEPS_OF_PERIOD, Tau};

/// The reading of the local clock at a frame's arrival, in tau, merged from the raw stamp.
///
/// `transition` is the port module's, in detector steps: 0 to 16383. The place in the period is the
/// tag counted from there. In the two middle quarters of the period the rising counter has the whole
/// periods; in the first quarter the falling counter has them, and in the last it is one ahead.
pub fn merge(raw: &Raw, transition: u16, clock: Clock) -> Tau
    requires rising_least { 0 < raw.now.rising }
    requires rising_most { raw.now.rising < 2 ^ 63 }
    requires falling_least { 0 < raw.now.falling }
    requires falling_most { raw.now.falling < 2 ^ 63 }
    requires tag { raw.now.tag < steps_of_period }
    requires transition { transition < steps_of_period }
    ensures { result ≡ pos (merged clock raw.now transition) }
{
    let place = place_in_period(raw.tag, transition, clock);
    let periods = whole_periods(raw, place, clock);
    let reading = u128::from(periods) * clock.period().unsigned_abs() + place;
    reading as i128
}

// Where in its period a frame arrived, in tau.
fn place_in_period(tag: u16, transition: u16, clock: Clock) -> u128
    requires tag { tag < steps_of_period }
    requires transition { transition < steps_of_period }
    ensures value { result ≡ place_of clock tag transition }
    ensures within { result < period_of clock }
{
    let steps = (tag + STEPS_OF_PERIOD - transition) % STEPS_OF_PERIOD;
    clock.step().unsigned_abs() * u128::from(steps)
}

// The whole periods before that place.
fn whole_periods(raw: &Raw, place: u128, clock: Clock) -> u64
    requires falling_least { 0 < raw.now.falling }
    ensures { result ≡ periods_at clock raw.now place }
{
    let quarter = clock.period().unsigned_abs() / 4;
    if place < quarter {
        raw.falling
    } else if place < 3 * quarter {
        raw.rising
    } else {
        raw.falling - 1
    }
}
