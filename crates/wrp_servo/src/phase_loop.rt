//! The phase loop: unwrapped phase, setpoint, controller and lock detector.
ghost use Rattle.std.specs.Prelude.{◌≡◌, ℕ, pos, ◌^◌, ◌<◌, ◌≤◌, ◌-ℤ◌, ◌≤ℤ◌, unsigned_abs};
ghost use Rattle.wrp_servo.specs.Following.{restarted, unlocked, taken, moved_toward, error_of, e_tau, controlled, approached, new_loop};

use crate::ServoSet;
use wrp_base::{Tau, difference, floor_div, hold, sum};
use wrp_phase::Unwrap;
use wrp_pi::{LockDet, Pi};

/// What the phase loop holds.
#[derive(Clone, Copy, Debug)]
pub struct PhaseLoop {
    /// The good tags since the last restart, added up.
    pub unwrap: Unwrap,
    /// The controller.
    pub pi: Pi,
    /// The lock detector.
    pub lock: LockDet,
    /// Whether no good sample came since the last restart: u, s and goal become 0 at the next one.
    pub fresh: bool,
    /// The unwrapped phase at the last good sample, in tau.
    pub u: i64,
    /// The setpoint, in tau.
    pub s: Tau,
    /// Where the setpoint moves to, in tau.
    pub goal: Tau,
    /// The last DAC value.
    pub dac: u16,
}

impl PhaseLoop {
    /// A loop at rest.
    pub fn new(set: &ServoSet) -> PhaseLoop
        requires { set.now.delock_samples < set.now.lock_samples }
        ensures { result ≡ new_loop set.now }
    {
        PhaseLoop {
            unwrap: Unwrap::new(set.clock),
            pi: Pi::new(set.kp, set.ki, set.bias),
            lock: LockDet::new(set.threshold, set.lock_samples, set.delock_samples),
            fresh: true,
            u: 0,
            s: 0,
            goal: 0,
            dac: set.bias,
        }
    }

    /// The loop restarts at the next good sample.
    pub fn restart(&mut self)
        ensures { self.new ≡ restarted self.old }
    {
        self.unwrap.restart();
        self.pi.restart();
        self.lock.restart();
        self.fresh = true;
    }

    /// The lock detector restarts.
    pub fn unlock(&mut self)
        ensures { self.new ≡ unlocked self.old }
    {
        self.lock.restart();
    }

    /// Takes a good sample's tag.
    pub fn take(&mut self, tag: u16)
        requires tag { tag < 16384 }
        requires answer { unsigned_abs self.old.unwrap.answer < 2 ^ 60 }
        ensures value { self.new ≡ taken self.old tag }
        ensures size { unsigned_abs self.new.u < 2 ^ 61 }
    {
        self.u = self.unwrap.push(tag);
        if self.fresh {
            self.s = 0;
            self.goal = 0;
        }
        self.fresh = false;
    }

    /// Moves the setpoint towards its goal.
    pub fn approach(&mut self, step: Tau)
        requires least { pos 0 ≤ℤ step }
        requires most { step ≤ℤ pos (2 ^ 30) }
        requires s { unsigned_abs self.old.s ≤ 2 ^ 62 }
        requires goal { unsigned_abs self.old.goal ≤ 2 ^ 62 }
        ensures value { self.new ≡ approached step self.old }
        ensures size { unsigned_abs self.new.s ≤ 2 ^ 62 }
    {
        self.s = step_toward(step, self.s, self.goal);
    }

    /// Gives the loop's error to the controller and to the lock detector.
    pub fn control(&mut self)
        requires u { unsigned_abs self.old.u ≤ 2 ^ 62 }
        requires s { unsigned_abs self.old.s ≤ 2 ^ 62 }
        ensures { self.new ≡ controlled self.old }
    {
        let e = error(self.e_tau());
        self.dac = self.pi.update(e);
        let _locked = self.lock.update(e);
    }

    /// The loop's error, in tau.
    pub fn e_tau(&self) -> Tau
        requires u { unsigned_abs self.now.u ≤ 2 ^ 62 }
        requires s { unsigned_abs self.now.s ≤ 2 ^ 62 }
        ensures value { result ≡ e_tau self.now }
        ensures size { unsigned_abs result ≤ 2 ^ 63 }
    {
        i128::from(self.u) - self.s
    }
}

// The setpoint one step nearer to its goal.
fn step_toward(step: Tau, s: Tau, goal: Tau) -> Tau
    requires least { pos 0 ≤ℤ step }
    requires most { step ≤ℤ pos (2 ^ 30) }
    requires s { unsigned_abs s ≤ 2 ^ 62 }
    requires goal { unsigned_abs goal ≤ 2 ^ 62 }
    ensures value { result ≡ moved_toward step s goal }
    ensures size { unsigned_abs result ≤ 2 ^ 62 }
{
    sum(s, hold(step, difference(goal, s)))
}

// An error in tau as the loop takes it.
fn error(e_tau: Tau) -> i32
    requires { unsigned_abs e_tau ≤ 2 ^ 63 }
    ensures value { result ≡ error_of e_tau }
    ensures size { unsigned_abs result ≤ 2 ^ 20 }
{
    let steps = hold(1 << 20, floor_div(e_tau, 1000));
    steps as i32
}
