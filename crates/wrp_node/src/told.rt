//! A servo, with the lease and the link that it was last given.
ghost use Rattle.std.specs.Prelude.{◌≡◌, ◌+◌, ◌<◌, ◌^◌, ℤ, [], false};
ghost use Rattle.wrp_data.specs.Reason.{IsReason};
ghost use Rattle.wrp_law.specs.Law.{KeepsFact};
ghost use Rattle.wrp_node.specs.Control.{AddsTold};
ghost use Rattle.wrp_servo.specs.Call.{CallSample, CallMeasured, CallTick, CallLease, CallLink, CallCarrier, CallReset};
ghost use Rattle.wrp_servo.specs.Servo.{StandsFor as ServoStandsFor, servo_setting_of};
ghost use Rattle.wrp_servo.specs.Sizes.{FitsTimes, FitsServoSet};

use std::marker::Model;
use wrp_base::{Deltas, Four};
use wrp_law::DelayLaw;
use wrp_servo::{Servo, ServoOut, ServoSet};

/// The servo of a slave port.
#[derive(Drop)]
pub struct Told<F> {
    /// The servo.
    pub servo: Servo<F>,
    /// Whether the lease that it was last given is fresh.
    pub lease: bool,
    /// Whether the link that it was last given is on.
    pub link: bool,
}

impl<F> Model for Told<F> {
    ghost use Rattle.wrp_node.specs.Control.{ToldServo};

    ghost Value = { ToldServo F };

    ghost view = { λ t. record { servo = t.servo; lease = t.lease; link = t.link } };
}

impl<F: Fn(i64) -> i64> Told<F> {
    /// The servo before any call.
    pub fn of(set: ServoSet, law: DelayLaw<F>) -> Told<F>
        requires set { FitsServoSet set }
        requires law { KeepsFact F.pre F.post law }
        ensures law { result.servo.law ≡ law }
        ensures servo { ServoStandsFor F.post (servo_setting_of set law) result.servo [] }
        ensures lease { result.lease ≡ false }
        ensures link { result.link ≡ false }
    {
        Told {
            servo: Servo::new(set, law),
            lease: false,
            link: false,
        }
    }

    /// A sample.
    pub fn sample(&mut self, n: u32, base: u16, bits: u64) -> ServoOut
        requires { base < 16384 }
        ensures law { self.new.servo.law ≡ self.old.servo.law }
        ensures calls { AddsTold F.post self.old self.new (CallSample n base bits) result }
        ensures reason { IsReason result.refused }
    {
        self.servo.sample(n, base, bits)
    }

    /// A tick.
    pub fn tick(&mut self) -> ServoOut
        requires { self.old.servo.core.ticks + 1 < 2 ^ 32 }
        ensures law { self.new.servo.law ≡ self.old.servo.law }
        ensures calls { AddsTold F.post self.old self.new CallTick result }
        ensures reason { IsReason result.refused }
    {
        self.servo.tick()
    }

    /// The lease is fresh, or lapsed.
    pub fn lease(&mut self, fresh: bool) -> ServoOut
        ensures law { self.new.servo.law ≡ self.old.servo.law }
        ensures calls { AddsTold F.post self.old self.new (CallLease fresh) result }
        ensures ticks { self.new.servo.core.ticks ≡ self.old.servo.core.ticks }
        ensures reason { IsReason result.refused }
    {
        self.lease = fresh;
        self.servo.lease(fresh)
    }

    /// The link is on, with its four delays, or off.
    pub fn link(&mut self, on: Option<Deltas>) -> ServoOut
        ensures law { self.new.servo.law ≡ self.old.servo.law }
        ensures calls { AddsTold F.post self.old self.new (CallLink on) result }
        ensures reason { IsReason result.refused }
    {
        self.link = on.is_some();
        self.servo.link(on)
    }

    /// The carrier of the slave port came or went.
    pub fn carrier(&mut self, up: bool) -> ServoOut
        ensures law { self.new.servo.law ≡ self.old.servo.law }
        ensures calls { AddsTold F.post self.old self.new (CallCarrier up) result }
        ensures reason { IsReason result.refused }
    {
        self.servo.carrier(up)
    }

    /// The node restarts.
    pub fn reset(&mut self) -> ServoOut
        ensures law { self.new.servo.law ≡ self.old.servo.law }
        ensures calls { AddsTold F.post self.old self.new CallReset result }
        ensures reason { IsReason result.refused }
    {
        self.lease = false;
        self.link = false;
        self.servo.reset()
    }

    /// A measurement.
    pub fn measured(&mut self, four: &Four) -> ServoOut
        requires law { KeepsFact F.pre F.post self.old.servo.law }
        requires four { FitsTimes four.now }
        ensures law { self.new.servo.law ≡ self.old.servo.law }
        ensures calls { (y : ℤ) × AddsTold F.post self.old self.new (CallMeasured four.now y) result }
        ensures reason { IsReason result.refused }
    {
        self.servo.measured(four)
    }
}
