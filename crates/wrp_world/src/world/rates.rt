//! Which premise breaks if time passes: the rates of clocks depend on the nodes.
ghost use Rattle.std.specs.Prelude.{◌≡◌, ◌<◌, ◌≤◌, ℤ, length, flat_map, not, if◌then◌else◌, IfSome, None, Some, Result};
ghost use Rattle.arrayvec.specs.ArrayVec.{ArrayVec as Items};
ghost use Rattle.std.specs.Option.{is_some};
ghost use Rattle.wrp_base.specs.declared.message.PtpMsg.{PtpMsg};
ghost use Rattle.wrp_network.specs.Network.{link_above};
ghost use Rattle.wrp_servo.specs.Sampling.{is_holdover};
ghost use Rattle.wrp_frame.specs.declared.fault.FrameFault.{FrameFault};
ghost use Rattle.wrp_course.specs.Checks.{told_of};
ghost use Rattle.wrp_course.specs.declared.event.Event.TheVariants as event;
ghost use Rattle.wrp_course.specs.EventAt.{IsPass};
ghost use Rattle.wrp_course.specs.Moved.{drift_of, moved};
ghost use Rattle.wrp_course.specs.Premises as premise;
ghost use Rattle.wrp_course.specs.Setting.{Setting, links_of, nodes_of};
ghost use Rattle.wrp_world.specs.StandsFor.{IsValid, StandsFor, Tells, up_of};
ghost use Rattle.wrp_world.specs.Steered.{steering_of};
ghost use Rattle.wrp_premises.specs.Tried.{steered_rate};
ghost use Rattle.wrp_course.specs.WorldAt.{WorldAt};

use super::World;
use crate::Steer;
use arrayvec::ArrayVec;
use wrp_base::ServoState;
use wrp_changes::all_stay;
use wrp_course::Breach;
use wrp_network::NodeCfg;
use wrp_premises::{late_broken, moved_fibres_broken, rate_kept, rates_of_fibres_broken};

// Whether a servo is in HOLDOVER.
fn is_holdover(state: ServoState) -> bool
    ensures { result ≡ is_holdover state }
{
    matches!(state, ServoState::Holdover)
}

// The rate within which the clock of a node that is up keeps, if it has one to keep.
fn steered_rate(locked: bool, state: ServoState, cfg: &NodeCfg) -> Option<u64>
    ensures { result ≡ steered_rate locked state cfg.now }
{
    if locked {
        Some(cfg.slew)
    } else if is_holdover(state) {
        Some(cfg.held)
    } else {
        None
    }
}

// The same for a clock whose node may be down.
fn steered_where(up: bool, steered: Option<u64>) -> Option<u64>
    ensures { result ≡ (if up then steered else None) }
{
    if up { steered } else { None }
}

// How far a clock drifts, in tau.
fn drift_at(drifts: &[i64], n: u8) -> i64
    ensures { result ≡ drift_of drifts.now n }
{
    match drifts.get(usize::from(n)) {
        Some(drift) => *drift,
        None => 0,
    }
}

impl<F: Fn(i64) -> i64> World<F> {
    /// The rate within which a node's clock keeps, in `10^-12`: at most `10^9`. `None` if it has no rate to
    /// keep: the node is not the grandmaster, and is down or neither locked nor in HOLDOVER.
    pub fn rate(&self, n: u8) -> Option<u64>
        requires valid { IsValid F.pre F.post self.now }
        requires node { n < length self.now.nodes }
        ensures value { Tells F.post (λ s w. premise.rate_of s w n) self.now result }
        ensures most { IfSome result (λ rate. rate ≤ 1_000_000_000) }
    {
        let up = self.is_up(n);
        self.rate_where(n, up)
    }

    /// How the clock of a node is steered. `None` if the node is down.
    pub fn steering(&self, n: u8) -> Option<Steer>
        requires valid { IsValid F.pre F.post self.now }
        requires node { n < length self.now.nodes }
        ensures value { Tells F.post (λ s w. steering_of s w n) self.now result }
        ensures most { IfSome result (λ it. IfSome it.kept (λ rate. rate ≤ 1_000_000_000)) }
    {
        if self.is_up(n) {
            let dac = self.dac(n);
            let kept = self.rate_where(n, true);
            Some(Steer { dac, kept })
        } else {
            None
        }
    }

    // The rate within which a node's clock keeps, if it is known whether the node is up.
    fn rate_where(&self, n: u8, up: bool) -> Option<u64>
        requires valid { IsValid F.pre F.post self.now }
        requires node { n < length self.now.nodes }
        requires up { Tells F.post (up_of n) self.now up }
        ensures value { Tells F.post (λ s w. premise.rate_of s w n) self.now result }
        ensures most { IfSome result (λ rate. rate ≤ 1_000_000_000) }
    {
        let node = self.node(n);
        let locked = node.locked();
        let state = node.servo();
        let cfg = self.plant.node_cfg(n);
        match steered_where(up, steered_rate(locked, state, cfg)) {
            Some(rate) => Some(rate),
            None => self.still_rate(n),
        }
    }

    // The rate of a clock that is not steered: the grandmaster's clock does not drift, and any other has no rate to
    // keep.
    fn still_rate(&self, n: u8) -> Option<u64>
        requires { IsValid F.pre F.post self.now }
        ensures value { Tells F.post (λ s w. if not (is_some (link_above s.cfg n)) then Some 0 else None) self.now result }
        ensures most { IfSome result (λ rate. rate ≤ 1_000_000_000) }
    {
        let is_top = self.plant.is_top(n);
        if is_top { Some(0) } else { None }
    }

    // Checks that a clock that drifts so far keeps within its rate.
    fn drift_broken(&self, n: u8, dt: i64, drift: i64) -> Option<Breach>
        requires valid { IsValid F.pre F.post self.now }
        requires node { n < length self.now.nodes }
        ensures { (s : Setting) (w : WorldAt) → StandsFor F.post s w self.now
            → result ≡ told_of (premise.rate_checks drift dt (premise.rate_of s w n)) }
    {
        let rate = self.rate(n);
        rate_kept(drift, dt, rate)
    }

    // Checks that a clock keeps within its rate. A clock that does not drift keeps within every rate, so its rate is not
    // looked up.
    fn rate_broken(&self, n: u8, dt: i64, drifts: &ArrayVec<i64, 64>) -> Option<Breach>
        requires valid { IsValid F.pre F.post self.now }
        requires node { n < length self.now.nodes }
        ensures { (s : Setting) (w : WorldAt) → StandsFor F.post s w self.now
            → result ≡ told_of (premise.rate_kept s w dt drifts.now.items n) }
    {
        let drift = drift_at(drifts.as_slice(), n);
        if drift == 0 {
            None
        } else {
            self.drift_broken(n, dt, drift)
        }
    }

    // Checks that all clocks keep within their rates.
    fn rates_broken(&self, dt: i64, drifts: &ArrayVec<i64, 64>) -> Option<Breach>
        requires valid { IsValid F.pre F.post self.now }
        ensures { (s : Setting) (w : WorldAt) → StandsFor F.post s w self.now
            → result ≡ told_of (flat_map (premise.rate_kept s w dt drifts.now.items) (nodes_of s)) }
    {
        let count = self.node_count();
        for n in 0..count {
            if let Some(breach) = self.rate_broken(n, dt, drifts) {
                return Some(breach);
            }
        }
        None
    }

    /// The first premise that breaks if time passes with these drifts and moves.
    pub(super) fn pass_broken(
        &self,
        dt: i64,
        drifts: &ArrayVec<i64, 64>,
        moves: &ArrayVec<(i64, i64), 63>,
    ) -> Option<Breach>
        requires valid { IsValid F.pre F.post self.now }
        requires pass { IsPass self.now.plant.net.cfg dt drifts.now.items moves.now.items }
        ensures { (s : Setting) (w : WorldAt) (says : Result PtpMsg FrameFault)
            → StandsFor F.post s w self.now → result ≡ told_of (premise.checks_of s w says (event.Pass dt drifts.now moves.now)) }
    {
        if let Some(breach) = late_broken(&self.plant, dt) {
            return Some(breach);
        }
        if let Some(breach) = self.rates_broken(dt, drifts) {
            return Some(breach);
        }
        if let Some(breach) = rates_of_fibres_broken(&self.plant, dt, moves) {
            return Some(breach);
        }
        self.fibres_broken(moves)
    }

    // Checks the delays of all links after a time in which they change so. If none changes, no link is looked at: all
    // of them kept their premise before.
    fn fibres_broken(&self, moves: &ArrayVec<(i64, i64), 63>) -> Option<Breach>
        requires { IsValid F.pre F.post self.now }
        ensures { (s : Setting) (w : WorldAt) (dt : ℤ) (drifts : Items ℤ)
            → StandsFor F.post s w self.now → result ≡ told_of
            (flat_map (premise.fibre_kept s (moved s w (event.Pass dt drifts moves.now)))
            (links_of s)) }
    {
        let plant = &self.plant;
        if all_stay(moves.as_slice()) {
            None
        } else {
            moved_fibres_broken(plant, moves)
        }
    }
}
