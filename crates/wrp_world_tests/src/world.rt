//! Worlds of three nodes, driven by what is seen of them: whatever comes, the ports in WR_LINK_ON are in the
//! same handshake as their peers after every event; slaves come to TRACK, and are within their bounds there
//! and in HOLDOVER. An allocation that fails (`rt try --test --fail-alloc N`) is an event that comes once more.
mod course;
mod dice;
mod handshake;
mod life;
mod networks;
mod plan;
mod readings;
mod seen;

ghost use Rattle.std.specs.Prelude.{◌≡◌, ◌≤◌, ◌^◌, unsigned_abs};
ghost use Rattle.wrp_world.specs.StandsFor.{IsValid};

use course::Ends;
use networks::{SOON_IN_TRACK, SOON_ON};
use plan::Plan;
use seen::{ENDS, End, Seen, see};
use std::alloc::Global;
use std::process::Abort;
use std::test::Fail;
use wrp_base::Role;
use wrp_check::judge;
use wrp_law::{DelayLaw, LawKind, floor_of};
use wrp_trial::{KAPPA, Told, Trial, takes, trial_of};
use wrp_world::World;

// A port in WR_LINK_ON is in the same handshake as its peer, by the histories of both.
fn judges<F: Fn(i64) -> i64>(rt: &impl Abort, world: &World<F>, own: End, peer: End, role: Role)
    requires { IsValid F.pre F.post world.now }
{
    let history = world.history(own.0, own.1);
    let verdict = judge(history, world.history(peer.0, peer.1), role);
    assert_eq!(rt; verdict, Ok(()), "{own:?}");
}

// The same of each port.
fn judges_all<F: Fn(i64) -> i64>(rt: &impl Abort, world: &World<F>, seen: &Seen)
    requires { IsValid F.pre F.post world.now }
{
    let [gm, upper, lower, leaf] = ENDS;
    if seen.ends[0].on {
        judges(rt, world, gm, upper, Role::Master);
    }
    if seen.ends[1].on {
        judges(rt, world, upper, gm, Role::Slave);
    }
    if seen.ends[2].on {
        judges(rt, world, lower, leaf, Role::Master);
    }
    if seen.ends[3].on {
        judges(rt, world, leaf, lower, Role::Slave);
    }
}

// The run of a plan.
fn runs<F: Fn(i64) -> i64>(
    rt: &impl Abort,
    trial: &mut Trial<F>,
    plan: &mut Plan,
) -> Result<(), Fail>
    requires valid { IsValid F.pre F.post trial.old.world }
    requires came { trial.old.world.plant.events ≤ trial.old.came }
{
    for _event in 0..100_000 {
        let seen = see(&trial.world).ok_or("three nodes")?;
        judges_all(rt, &trial.world, &seen);
        assert!(rt; plan.are_near(&seen), "near");
        if plan.is_over(&seen) {
            assert!(rt; plan.ends_well(&seen), "the end");
            return Ok(());
        }
        let (event, may_fail) = plan.next(&seen);
        let told = takes(trial, &event);
        let is_refused = matches!(told, Told::Broken(..));
        assert!(rt;
            told == Told::Taken || (may_fail && is_refused),
            "{told:?} {event:?}"
        );
    }
    Err(Fail::from("an end"))
}

// The run of a plan over the network with these keys.
fn tries(rt: &impl Abort, alloc: Global, keys: &str, mut plan: Plan) -> Result<(), Fail> {
    let down = |x: i64|
        requires { unsigned_abs x ≤ 2 ^ 53 }
    { floor_of(KAPPA, x) };
    let kind = LawKind::Linear { kappa: KAPPA };
    let law = DelayLaw::new(down, kind, -(1 << 30), 1 << 53, 1);
    let other = DelayLaw::new(down, kind, -(1 << 30), 1 << 53, 1);
    let mut trial = trial_of(alloc, keys, law, other)?;
    runs(rt, &mut trial, &mut plan)
}

// Undisturbed; and the slave's first CALIBRATE is lost, and its LOCKED comes again. Both ports have the same words either way,
// and are judged at the end, as after each event.
#[test]
fn handshakes_of_two_nodes_are_judged(rt: HostRuntime) -> Result<(), Fail> {
    for is_disturbed in [false, true] {
        tries(&rt, rt.alloc(), "", Plan::handshake(is_disturbed))?;
    }
    Ok(())
}

#[test]
fn two_nodes_reach_track(rt: HostRuntime) -> Result<(), Fail> {
    for (free, off) in [(0, 196_608_000_000), (20_000, -80_000_000_000_123)] {
        tries(&rt, rt.alloc(), "", Plan::track(free, off, None))?;
    }
    Ok(())
}

// The stamps and tags of gm, and the stamps, tags and beat bits of sw1, are all the least or all the greatest.
#[test]
fn two_nodes_track_at_ends(rt: HostRuntime) -> Result<(), Fail> {
    for signs in [0, 0b1001, 0b1001_0010, 0b1001_1011] {
        let ends = Some(Ends {
            steady: true,
            signs,
        });
        tries(&rt, rt.alloc(), "", Plan::track(0, 196_608_000_000, ends))?;
    }
    Ok(())
}

#[test]
fn random_courses_of_three_nodes(rt: HostRuntime) -> Result<(), Fail> {
    for seed in 0..200 {
        tries(&rt, rt.alloc(), SOON_ON, Plan::faults(seed))?;
    }
    Ok(())
}

// Each kind of error is always at the same end.
#[test]
fn steady_errors_keep_bounds(rt: HostRuntime) -> Result<(), Fail> {
    for seed in 0..100 {
        tries(&rt, rt.alloc(), SOON_IN_TRACK, Plan::bounds(seed, true))?;
    }
    Ok(())
}

// Each error is at either end from dice.
#[test]
fn wavering_errors_keep_bounds(rt: HostRuntime) -> Result<(), Fail> {
    for seed in 0..100 {
        tries(&rt, rt.alloc(), SOON_IN_TRACK, Plan::bounds(seed, false))?;
    }
    Ok(())
}
