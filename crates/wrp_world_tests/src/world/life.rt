//! The life of one frame: what a world reports of it after each event of a run of gm and sw1 alone.
ghost use Rattle.std.specs.Prelude.{◌≤◌, ◌^◌, unsigned_abs};
ghost use Rattle.wrp_world.specs.StandsFor.{IsValid};

use arrayvec::ArrayVec;
use std::alloc::Global;
use std::process::Abort;
use std::test::Fail;
use wrp_base::Raw;
use wrp_law::{DelayLaw, LawKind, floor_of};
use wrp_trial::{KAPPA, Told, Trial, takes, trial_of};
use wrp_world::Event;

// So much time passes, and nothing moves.
fn pass(dt: i64) -> Event {
    let mut drifts = ArrayVec::new();
    drifts.push(0);
    drifts.push(0);
    drifts.push(0);
    let mut fibres = ArrayVec::new();
    fibres.push((0, 0));
    fibres.push((0, 0));
    Event::Pass { dt, drifts, fibres }
}

// A node comes up with true time.
fn up(node: u8) -> Event {
    Event::Up {
        node,
        off: 0,
        swaps: ArrayVec::new(),
    }
}

// The events, counted from 1: both nodes come up; 24 times 9 ms pass and both tick; the first frame of gm
// departs as it is put out, and arrives; 10 times more; true time is 100 ms after its departure, and it is
// handed over; 1 tau passes, and it is handed over again.
fn event(number: u32) -> Event {
    match number {
        1 => Event::Join {
            link: 0,
            ms: 0,
            sm: 0,
        },
        2 => up(1),
        3 => up(0),
        76 => Event::Depart {
            node: 0,
            port: 1,
            stamp: 65_536_014_155_776_000_000_000,
        },
        77 => pass(29_622_272_000),
        78 => Event::Arrive {
            frame: 1,
            raw: Raw {
                rising: 125_000_027_000_056,
                falling: 125_000_027_000_057,
                tag: 8192,
            },
        },
        109 => pass(655_330_377_728_000),
        110 | 112 => Event::Deliver { frame: 1 },
        111 => pass(1),
        _ => match number % 3 {
            1 => pass(589_824_000_000_000),
            2 => Event::Tick { node: 1 },
            _ => Event::Tick { node: 0 },
        },
    }
}

// What follows from an event: only the last one is refused, since the frame is older than 100 ms by 1 tau.
fn due(number: u32) -> Told {
    if number == 112 {
        Told::Broken(10, 6_553_600_000_000_001, 6_553_600_000_000_000)
    } else {
        Told::Taken
    }
}

// The frame is reported from its departure on, and no more once it is older than its life.
fn lives<F: Fn(i64) -> i64>(rt: &impl Abort, trial: &mut Trial<F>)
    requires valid { IsValid F.pre F.post trial.old.world }
    requires came { trial.old.world.plant.events ≤ trial.old.came }
{
    for number in 1..113 {
        assert_eq!(rt; takes(trial, &event(number)), due(number), "{number}");
        let is_kept = 76 <= number && number <= 110;
        let world = &trial.world;
        assert_eq!(rt; world.frame(1).is_some(), is_kept, "{number}");
        assert_eq!(rt; world.sender(1), is_kept.then_some((0, 1)), "{number}");
        assert_eq!(rt; world.kept(), usize::from(is_kept), "{number}");
    }
}

fn lives_in(rt: &impl Abort, alloc: Global) -> Result<(), Fail> {
    let down = |x: i64|
        requires { unsigned_abs x ≤ 2 ^ 53 }
    { floor_of(KAPPA, x) };
    let kind = LawKind::Linear { kappa: KAPPA };
    let law = DelayLaw::new(down, kind, -(1 << 30), 1 << 53, 1);
    let other = DelayLaw::new(down, kind, -(1 << 30), 1 << 53, 1);
    let mut trial = trial_of(alloc, "", law, other)?;
    lives(rt, &mut trial);
    Ok(())
}

#[test]
fn a_frame_is_told_of_for_its_life(rt: HostRuntime) -> Result<(), Fail> {
    lives_in(&rt, rt.alloc())
}
