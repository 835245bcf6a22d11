//! A frame that arrives next goes over the link.
ghost use Rattle.std.specs.Prelude.{◌≡◌, ◌≤◌, IfOk, OnErr, OnOk, length};
ghost use Rattle.wrp_io.specs.Faults.{Rose};
ghost use Rattle.wrp_loop.specs.LoopStands.{CutOffBy, ExchangedBy, SomeFlies};
ghost use Rattle.wrp_world.specs.StandsFor.{IsValid};

use crate::arrival::{Taken, exchange};
use crate::routes::{Route, route_of};
use wrp_io::{Failed, Link};
use wrp_world::World;

/// The way of a frame, and the datagrams that were taken at the end where it arrives.
#[derive(Drop)]
pub struct Crossing {
    /// Its way.
    pub route: Route,
    /// The datagrams.
    pub got: Taken,
}

/// Sends the octets of a frame that is on its fibre as a datagram, and takes what then waits at the
/// end where the frame arrives. `Failed` if a call of the link failed: its count of faults rose,
/// and the calls before the failed one were answered.
pub fn cross<F: Fn(i64) -> i64, N: Link>(
    world: &World<F>,
    link: &mut N,
    number: u32,
) -> Result<Crossing, Failed>
    requires valid { IsValid F.pre F.post world.now }
    requires flies { SomeFlies F.post world.now number }
    ensures most { IfOk result (λ crossing. length crossing.got.items ≤ 16) }
    ensures calls { IfOk result (λ crossing. ExchangedBy F.post world.now number crossing.route
        crossing.got.items (N.told link.old) (N.told link.new)) }
    ensures cut { OnErr result (CutOffBy F.post world.now number (N.told link.old)
        (N.told link.new)) }
    ensures rose { OnErr result (Rose (N.faults link.old) (N.faults link.new)) }
    ensures kept { OnOk result (N.faults link.new ≡ N.faults link.old) }
{
    let route = match route_of(world, number) {
        Some(route) => route,
        None => unreachable!(),
    };
    let octets = match world.frame(number) {
        Some(octets) => octets,
        None => unreachable!(),
    };
    let got = exchange(link, route.from, route.to, octets)?;
    Ok(Crossing { route, got })
}
