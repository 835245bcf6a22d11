//! What the track lines of each node of a simulation show.
ghost use Rattle.std.specs.Prelude.{◌≡◌, ◌<◌, ◌++◌, ◌∷◌, [], ℕ, ℤ, List, IfOk, filter, length, map};
ghost use Rattle.std.specs.List.{AllByRecursion};
ghost use Rattle.wrp_network.specs.Network.{node_count};
ghost use Rattle.wrp_course.specs.declared.node_out.NodeOut.{NodeOut};
ghost use Rattle.wrp_course.specs.Setting.{Setting};
ghost use Rattle.wrp_world.specs.StandsFor.{IsValid, StandsFor};
ghost use Rattle.wrp_world.specs.Step.{step_seen};
ghost use Rattle.wrp_course.specs.WorldAt.{WorldAt};
ghost use Rattle.wrp_simulate.specs.SimStands.{AreTotals, IsTotal};
ghost use Rattle.wrp_simulate.specs.SimText.{is_track, offsets_in};

use std::alloc::{AllocError, Global};
use wrp_base::Tau;
use wrp_node::{Output, Report};
use wrp_world::{NodeOut, World};

/// What the track lines of a node show.
#[derive(Clone, Copy)]
pub struct Total {
    /// How many there are.
    pub tracks: u64,
    /// The greatest distance of the true offset from 0 at one of them, in tau.
    pub worst: u128,
}

impl Total {
    /// Before any track line.
    pub fn new() -> Total
        ensures { IsTotal [] result }
    {
        Total {
            tracks: 0,
            worst: 0,
        }
    }

    // With one more track line, at this true offset.
    fn with(self, off: Tau) -> Total
        ensures { (offs : List ℤ) → IsTotal offs self → IsTotal (off ∷ offs) result }
    {
        Total {
            tracks: self.tracks.saturating_add(1),
            worst: self.worst.max(off.unsigned_abs()),
        }
    }

    // With the track lines among these outputs, at this true offset.
    fn with_all(self, off: Tau, outs: &[Output]) -> Total
        ensures { (offs : List ℤ) → IsTotal offs self
            → IsTotal (map (λ o. off) (filter is_track outs.now) ++ offs) result }
    {
        let mut total = self;
        for out in outs {
            if is_track(out) {
                total = total.with(off);
            }
        }
        total
    }
}

// Whether an output is a report of TRACK.
fn is_track(out: &Output) -> bool
    ensures { result ≡ is_track out.now }
{
    match out {
        Output::Report(Report::Track { .. }) => true,
        _ => false,
    }
}

/// The totals of so many nodes, before any line. `AllocError` if memory runs out.
pub fn no_totals(alloc: Global, count: u8) -> Result<Vec<Total>, AllocError>
    ensures count { IfOk result (λ totals. length totals.items ≡ count) }
    ensures each { IfOk result (λ totals. AreTotals (λ n. []) totals.items) }
{
    let mut totals = Vec::with_capacity(alloc, usize::from(count))?;
    for _node in 0..count {
        totals.push(Total::new())?;
    }
    Ok(totals)
}

/// Adds the track lines among what these steps put out in an event that led to this world.
pub fn add_tracks<F: Fn(i64) -> i64>(world: &World<F>, outs: &[NodeOut], totals: &mut Vec<Total>)
    requires valid { IsValid F.pre F.post world.now }
    requires nodes { AllByRecursion (λ (out : NodeOut).
        out.node < node_count world.now.plant.net.cfg) outs.now }
    requires count { length totals.old.items ≡ node_count world.now.plant.net.cfg }
    ensures count { length totals.new.items ≡ length totals.old.items }
    ensures each { (s : Setting) (w : WorldAt) → StandsFor F.post s w world.now
        → (offs : ℕ → List ℤ) → AreTotals offs totals.old.items
        → AreTotals (λ n. offsets_in w n (map step_seen outs.now) ++ offs n) totals.new.items }
{
    for out in outs {
        let at = usize::from(out.node);
        totals[at] = totals[at].with_all(world.off(out.node), &out.outs);
    }
}
