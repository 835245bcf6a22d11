//! The replay of a node over the records that a reader gives.
ghost use Rattle.std.specs.Prelude.{◌≡◌, ◌≤ℤ◌, ◌<◌, [], true, is_some};
ghost use Rattle.std.specs.Io.KnownBytes.{IsAtEnd};
ghost use Rattle.wrp_network.specs.Network.{link_above, node_count};
ghost use Rattle.wrp_config.specs.Accepted.{IsAccepted};
ghost use Rattle.wrp_law.specs.Law.{IsNear, KeepsFact};
ghost use Rattle.wrp_law.specs.LinkLaw.{IsSound, down_of, error_of, kind_of, least_of, most_of};
ghost use Rattle.wrp_records.specs.ByLines.{of_lines};
ghost use Rattle.wrp_records.specs.Passages.{Passes, passage};
ghost use Rattle.wrp_replay.specs.DownLaw.{AnswersBy, greatest_over, law_at, least_over};
ghost use Rattle.wrp_replay.specs.Replays.{meaning_of};
ghost use Rattle.wrp_replay.specs.StandsFor.{line_setting_at};

use crate::law::{asked, kept_if, law_above};
use crate::replayed::Replayed;
use crate::replayed_node::ReplayedNode;
use std::alloc::Global;
use wrp_io::{Sink, Source};
use wrp_law::DelayLaw;
use wrp_records::{Reader, Status, run_lines};

// Replays the records that a reader gives with a law: the law of the link above the node if there is
// such a link, otherwise a law that nobody asks.
fn replay_by<F: Fn(i64) -> i64, S: Source, K: Sink>(
    alloc: Global,
    replayed: Replayed<'_>,
    has_law: bool,
    law: DelayLaw<F>,
    reader: &mut Reader,
    source: &mut S,
    sink: &mut K,
) -> Status
    requires at_end { reader.old.ended ≡ true → IsAtEnd (S.left source.old) }
    requires accepted { IsAccepted replayed.net.now.cfg replayed.net.now.db }
    requires node { replayed.node < node_count replayed.net.now.cfg }
    requires has_law { has_law ≡ is_some (link_above replayed.net.now.cfg replayed.node) }
    requires fact { KeepsFact F.pre F.post law }
    requires least { has_law ≡ true → law.lo
        ≡ least_over replayed.net.now.db (link_above replayed.net.now.cfg replayed.node) }
    requires greatest { has_law ≡ true → law.hi
        ≡ greatest_over replayed.net.now.db (link_above replayed.net.now.cfg replayed.node) }
    requires answers { has_law ≡ true → AnswersBy F.post (law_at (line_setting_at replayed)) law }
    ensures passes { Passes (of_lines (meaning_of (line_setting_at replayed.entry)))
        (passage S.left S.faults source.old source.new) (passage K.held K.faults sink.old sink.new)
        reader.old.rest reader.old.ended reader.new.ended [] result }
{
    match ReplayedNode::new(alloc, replayed, kept_if(has_law, law)) {
        Ok(mut machine) => run_lines(alloc, &mut machine, reader, source, sink),
        Err(_) => Status::OutOfMemory,
    }
}

/// Replays the node over the records that a reader gives. The law of the link above it is a closure, which is made
/// here.
pub fn replay<S: Source, K: Sink>(
    alloc: Global,
    replayed: Replayed<'_>,
    reader: &mut Reader,
    source: &mut S,
    sink: &mut K,
) -> Status
    requires at_end { reader.old.ended ≡ true → IsAtEnd (S.left source.old) }
    requires accepted { IsAccepted replayed.net.now.cfg replayed.net.now.db }
    requires node { replayed.node < node_count replayed.net.now.cfg }
    ensures passes { Passes (of_lines (meaning_of (line_setting_at replayed.entry)))
        (passage S.left S.faults source.old source.new) (passage K.held K.faults sink.old sink.new)
        reader.old.rest reader.old.ended reader.new.ended [] result }
{
    let above = law_above(replayed);
    let link = asked(above);
    let law = DelayLaw::new(
        move |x: i64|
            requires sound { IsSound link }
            requires lo { least_of link ≤ℤ x }
            requires hi { x ≤ℤ most_of link }
            // The floor of the fraction, or the table's value if the link has a table.
            ensures down { result ≡ down_of link.entry x }
            ensures near { IsNear (kind_of link.entry) (error_of link.entry) x result }
        { link.down(x) },
        link.kind(),
        link.lo(),
        link.hi(),
        link.err(),
    );
    let has_law = above.is_some();
    replay_by(alloc, replayed, has_law, law, reader, source, sink)
}
