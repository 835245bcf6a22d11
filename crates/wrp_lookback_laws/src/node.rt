//! Drops at a node, over the list of its inputs. The function here computes nothing: its contract is the law.
ghost use Rattle.wrp_lookback_laws.specs.Drops.{DropsOnlyCount};

use wrp_node::{dropped_leaves_a_count, step_settles};

/// After every list of inputs, a frame that is no message, or whose message is dropped whatever its kind
/// (reasons 1 to 12), raises one counter of its port. Nothing else changes, and nothing is put out.
pub fn drops_only_count()
    ensures { DropsOnlyCount }
{
    dropped_leaves_a_count();
    step_settles();
}
