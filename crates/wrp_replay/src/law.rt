//! The delay law of the link above a node, as the network and its database give it.
ghost use Rattle.std.specs.Prelude.{◌≡◌, if◌then◌else◌, None, Some, IfSome, is_some};
ghost use Rattle.wrp_network.specs.Network as network;
ghost use Rattle.wrp_config.specs.Accepted.{IsAccepted};
ghost use Rattle.wrp_law.specs.LinkLaw.{IsSound};
ghost use Rattle.wrp_replay.specs.LinkLaw.{IsLawOver};

use crate::replayed::Replayed;
use wrp_law::{DelayLaw, LinkLaw};
use wrp_network::{LinkCfg, link_above};

// The law of a link: the law of its fibre's table, if it has one.
fn law_of<'a>(replayed: Replayed<'a>, link: &LinkCfg) -> LinkLaw<'a>
    requires accepted { IsAccepted replayed.net.now.cfg replayed.net.now.db }
    requires link { network.link_above replayed.net.now.cfg replayed.node ≡ Some link.now }
    ensures { IsLawOver replayed.entry.net.now.db (Some link.now) result }
{
    let kappa = link.kappa;
    match replayed.net.db.table(link.fibre.as_str()) {
        Some((points, table_err)) => LinkLaw::Table {
            kappa,
            points,
            table_err,
        },
        None => LinkLaw::Fraction { kappa },
    }
}

/// The law of the link above the node. None for the node that gives the time.
pub fn law_above<'a>(replayed: Replayed<'a>) -> Option<LinkLaw<'a>>
    requires { IsAccepted replayed.net.now.cfg replayed.net.now.db }
    ensures some { is_some result
        ≡ is_some (network.link_above replayed.entry.net.now.cfg replayed.entry.node) }
    ensures law { IfSome result (IsLawOver replayed.entry.net.now.db
        (network.link_above replayed.entry.net.now.cfg replayed.entry.node)) }
{
    match link_above(&replayed.net.cfg, replayed.node) {
        Some(link) => Some(law_of(replayed, link)),
        None => None,
    }
}

/// The law of the link above, or a law that nobody asks if there is none.
pub fn asked<'a>(above: Option<LinkLaw<'a>>) -> LinkLaw<'a>
    requires { IfSome above IsSound }
    ensures sound { IsSound result }
    ensures same { IfSome above.entry (λ law. result ≡ law) }
{
    match above {
        Some(law) => law,
        None => LinkLaw::Fraction { kappa: 0 },
    }
}

/// A law if there is one to keep. None if and only if there is none to keep.
pub fn kept_if<F: Fn(i64) -> i64>(has_law: bool, law: DelayLaw<F>) -> Option<DelayLaw<F>>
    ensures { result ≡ (if has_law then Some law else None) }
{
    if has_law { Some(law) } else { None }
}
