//! The network that a text describes: its numbers, and its nodes.
ghost use Rattle.std.specs.Prelude.{◌≡◌, ◌≤◌, ◌<◌, true, map, length, codes, option_copied};
ghost use Rattle.std.specs.List.{list_all};
ghost use Rattle.toml.specs.View.{view, table_view};
ghost use Rattle.wrp_caldb.specs.Rows.{tables_at};
ghost use Rattle.wrp_caldb.specs.Database.{each_table, natural_at, number_at, database_of};
ghost use Rattle.wrp_caldb.specs.Name.{is_hex_digit};
ghost use Rattle.wrp_network_text.specs.Config.{hex_value, hex_number, identity_of, node_of, IsNetworkOf};
ghost use Rattle.wrp_config.specs.Same.{bare_node};
ghost use Rattle.wrp_network_text.specs.Keys.{network_in, key_of, beat_key};
ghost use Rattle.wrp_network_text.specs.Places.{IsTaken};
ghost use Rattle.wrp_network_text.specs.declared.settings.NetworkKey.TheVariants as se;

use crate::ends::text_at;
use crate::greatest::Greatest;
use crate::keys::{beat_row, clock_in, e_tag_row, e_tx_row, held_row, slew_row};
use crate::links::links_of;
use crate::settings::NetworkKey;
use arrayvec::ArrayVec;
use toml::{Table, Value};
use wrp_base::Clock;
use wrp_caldb::{Lists, is_identity};
use wrp_calibration_text::{name_at, natural, number, tables_at};
use wrp_network::{NetCfg, NodeCfg};

fn hex_value(octet: u8) -> u64
    requires { is_hex_digit octet ≡ true }
    ensures value { result ≡ hex_value octet }
    ensures size { result < 16 }
{
    if octet <= b'9' {
        u64::from(octet - b'0')
    } else {
        u64::from(octet - 87)
    }
}

// The number that hex digits spell.
fn hex_number(digits: &[u8]) -> u64
    requires digits { list_all is_hex_digit digits.now ≡ true }
    requires count { length digits.now ≡ 16 }
    ensures { result ≡ hex_number digits.now }
{
    let mut number = 0;
    for digit in digits {
        number = 16 * number + hex_value(*digit);
    }
    number
}

// The identity that a text spells; 0 if it spells none.
fn identity_of(text: Option<&str>) -> u64
    ensures { result ≡ identity_of (option_copied text.entry) }
{
    match text {
        Some(text) => {
            if is_identity(text) {
                hex_number(text.as_bytes())
            } else {
                0
            }
        }
        None => 0,
    }
}

// How far the edge may flicker.
fn beat(node: &Table) -> u16
    ensures { result ≡ natural_at beat_key (table_view node.now) }
{
    natural(node, &beat_row()) as u16
}

// A node.
fn node_of(clock: Clock, node: &Table) -> NodeCfg
    ensures { bare_node result ≡ node_of clock (table_view node.now) }
{
    NodeCfg {
        name: name_at(node),
        identity: identity_of(text_at("identity", node)),
        e_tx: natural(node, &e_tx_row()),
        e_tag: natural(node, &e_tag_row(clock)),
        beat: beat(node),
        slew: natural(node, &slew_row()),
        held: natural(node, &held_row()),
    }
}

// The nodes.
fn nodes_of(clock: Clock, nodes: &[Value]) -> ArrayVec<NodeCfg, 64>
    requires { length nodes.now ≤ 64 }
    ensures { map bare_node result.items ≡ each_table (node_of clock) (map view nodes.now) }
{
    let mut all = ArrayVec::new();
    for value in nodes {
        if let Some(node) = value.as_table() {
            all.push(node_of(clock, node));
        }
    }
    all
}

// A number of `network`.
fn setting(network: &Table, setting: NetworkKey) -> i64
    ensures { result ≡ number_at (key_of setting) (table_view network.now) }
{
    number(network, &setting.row())
}

// The numbers of a slave: of its samples and of its loop. The others are zeros.
fn servo_numbers(network: &Table) -> NetCfg
    ensures ring { result.ring ≡ number_at (key_of se.Ring) (table_view network.now) }
    ensures track_tau { result.track_tau ≡ number_at (key_of se.TrackTau) (table_view network.now) }
    ensures loop_tau { result.loop_tau ≡ number_at (key_of se.LoopTau) (table_view network.now) }
    ensures phase_step { result.phase_step
        ≡ number_at (key_of se.PhaseStep) (table_view network.now) }
    ensures kp { result.kp ≡ number_at (key_of se.Kp) (table_view network.now) }
    ensures ki { result.ki ≡ number_at (key_of se.Ki) (table_view network.now) }
    ensures bias { result.bias ≡ number_at (key_of se.Bias) (table_view network.now) }
    ensures threshold { result.threshold
        ≡ number_at (key_of se.Threshold) (table_view network.now) }
    ensures lock_samples { result.lock_samples
        ≡ number_at (key_of se.LockSamples) (table_view network.now) }
    ensures delock_samples { result.delock_samples
        ≡ number_at (key_of se.DelockSamples) (table_view network.now) }
    ensures stable { result.stable ≡ number_at (key_of se.Stable) (table_view network.now) }
    ensures report { result.report ≡ number_at (key_of se.Report) (table_view network.now) }
{
    NetCfg {
        ring: setting(network, NetworkKey::Ring),
        track_tau: setting(network, NetworkKey::TrackTau),
        loop_tau: setting(network, NetworkKey::LoopTau),
        phase_step: setting(network, NetworkKey::PhaseStep),
        kp: setting(network, NetworkKey::Kp),
        ki: setting(network, NetworkKey::Ki),
        bias: setting(network, NetworkKey::Bias),
        threshold: setting(network, NetworkKey::Threshold),
        lock_samples: setting(network, NetworkKey::LockSamples),
        delock_samples: setting(network, NetworkKey::DelockSamples),
        stable: setting(network, NetworkKey::Stable),
        report: setting(network, NetworkKey::Report),
        ..NetCfg::default()
    }
}

// The network of a text whose tables are taken.
fn gathered(doc: &Table, network: &Table, lists: &Lists) -> NetCfg
    requires network { table_view network.now ≡ network_in (table_view doc.now) }
    requires lists { lists.now ≡ database_of (table_view doc.now) }
    requires nodes { length (tables_at (codes "node") (table_view doc.now)) ≤ 64 }
    requires links { length (tables_at (codes "link") (table_view doc.now)) ≤ 63 }
    ensures { IsNetworkOf (table_view doc.now) result }
{
    let clock = clock_in(doc, network);
    let nodes = tables_at(doc, "node");
    let greatest = Greatest::of_lists(lists);
    NetCfg {
        epoch: setting(network, NetworkKey::Epoch),
        domain: setting(network, NetworkKey::Domain),
        dmin_ns: setting(network, NetworkKey::DminNs),
        dmax_ns: setting(network, NetworkKey::DmaxNs),
        life_ns: setting(network, NetworkKey::LifeNs),
        reach_ns: setting(network, NetworkKey::ReachNs),
        quiet: setting(network, NetworkKey::Quiet),
        holdover: setting(network, NetworkKey::Holdover),
        wait: setting(network, NetworkKey::Wait),
        lock_wait: setting(network, NetworkKey::LockWait),
        holdoff: setting(network, NetworkKey::Holdoff),
        lease: setting(network, NetworkKey::Lease),
        age: setting(network, NetworkKey::Age),
        retries: setting(network, NetworkKey::Retries),
        gap: setting(network, NetworkKey::Gap),
        announce: setting(network, NetworkKey::Announce),
        sync: setting(network, NetworkKey::Sync),
        delay: setting(network, NetworkKey::Delay),
        clock,
        nodes: nodes_of(clock, nodes),
        links: links_of(nodes, lists, tables_at(doc, "link")),
        e_db: greatest.err,
        tx_max: greatest.tx,
        rx_max: greatest.rx,
        ..servo_numbers(network)
    }
}

/// The network of a text whose tables are taken. `network` is the table `network` of the text, and
/// `lists` are its modules and fibres.
#[inline(never)]
pub fn network_of(doc: &Table, network: &Table, lists: &Lists) -> NetCfg
    requires network { table_view network.now ≡ network_in (table_view doc.now) }
    requires lists { lists.now ≡ database_of (table_view doc.now) }
    requires taken { IsTaken (table_view doc.now) }
    ensures { IsNetworkOf (table_view doc.now) result }
{
    gathered(doc, network, lists)
}
