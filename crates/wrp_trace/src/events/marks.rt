//! The further fields of a `pass`, written into a place where its changes remain: NODE=DRIFT and
//! LINK=MS/SM.
ghost use Rattle.std.specs.Prelude.{◌≡◌, ◌<◌, ◌≤◌, pos, IfSome, Some, length, map, drop, slice_set, true, false};
ghost use Rattle.csv.specs.Records.{fields_of};
ghost use Rattle.wrp_network.specs.Network.{node_count};
ghost use Rattle.wrp_caldb.specs.Name.{same_name};
ghost use Rattle.wrp_config.specs.Names.{node_named, link_named};
ghost use Rattle.wrp_course.specs.EventAt.{link_count};
ghost use Rattle.wrp_trace.specs.Changes.{nothing_said, change_in, move_in, change_said, changes_said, outcome};
ghost use Rattle.wrp_trace.specs.Places.{AreClocks, AreFibres, FindsEach, FindsLinks, FindsNodes, IsPassing, NoneMarked, OnlyDrifts, OnlyMoves, RestsAt, StandsFor, drifts_in, is_marked, moves_in, said_also, said_by, said_in, said_then, span_in};

use super::changes::{change_in, move_in, place_of};
use super::names::parts_at;
use arrayvec::ArrayVec;
use csv::ByteRecord;
use wrp_base::TraceFault;
use wrp_course::Event;
use wrp_fields::{field, name_fault, number_fault};
use wrp_names::{link_named, node_named};
use wrp_network::{LinkCfg, Name, NetCfg, NodeCfg};

/// How far each node's clock moves away from true time, in tau.
pub type Drifts = ArrayVec<i64, 64>;

/// How far the delays of each link's fibre move, down and up, in tau.
pub type Moves = ArrayVec<(i64, i64), 63>;

/// The nodes and links of a network of which a `pass` says something so far, and the node and the link
/// that follow those named last.
#[derive(Debug, Drop)]
pub struct Marks {
    nodes: ArrayVec<bool, 64>,
    links: ArrayVec<bool, 63>,
    next_node: usize,
    next_link: usize,
    // Whether a search for the name of each node and each link finds it. If so, the next one may be tried first.
    apart: bool,
}

/// What a name stands for.
#[derive(Clone, Copy)]
pub enum Named {
    /// A node.
    Node(u8),
    /// A link.
    Link(u8),
    /// Neither.
    Nothing,
}

// No mark at any of these nodes.
fn unmarked_nodes(nodes: &[NodeCfg]) -> ArrayVec<bool, 64>
    requires { length nodes.now ≤ 64 }
    ensures { result.items ≡ map (λ node. false) nodes.now }
{
    let mut marks = ArrayVec::new();
    for _node in nodes {
        marks.push(false);
    }
    marks
}

// No mark at any of these links.
fn unmarked_links(links: &[LinkCfg]) -> ArrayVec<bool, 63>
    requires { length links.now ≤ 63 }
    ensures { result.items ≡ map (λ link. false) links.now }
{
    let mut marks = ArrayVec::new();
    for _link in links {
        marks.push(false);
    }
    marks
}

/// No clock of these nodes moves away from true time.
pub fn still_clocks(nodes: &[NodeCfg]) -> Drifts
    requires { length nodes.now ≤ 64 }
    ensures { result.items ≡ map (λ node. pos 0) nodes.now }
{
    let mut drifts = Drifts::new();
    for _node in nodes {
        drifts.push(0);
    }
    drifts
}

/// No fibre of these links moves.
pub fn still_fibres(links: &[LinkCfg]) -> Moves
    requires { length links.now ≤ 63 }
    ensures { result.items ≡ map (λ link. (pos 0, pos 0)) links.now }
{
    let mut moves = Moves::new();
    for _link in links {
        moves.push((0, 0));
    }
    moves
}

// Whether the node or link with this number is marked.
fn is_marked(marks: &[bool], n: u8) -> bool
    requires { n < length marks.now }
    ensures { result ≡ is_marked marks.now n }
{
    marks[usize::from(n)]
}

// Whether a name is this.
fn has_text(own: &Name, name: &[u8]) -> bool
    ensures { result ≡ same_name own.now.bytes name.now }
{
    own.as_str().as_bytes() == name
}

// What a name stands for.
fn by_name(cfg: &NetCfg, name: &[u8]) -> Named
    ensures { StandsFor cfg.now name.now result }
{
    match node_named(cfg, name) {
        Some(n) => Named::Node(n),
        None => match link_named(cfg, name) {
            Some(l) => Named::Link(l),
            None => Named::Nothing,
        },
    }
}

// Whether a search for the name of each node finds it.
fn finds_nodes(cfg: &NetCfg) -> bool
    ensures { result ≡ true → FindsNodes cfg.now }
{
    for at in 0..cfg.nodes.len() {
        match by_name(cfg, cfg.nodes[at].name.as_str().as_bytes()) {
            Named::Node(n) if usize::from(n) == at => {}
            _ => return false,
        }
    }
    true
}

// Whether a search for the name of each link finds it.
fn finds_links(cfg: &NetCfg) -> bool
    ensures { result ≡ true → FindsLinks cfg.now }
{
    for at in 0..cfg.links.len() {
        match by_name(cfg, cfg.links[at].name.as_str().as_bytes()) {
            Named::Link(l) if usize::from(l) == at => {}
            _ => return false,
        }
    }
    true
}

// Whether a search for the name of each finds it.
fn finds_each(cfg: &NetCfg) -> bool
    ensures { result ≡ true → FindsEach cfg.now }
{
    finds_nodes(cfg) && finds_links(cfg)
}

// The node with this number, if it has this name.
#[tactic(auto, using(crate::proofs::PlaceNames::next_node_is))]
fn node_here(cfg: &NetCfg, at: usize, name: &[u8]) -> Option<u8>
    requires { FindsEach cfg.now }
    ensures { IfSome result (λ n. StandsFor cfg.now name.now (Named.Node n)) }
{
    if at < cfg.nodes.len() && has_text(&cfg.nodes[at].name, name) {
        Some(at as u8)
    } else {
        None
    }
}

// The link with this number, if it has this name.
#[tactic(auto, using(crate::proofs::PlaceNames::next_link_is))]
fn link_here(cfg: &NetCfg, at: usize, name: &[u8]) -> Option<u8>
    requires { FindsEach cfg.now }
    ensures { IfSome result (λ l. StandsFor cfg.now name.now (Named.Link l)) }
{
    if at < cfg.links.len() && has_text(&cfg.links[at].name, name) {
        Some(at as u8)
    } else {
        None
    }
}

// A drift of a `pass` becomes this.
#[tactic(auto, using(crate::proofs::PlaceParts::no_drift_there))]
fn write_drift(event: &mut Event, n: usize, drift: i64)
    requires { n < length (drifts_in event.old) }
    ensures set { drifts_in event.new ≡ slice_set (drifts_in event.old) n drift }
    ensures only { OnlyDrifts event.old event.new }
{
    match event {
        Event::Pass { drifts, .. } => drifts[n] = drift,
        _ => {}
    }
}

// A move of a `pass` becomes this.
#[tactic(auto, using(crate::proofs::PlaceParts::no_move_there))]
fn write_move(event: &mut Event, l: usize, moving: (i64, i64))
    requires { l < length (moves_in event.old) }
    ensures set { moves_in event.new ≡ slice_set (moves_in event.old) l moving }
    ensures only { OnlyMoves event.old event.new }
{
    match event {
        Event::Pass { fibres, .. } => fibres[l] = moving,
        _ => {}
    }
}

// The node or link with this number is marked, or is not.
fn set_mark<const N: usize>(marks: &mut ArrayVec<bool, N>, n: usize, mark: bool)
    requires { n < length marks.old.items }
    ensures { marks.new.items ≡ slice_set marks.old.items n mark }
{
    marks[n] = mark;
}

// The clock with this number is not marked, and does not move.
fn forget_drift(marks: &mut ArrayVec<bool, 64>, event: &mut Event, n: usize)
    requires marks { n < length marks.old.items }
    requires drifts { n < length (drifts_in event.old) }
    requires rest { RestsAt (pos 0) marks.old.items (drifts_in event.old) }
    ensures marks { marks.new.items ≡ slice_set marks.old.items n false }
    ensures drifts { length (drifts_in event.new) ≡ length (drifts_in event.old) }
    ensures rest { RestsAt (pos 0) marks.new.items (drifts_in event.new) }
    ensures only { OnlyDrifts event.old event.new }
{
    if marks[n] {
        set_mark(marks, n, false);
        write_drift(event, n, 0);
    }
}

// The same for a fibre.
fn forget_move(marks: &mut ArrayVec<bool, 63>, event: &mut Event, l: usize)
    requires marks { l < length marks.old.items }
    requires moves { l < length (moves_in event.old) }
    requires rest { RestsAt (pos 0, pos 0) marks.old.items (moves_in event.old) }
    ensures marks { marks.new.items ≡ slice_set marks.old.items l false }
    ensures moves { length (moves_in event.new) ≡ length (moves_in event.old) }
    ensures rest { RestsAt (pos 0, pos 0) marks.new.items (moves_in event.new) }
    ensures only { OnlyMoves event.old event.new }
{
    if marks[l] {
        set_mark(marks, l, false);
        write_move(event, l, (0, 0));
    }
}

// No clock is marked, and none moves: only what was marked is written.
fn forget_drifts(marks: &mut ArrayVec<bool, 64>, event: &mut Event)
    requires same { length (drifts_in event.old) ≡ length marks.old.items }
    requires rest { RestsAt (pos 0) marks.old.items (drifts_in event.old) }
    ensures none { NoneMarked marks.new.items }
    ensures marks { length marks.new.items ≡ length marks.old.items }
    ensures drifts { length (drifts_in event.new) ≡ length (drifts_in event.old) }
    ensures rest { RestsAt (pos 0) marks.new.items (drifts_in event.new) }
    ensures only { OnlyDrifts event.old event.new }
{
    for n in 0..marks.len() {
        forget_drift(marks, event, n);
    }
}

// The same for the fibres.
fn forget_moves(marks: &mut ArrayVec<bool, 63>, event: &mut Event)
    requires same { length (moves_in event.old) ≡ length marks.old.items }
    requires rest { RestsAt (pos 0, pos 0) marks.old.items (moves_in event.old) }
    ensures none { NoneMarked marks.new.items }
    ensures marks { length marks.new.items ≡ length marks.old.items }
    ensures moves { length (moves_in event.new) ≡ length (moves_in event.old) }
    ensures rest { RestsAt (pos 0, pos 0) marks.new.items (moves_in event.new) }
    ensures only { OnlyMoves event.old event.new }
{
    for l in 0..marks.len() {
        forget_move(marks, event, l);
    }
}

impl Marks {
    /// Nothing is said of any node or link.
    pub fn new(cfg: &NetCfg) -> Marks
        ensures nodes { result.nodes.items ≡ map (λ node. false) cfg.now.nodes.items }
        ensures links { result.links.items ≡ map (λ link. false) cfg.now.links.items }
        ensures found { result.apart ≡ true → FindsEach cfg.now }
    {
        Marks {
            nodes: unmarked_nodes(&cfg.nodes),
            links: unmarked_links(&cfg.links),
            next_node: 0,
            next_link: 0,
            apart: finds_each(cfg),
        }
    }

    // Nothing is said of any node or link, and nothing changes.
    fn forget(&mut self, cfg: &NetCfg, event: &mut Event)
        requires passing { IsPassing cfg.now self.old event.old }
        ensures none { said_by self.new (drifts_in event.new) (moves_in event.new) ≡ nothing_said cfg.now }
        ensures passing { IsPassing cfg.now self.new event.new }
        ensures span { span_in event.new ≡ span_in event.old }
    {
        let _any = cfg;
        forget_drifts(&mut self.nodes, event);
        forget_moves(&mut self.links, event);
        self.next_node = 0;
        self.next_link = 0;
    }

    // What a name stands for. Names are mostly in file order: those that follow the names found last are
    // tried first, and then all. The node after the next is tried too, since a node whose clock does not
    // move, such as the grandmaster, is not named.
    fn find(&self, cfg: &NetCfg, name: &[u8]) -> Named
        requires { self.now.apart ≡ true → FindsEach cfg.now }
        ensures { StandsFor cfg.now name.now result }
    {
        if !self.apart {
            return by_name(cfg, name);
        }
        if let Some(n) = node_here(cfg, self.next_node, name) {
            return Named::Node(n);
        }
        if let Some(n) = node_here(cfg, self.next_node.saturating_add(1), name) {
            return Named::Node(n);
        }
        if let Some(l) = link_here(cfg, self.next_link, name) {
            return Named::Link(l);
        }
        by_name(cfg, name)
    }

    // Says a drift of a node.
    fn put_drift(&mut self, n: u8, drift: i64, event: &mut Event)
        requires marks { n < length self.old.nodes.items }
        requires drifts { n < length (drifts_in event.old) }
        requires rest { RestsAt (pos 0) self.old.nodes.items (drifts_in event.old) }
        ensures said { said_in self.new.nodes.items (drifts_in event.new)
            ≡ slice_set (said_in self.old.nodes.items (drifts_in event.old)) n (Some drift) }
        ensures clocks { AreClocks self.old self.new event.old event.new }
    {
        write_drift(event, usize::from(n), drift);
        set_mark(&mut self.nodes, usize::from(n), true);
        self.next_node = usize::from(n) + 1;
    }

    // Says a move of a link's fibre.
    fn put_move(&mut self, l: u8, moving: (i64, i64), event: &mut Event)
        requires marks { l < length self.old.links.items }
        requires moves { l < length (moves_in event.old) }
        requires rest { RestsAt (pos 0, pos 0) self.old.links.items (moves_in event.old) }
        ensures said { said_in self.new.links.items (moves_in event.new)
            ≡ slice_set (said_in self.old.links.items (moves_in event.old)) l (Some moving) }
        ensures fibres { AreFibres self.old self.new event.old event.new }
    {
        write_move(event, usize::from(l), moving);
        set_mark(&mut self.links, usize::from(l), true);
        self.next_link = usize::from(l) + 1;
    }

    // NODE=DRIFT.
    fn take_drift(
        &mut self,
        place: u32,
        n: u8,
        text: &[u8],
        event: &mut Event,
    ) -> Result<(), TraceFault>
        requires place { 0 < place }
        requires marks { n < length self.old.nodes.items }
        requires drifts { n < length (drifts_in event.old) }
        requires rest { RestsAt (pos 0) self.old.nodes.items (drifts_in event.old) }
        ensures value { said_then result (said_in self.new.nodes.items (drifts_in event.new))
            ≡ said_also place (said_in self.old.nodes.items (drifts_in event.old)) n (change_in text.now) }
        ensures clocks { AreClocks self.old self.new event.old event.new }
    {
        if is_marked(&self.nodes, n) {
            return Err(name_fault(place));
        }
        match change_in(text) {
            Some(drift) => {
                self.put_drift(n, drift, event);
                Ok(())
            }
            None => Err(number_fault(place)),
        }
    }

    // LINK=MS/SM.
    fn take_move(
        &mut self,
        place: u32,
        l: u8,
        text: &[u8],
        event: &mut Event,
    ) -> Result<(), TraceFault>
        requires place { 0 < place }
        requires marks { l < length self.old.links.items }
        requires moves { l < length (moves_in event.old) }
        requires rest { RestsAt (pos 0, pos 0) self.old.links.items (moves_in event.old) }
        ensures value { said_then result (said_in self.new.links.items (moves_in event.new))
            ≡ said_also place (said_in self.old.links.items (moves_in event.old)) l (move_in text.now) }
        ensures fibres { AreFibres self.old self.new event.old event.new }
    {
        if is_marked(&self.links, l) {
            return Err(name_fault(place));
        }
        match move_in(text) {
            Some(moving) => {
                self.put_move(l, moving, event);
                Ok(())
            }
            None => Err(number_fault(place)),
        }
    }

    // A field: what it says of a node or a link.
    fn take(
        &mut self,
        place: u32,
        text: &[u8],
        cfg: &NetCfg,
        event: &mut Event,
    ) -> Result<(), TraceFault>
        requires place { 0 < place }
        requires passing { IsPassing cfg.now self.old event.old }
        ensures value { outcome result (said_by self.new (drifts_in event.new) (moves_in event.new))
            ≡ change_said cfg.now place (said_by self.old (drifts_in event.old) (moves_in event.old)) text.now }
        ensures passing { IsPassing cfg.now self.new event.new }
        ensures span { span_in event.new ≡ span_in event.old }
    {
        let (name, text) = parts_at(text, b'=');
        match self.find(cfg, name) {
            Named::Node(n) => self.take_drift(place, n, text, event),
            Named::Link(l) => self.take_move(place, l, text, event),
            Named::Nothing => Err(name_fault(place)),
        }
    }
}

// A network has at most 64 nodes and 63 links.
fn room(cfg: &NetCfg)
    ensures nodes { node_count cfg.now ≤ 64 }
    ensures links { link_count cfg.now ≤ 63 }
{
    let _nodes = cfg.nodes.len();
    let _links = cfg.links.len();
}

/// Writes what the further fields of a `pass` say: the changes of all nodes and links, 0 if nothing
/// is said. `Number` or `Name` with the place of the first field that says nothing, or that repeats
/// what an earlier one said: then nothing is known of the changes.
pub fn changes_into(
    row: &ByteRecord,
    cfg: &NetCfg,
    marks: &mut Marks,
    event: &mut Event,
) -> Result<(), TraceFault>
    requires passing { IsPassing cfg.now marks.old event.old }
    ensures value { outcome result (said_by marks.new (drifts_in event.new) (moves_in event.new))
        ≡ changes_said cfg.now 3 (nothing_said cfg.now) (drop 2 (fields_of row.now)) }
    ensures passing { IsPassing cfg.now marks.new event.new }
    ensures span { span_in event.new ≡ span_in event.old }
{
    room(cfg);
    marks.forget(cfg, event);
    for at in 2..row.len() {
        let place = place_of(at);
        match marks.take(place, field(row, place), cfg, event) {
            Ok(()) => {}
            Err(fault) => return Err(fault),
        }
    }
    Ok(())
}
