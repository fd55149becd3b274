//! A part of the network: some of its nodes.

ghost use Rattle.std.specs.Prelude.{◌≡◌, ◌≤◌, ◌^◌, ◌⊎◌, ◌↔◌, IsTrue, IfNone, IfOk, IfSome, OnOk, OnErr, IfErr, IsSomeAnd, None, Some, length, slice_get};
ghost use Rattle.layer_words.specs.Acts.{Appends};
ghost use Rattle.pkt_face.specs.Seen.{plain_line};
ghost use Rattle.node_step.specs.Loads.{plain_event};

use crate::loads::{Effects, Event};
use crate::local_app::AppCount;
use crate::node::{Node, Work};
use crate::stop::FireStop;
use csma_dev::Bus;
use pkt_face::Pkt;
use sim_base::{NoMemory, NodeId, Time};
use std::alloc::Global;
use std::marker::Model;

/// Some of the nodes. `places` says of each node where it stands in `nodes`; the firing has the buses of all LANs, of which
/// the part uses those on which its nodes sit.
#[derive(Drop)]
pub struct Part<P: Pkt> {
    places: Vec<u32>,
    nodes: Vec<Node<P>>,
    limit: u64,
    work: Work<P>,
}

impl<P: Pkt> Model for Part<P> {
    ghost use Rattle.std.specs.Prelude.{◌≤◌, ◌^◌};
    ghost use Rattle.std.specs.Coded.{codes};
    ghost use Rattle.tcp_flow.specs.contracts.conn.Conn as conn;
    ghost use Rattle.node_step.specs.Part.{PlainPart};

    ghost Value = { PlainPart };

    ghost coded = { Prim.hlevel (codes, conn.the_row.coded) };

    ghost view = { λ p. record { places = p.places.items; nodes = p.nodes.items; lans = p.work.firing.lans; limit = p.limit } };

    ghost invariant = { λ p. p.limit ≤ 10 ^ 9 };
}

/// The end of the longest run.
const LATEST: Time = Time(1_000_000_000_000);

impl<P: Pkt> Part<P> {
    ghost use Rattle.node_step.specs.Part.{CanFire, has, counts, drops, fire, place_of};
    ghost use Rattle.node_step.specs.React.{Refuses};

    /// A part of these nodes, with the buses of all LANs by number.
    pub fn make(
        alloc: Global,
        places: Vec<u32>,
        nodes: Vec<Node<P>>,
        lans: Vec<Bus>,
        limit: u64,
    ) -> Part<P>
        requires { limit ≤ 10 ^ 9 }
        ensures { result ≡ record { places = places.items; nodes = nodes.items; lans = lans.items; limit = limit } }
    {
        Part {
            places,
            nodes,
            limit,
            work: Work::make(alloc, lans),
        }
    }

    /// Whether an event can fire here: it comes at a time of a run, and the part has its node, which has the
    /// interface or the application that it names.
    pub fn can_fire(&self, ev: &Event<P>) -> bool
        ensures { IsTrue result ↔ CanFire (plain_event P.plain ev.now) self.now }
    {
        if ev.key.time > LATEST {
            return false;
        }
        let Some(place) = self.places.get(ev.key.node.0 as usize) else {
            return false;
        };
        let Some(node) = self.nodes.get(*place as usize) else {
            return false;
        };
        node.can_handle(&ev.load)
    }

    /// Whether a node is among the part's.
    pub fn has(&self, node: NodeId) -> bool
        ensures { result ≡ has node.0 self.now }
    {
        match self.places.get(node.0 as usize) {
            Some(place) => (*place as usize) < self.nodes.len(),
            None => false,
        }
    }

    /// A node by its number, if it is among the part's.
    pub fn node(&self, node: NodeId) -> Option<&Node<P>>
        ensures some { IfSome result (λ found. slice_get self.now.nodes (place_of node.0 self.now) ≡ Some found.now) }
        ensures none { IfNone result (slice_get self.now.nodes (place_of node.0 self.now) ≡ None ⊎ (length self.now.places ≤ node.0)) }
    {
        match self.places.get(node.0 as usize) {
            Some(place) => self.nodes.get(*place as usize),
            None => None,
        }
    }

    /// Fires an event: its node reacts to it. After a refusal the part is given up and the effects are as before.
    pub fn fire(&mut self, ev: Event<P>, out: &mut Effects<P>) -> Result<(), FireStop>
        requires { CanFire (plain_event P.plain ev) self.old }
        ensures ok { OnOk result (IsSomeAnd (fire (plain_event P.plain ev) self.old) (λ f. (self.new ≡ f.part) × Appends (plain_event P.plain) out.old.sends.items out.new.sends.items f.sends × Appends (plain_line P.plain) out.old.lines.items out.new.lines.items f.lines)) }
        ensures limit { IfErr result (Refuses ev.key.node (fire (plain_event P.plain ev) self.old)) }
        ensures err { OnErr result ((out.new.sends.items ≡ out.old.sends.items) × (out.new.lines.items ≡ out.old.lines.items)) }
    {
        let place = self.places[ev.key.node.0 as usize];
        let node = &mut self.nodes[place as usize];
        node.react(self.limit, ev, &mut self.work)?;
        self.work.firing.finish(out)?;
        Ok(())
    }

    /// What each application has sent and got: those of the first node in their order, then those of the next.
    pub fn counts(&self) -> Result<Vec<AppCount>, NoMemory>
        ensures { IfOk result (λ found. found.items ≡ counts self.now.nodes) }
    {
        let mut found = Vec::new(*self.nodes.allocator());
        for node in &self.nodes {
            node.add_counts(&mut found)?;
        }
        Ok(found)
    }

    /// How many packets the nodes have dropped.
    pub fn drops(&self) -> u64
        ensures { result ≡ drops self.now.nodes }
    {
        let mut drops: u64 = 0;
        for node in &self.nodes {
            drops = drops.saturating_add(node.drops());
        }
        drops
    }
}
