//! The world's nodes and first events, shared out to groups.
//!
//! ```text
//!   places    n: ..   0   1   2   3   4   ..      where each node stands among the group's; one of another
//!                     -   0   -   1   -           group has a place beyond them
//!   nodes     node 1, node 3
//! ```

ghost use Rattle.std.specs.Prelude.{◌≡◌, ◌<◌, ◌≤◌, ◌^◌, [], All, IfOk, OnOk, length, map, slice_index};
ghost use Rattle.node_step.specs.Loads.{plain_event};
ghost use Rattle.sim_world.specs.Shares.{HaveNodes, KeepNodes, changed, empty_share, as_part, part_seen, with_event, with_node};

use csma_dev::Bus;
use node_step::{Event, Node, Part};
use pkt_face::Pkt;
use sim_base::NoMemory;
use std::alloc::Global;
use std::marker::Model;

/// A group's share of a world.
#[derive(Drop)]
pub struct Share<P: Pkt> {
    places: Vec<u32>,
    nodes: Vec<Node<P>>,
    first: Vec<Event<P>>,
}

impl<P: Pkt> Model for Share<P> {
    ghost use Rattle.std.specs.Prelude.{map};
    ghost use Rattle.node_step.specs.Loads.{plain_event};
    ghost use Rattle.std.specs.Coded.{codes};
    ghost use Rattle.tcp_flow.specs.contracts.conn.Conn as conn;
    ghost use Rattle.sim_world.specs.Shares.{PlainShare};

    ghost Value = { PlainShare };

    ghost coded = { Prim.hlevel (codes, conn.the_row.coded) };

    ghost view = { λ s. record { places = s.places.items; nodes = s.nodes.items; first = map (plain_event P.plain) s.first.items } };
}

impl<P: Pkt> Share<P> {
    /// No node, where there are so many.
    fn make(alloc: Global, nodes: u32) -> Result<Share<P>, NoMemory>
        ensures { IfOk result (λ share. share ≡ empty_share nodes) }
    {
        Ok(Share {
            places: vec![in alloc; nodes; nodes as usize]?,
            nodes: Vec::new(alloc),
            first: Vec::new(alloc),
        })
    }

    fn add_node(&mut self, number: u32, node: Node<P>) -> Result<(), NoMemory>
        requires known { number < length self.old.places }
        requires few { length self.old.nodes < 2 ^ 32 }
        ensures { OnOk result (self.new ≡ with_node number node self.old) }
    {
        self.places[number as usize] = self.nodes.len() as u32;
        self.nodes.push(node)?;
        Ok(())
    }

    fn add_event(&mut self, event: Event<P>) -> Result<(), NoMemory>
        ensures { OnOk result (self.new ≡ with_event (plain_event P.plain event) self.old) }
    {
        self.first.push(event)?;
        Ok(())
    }

    /// The part of the network that the share is, with these buses, and its first events.
    fn part(
        self,
        alloc: Global,
        lans: &[Bus],
        limit: u64,
    ) -> Result<(Part<P>, Vec<Event<P>>), NoMemory>
        requires { limit ≤ 10 ^ 9 }
        ensures { IfOk result (λ made. part_seen P.plain made ≡ as_part lans.now limit self) }
    {
        let Share {
            places,
            nodes,
            first,
        } = self;
        let lans = Vec::from_slice(alloc, lans)?;
        Ok((Part::make(alloc, places, nodes, lans, limit), first))
    }
}

/// As many shares as there are groups, in which no node stands yet.
pub fn no_shares<P: Pkt>(alloc: Global, groups: u32, nodes: u32) -> Result<Vec<Share<P>>, NoMemory>
    ensures count { IfOk result (λ shares. length shares.items ≡ groups) }
    ensures empty { IfOk result (λ shares. All (λ share. share ≡ empty_share nodes) shares.items) }
{
    let mut shares = Vec::with_capacity(alloc, groups as usize)?;
    'each: while shares.len() < groups as usize {
        shares.push(Share::make(alloc, nodes)?)?;
    }
    Ok(shares)
}

fn put_node<P: Pkt>(
    shares: &mut Vec<Share<P>>,
    group: u32,
    number: u32,
    node: Node<P>,
) -> Result<(), NoMemory>
    requires group { group < length shares.old.items }
    requires known { All (λ share. number < length share.places) shares.old.items }
    requires few { All (λ share. length share.nodes < 2 ^ 32) shares.old.items }
    ensures { OnOk result (shares.new.items ≡ changed (with_node number node) group shares.old.items) }
{
    shares[group as usize].add_node(number, node)?;
    Ok(())
}

fn put_event<P: Pkt>(
    shares: &mut Vec<Share<P>>,
    group: u32,
    event: Event<P>,
) -> Result<(), NoMemory>
    requires { group < length shares.old.items }
    ensures { OnOk result (shares.new.items ≡ changed (with_event (plain_event P.plain event)) group shares.old.items) }
{
    shares[group as usize].add_event(event)?;
    Ok(())
}

/// A node goes to its group.
fn give_node<P: Pkt>(
    shares: &mut Vec<Share<P>>,
    group_of: &[u32],
    number: u32,
    node: Node<P>,
) -> Result<(), NoMemory>
    requires there { number < length group_of.now }
    requires within { All (λ group. group < length shares.old.items) group_of.now }
    requires known { All (λ share. number < length share.places) shares.old.items }
    requires few { All (λ share. length share.nodes < 2 ^ 32) shares.old.items }
    ensures { OnOk result (shares.new.items ≡ changed (with_node number node) (slice_index group_of.now number) shares.old.items) }
{
    let group = group_of[number as usize];
    put_node(shares, group, number, node)?;
    Ok(())
}

/// An event goes to its node's group.
fn give_event<P: Pkt>(
    shares: &mut Vec<Share<P>>,
    group_of: &[u32],
    event: Event<P>,
) -> Result<(), NoMemory>
    requires there { event.key.node.0 < length group_of.now }
    requires within { All (λ group. group < length shares.old.items) group_of.now }
    ensures { OnOk result (shares.new.items ≡ changed (with_event (plain_event P.plain event)) (slice_index group_of.now event.key.node.0) shares.old.items) }
{
    let group = group_of[event.key.node.0 as usize];
    put_event(shares, group, event)?;
    Ok(())
}

/// Each node goes to its group.
pub fn share_nodes<P: Pkt>(
    shares: &mut Vec<Share<P>>,
    group_of: &[u32],
    mut nodes: Vec<Node<P>>,
) -> Result<(), NoMemory>
    requires each { length group_of.now ≡ length nodes.items }
    requires few { length nodes.items < 2 ^ 32 }
    requires within { All (λ group. group < length shares.old.items) group_of.now }
    requires empty { All (λ share. share ≡ empty_share (length nodes.items)) shares.old.items }
    ensures { OnOk result (HaveNodes group_of.now nodes.items 0 shares.old.items shares.new.items) }
{
    'nodes: while let Some(node) = nodes.pop() {
        let number = nodes.len();
        give_node(shares, group_of, number as u32, node)?;
    }
    Ok(())
}

/// Each event goes to its node's group.
pub fn share_events<P: Pkt>(
    shares: &mut Vec<Share<P>>,
    group_of: &[u32],
    mut events: Vec<Event<P>>,
) -> Result<(), NoMemory>
    requires known { All (λ e. e.key.node.0 < length group_of.now) (map (plain_event P.plain) events.items) }
    requires within { All (λ group. group < length shares.old.items) group_of.now }
    requires empty { All (λ share. share.first ≡ []) shares.old.items }
    ensures { OnOk result (KeepNodes group_of.now (map (plain_event P.plain) events.items) [] shares.old.items shares.new.items) }
{
    events.as_mut_slice().reverse();
    'events: while let Some(event) = events.pop() {
        give_event(shares, group_of, event)?;
    }
    Ok(())
}

/// The parts that shares are, each with these buses.
pub fn parts_of<P: Pkt>(
    alloc: Global,
    mut shares: Vec<Share<P>>,
    lans: &[Bus],
    limit: u64,
) -> Result<Vec<(Part<P>, Vec<Event<P>>)>, NoMemory>
    requires { limit ≤ 10 ^ 9 }
    ensures { IfOk result (λ parts. map (part_seen P.plain) parts.items ≡ map (as_part lans.now limit) shares.items) }
{
    let mut parts = Vec::with_capacity(alloc, shares.len())?;
    shares.as_mut_slice().reverse();
    'shares: while let Some(share) = shares.pop() {
        parts.push(share.part(alloc, lans, limit)?)?;
    }
    Ok(parts)
}
