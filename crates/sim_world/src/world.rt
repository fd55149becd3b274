//! The world in which the run of a scenario begins.

ghost use Rattle.std.specs.Prelude.{◌≡◌, ◌<◌, ◌^◌, All, false, length, map, replicate, IfOk};
ghost use Rattle.std.specs.List.{range_with_len};
ghost use Rattle.node_step.specs.Firing.{free};
ghost use Rattle.node_step.specs.Loads.{plain_event};
ghost use Rattle.scenario_form.specs.Limits.{IsWithinLimits};
ghost use Rattle.sim_world.specs.Shares.{AreSplit, part_seen};

use crate::draft::Draft;
use crate::plan::Plan;
use crate::shares::{no_shares, parts_of, share_events, share_nodes};
use csma_dev::Bus;
use node_step::{Event, Node, Part};
use partition_cut::Cut;
use pkt_face::Pkt;
use scenario_form::Scenario;
use sim_base::{NoMemory, Time};
use std::alloc::Global;
use std::marker::Model;

/// The nodes of a scenario before its run, and the events that come first.
#[derive(Drop)]
pub struct World<P: Pkt> {
    places: Vec<u32>,
    nodes: Vec<Node<P>>,
    lans: Vec<Bus>,
    first: Vec<Event<P>>,
    stop: Time,
    limit: u64,
}

impl<P: Pkt> Model for World<P> {
    ghost use Rattle.std.specs.Prelude.{◌≡◌, ◌≤◌, ◌^◌, map, length, replicate};
    ghost use Rattle.node_step.specs.Firing.{free};
    ghost use Rattle.std.specs.List.{range_with_len};
    ghost use Rattle.node_step.specs.Loads.{plain_event};
    ghost use Rattle.std.specs.Coded.{codes};
    ghost use Rattle.tcp_flow.specs.contracts.conn.Conn as conn;
    ghost use Rattle.sim_world.specs.World.{PlainWorld};

    ghost Value = { PlainWorld };

    ghost coded = { Prim.hlevel (codes, conn.the_row.coded) };

    ghost view = { λ w. record { nodes = w.nodes.items; lans = length w.lans.items; first = map (plain_event P.plain) w.first.items; stop = w.stop; limit = w.limit } };

    ghost invariant = { λ w. (w.places.items ≡ range_with_len 0 (length w.nodes.items)) × (w.lans.items ≡ replicate (length w.lans.items) free) × (w.limit ≤ 10 ^ 9) };
}

impl<P: Pkt> World<P> {
    ghost use Rattle.sim_world.specs.Opening.{OpensRuns};
    ghost use Rattle.sim_world.specs.World.{world_of};

    /// The world of a scenario that is built.
    pub fn make(alloc: Global, scenario: &Scenario) -> Result<World<P>, NoMemory>
        requires limits { IsWithinLimits scenario.now }
        ensures world { IfOk result (λ world. world ≡ world_of scenario.now) }
        ensures opens { IfOk result OpensRuns }
    {
        let plan = Plan::of(alloc, scenario)?;
        let losses = scenario.losses.as_slice();
        let told = scenario.ascii;
        let draft = Draft::of(alloc, told, scenario.seed, scenario.nodes, losses, &plan)?;
        let places = places(alloc, scenario.nodes)?;
        let lans = free_buses(alloc, scenario.lans.len())?;
        let Draft { nodes, first } = draft;
        Ok(World {
            places,
            nodes,
            lans,
            first,
            stop: scenario.stop_ns,
            limit: scenario.events_per_node,
        })
    }

    /// The world as one part, and its first events.
    pub fn whole(self) -> (Part<P>, Vec<Event<P>>)
        ensures part { result.0 ≡ record { places = range_with_len 0 (length self.nodes); nodes = self.nodes; lans = replicate self.lans free; limit = self.limit } }
        ensures first { map (plain_event P.plain) result.1.items ≡ self.first }
    {
        let alloc = *self.nodes.allocator();
        let part = Part::make(alloc, self.places, self.nodes, self.lans, self.limit);
        (part, self.first)
    }

    /// The world in parts, one for each group of a cut, each with its first events. On `NoMemory` the world is given up.
    pub fn split(self, cut: &Cut) -> Result<Vec<(Part<P>, Vec<Event<P>>)>, NoMemory>
        requires each { length cut.now.group_of.items ≡ length self.nodes }
        requires within { All (λ group. group < cut.now.groups) cut.now.group_of.items }
        requires few { length self.nodes < 2 ^ 32 }
        requires known { All (λ e. e.key.node.0 < length self.nodes) self.first }
        ensures { IfOk result (λ parts. AreSplit self cut.now.group_of.items cut.now.groups (map (part_seen P.plain) parts.items)) }
    {
        let alloc = *self.nodes.allocator();
        let group_of = cut.group_of.as_slice();
        let mut shares = no_shares(alloc, cut.groups, self.nodes.len() as u32)?;
        share_nodes(&mut shares, group_of, self.nodes)?;
        share_events(&mut shares, group_of, self.first)?;
        let parts = parts_of(alloc, shares, self.lans.as_slice(), self.limit)?;
        Ok(parts)
    }

    /// When the run stops.
    pub fn stop(&self) -> Time
        ensures { result ≡ self.now.stop }
    {
        self.stop
    }
}

/// The place of each node where all stand in the order of their numbers.
fn places(alloc: Global, nodes: u32) -> Result<Vec<u32>, NoMemory>
    ensures { IfOk result (λ places. places.items ≡ range_with_len 0 nodes) }
{
    let mut places = Vec::with_capacity(alloc, nodes as usize)?;
    for number in 0..nodes {
        places.push(number)?;
    }
    Ok(places)
}

/// The buses of so many LANs, on which nobody sends yet.
fn free_buses(alloc: Global, lans: usize) -> Result<Vec<Bus>, NoMemory>
    ensures { IfOk result (λ buses. buses.items ≡ replicate lans free) }
{
    Ok(vec![in alloc; Bus::FREE; lans]?)
}
