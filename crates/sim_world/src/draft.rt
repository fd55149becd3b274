//! The nodes of a plan, one after the other.

ghost use Rattle.std.specs.Prelude.{◌≡◌, ◌<◌, ◌≤◌, [], ◌∷◌, ◌++◌, length, map, All, IfOk, OnOk};
ghost use Rattle.std.specs.List.{range_with_len, flat_map};
ghost use Rattle.layer_words.specs.Acts.{Appends};
ghost use Rattle.node_step.specs.Loads.{plain_event};
ghost use Rattle.traffic_apps.specs.App.{IsKind};
ghost use Rattle.sim_world.specs.Ends.{IsEnd};
ghost use Rattle.sim_world.specs.Losses.{IsLoss};
ghost use Rattle.sim_world.specs.Plan.{IsPlan, planned_around, planned_node, planned_ticks};
ghost use Rattle.sim_world.specs.Routing.{prefix_of};
ghost use Rattle.sim_world.specs.World.{new_node};

use crate::apps::{Installed, conns, install, local_apps, ports};
use crate::ends::End;
use crate::ifaces::ifaces;
use crate::plan::Plan;
use crate::routing::{Entry, ip};
use crate::ticks::{schedule_ticks, tick_count};
use node_step::{Event, Node};
use pkt_face::Pkt;
use scenario_form::Loss;
use sim_base::{NoMemory, NodeId, Random};
use std::alloc::Global;

/// The nodes so far, and the first ticks of their applications.
#[derive(Drop)]
pub struct Draft<P: Pkt> {
    pub nodes: Vec<Node<P>>,
    pub first: Vec<Event<P>>,
}

impl<P: Pkt> Draft<P> {
    /// The nodes of a plan, in the order of their numbers, whose frames are told where the text trace is asked for.
    pub fn of(
        alloc: Global,
        told: bool,
        seed: u64,
        nodes: u32,
        losses: &[Loss],
        plan: &Plan,
    ) -> Result<Draft<P>, NoMemory>
        requires losses { All IsLoss losses.now }
        requires plan { IsPlan plan.now }
        requires nodes { nodes ≡ length plan.now.ends.items }
        ensures nodes { IfOk result (λ draft. draft.nodes.items ≡ map (planned_node told seed losses.now plan.now) (range_with_len 0 nodes)) }
        ensures first { IfOk result (λ draft. map (plain_event P.plain) draft.first.items ≡ flat_map (planned_ticks plan.now) (range_with_len 0 nodes)) }
    {
        let mut draft = Draft {
            nodes: Vec::with_capacity(alloc, nodes as usize)?,
            first: Vec::new(alloc),
        };
        for number in 0..nodes {
            draft.add_node(alloc, told, seed, number, losses, plan)?;
        }
        Ok(draft)
    }

    /// Adds a node of a plan behind the others, and the first ticks of its applications.
    fn add_node(
        &mut self,
        alloc: Global,
        told: bool,
        seed: u64,
        number: u32,
        losses: &[Loss],
        plan: &Plan,
    ) -> Result<(), NoMemory>
        requires losses { All IsLoss losses.now }
        requires plan { IsPlan plan.now }
        requires there { number < length plan.now.ends.items }
        ensures nodes { OnOk result (self.new.nodes.items ≡ self.old.nodes.items ++ planned_node told seed losses.now plan.now number ∷ []) }
        ensures first { OnOk result (Appends (plain_event P.plain) self.old.first.items self.new.first.items (planned_ticks plan.now number)) }
    {
        let here = number as usize;
        let ends = plan.ends[here].as_slice();
        let beyond = plan.guide.routes_of(alloc, number, ends)?;
        let apps = install(alloc, plan.apps[here].as_slice())?;
        let node = new_node(
            alloc,
            told,
            seed,
            NodeId(number),
            losses,
            plan,
            ends,
            beyond.as_slice(),
            apps.as_slice(),
        )?;
        schedule_ticks(NodeId(number), apps.as_slice(), &mut self.first)?;
        self.nodes.push(node)?;
        Ok(())
    }
}

/// A node that has done nothing yet, but has scheduled the first ticks of its applications.
fn new_node<P: Pkt>(
    alloc: Global,
    told: bool,
    seed: u64,
    number: NodeId,
    losses: &[Loss],
    plan: &Plan,
    ends: &[End],
    beyond: &[Entry],
    apps: &[Installed],
) -> Result<Node<P>, NoMemory>
    requires losses { All IsLoss losses.now }
    requires ends { All (IsEnd (length plan.now.members.items)) ends.now }
    requires beyond { All (λ e. prefix_of e ≤ 30) beyond.now }
    requires kinds { All (λ i. IsKind i.kind) apps.now }
    requires few { length apps.now ≤ 4000 }
    ensures { IfOk result (λ node. node ≡ new_node seed (planned_around told losses.now plan.now) number ends.now beyond.now apps.now) }
{
    let ifaces = ifaces(alloc, told, losses, plan, ends)?;
    let ip = ip(alloc, ends, beyond)?;
    let ports = ports(alloc, apps)?;
    let conns = conns(alloc, apps)?;
    let local = local_apps(alloc, apps)?;
    let ticks = tick_count(apps);
    let random = Random::make(seed, number);
    Ok(Node::make(number, ticks, random, ifaces, ip, ports, conns, local))
}
