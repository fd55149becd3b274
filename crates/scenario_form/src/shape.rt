//! The network of a scenario, as its cutting sees it.

ghost use Rattle.std.specs.Prelude.{◌≡◌, IfOk};
ghost use Rattle.partition_cut.specs.Network.{IsShape, node_lists};
ghost use Rattle.scenario_form.specs.Limits.{IsWithinLimits};
ghost use Rattle.scenario_form.specs.Shape.{IsNetworkOf, lans_of, links_of, numbers_of};

use crate::scenario::{Lan, Link, Scenario};
use partition_cut::Shape;
use sim_base::{NoMemory, NodeId, Time};
use std::alloc::Global;

/// Links: the nodes at their ends, and their delays.
fn shape_links(alloc: Global, links: &[Link]) -> Result<Vec<(u32, u32, Time)>, NoMemory>
    ensures { IfOk result (λ made. made.items ≡ links_of links.now) }
{
    let mut made = Vec::with_capacity(alloc, links.len())?;
    for link in links {
        made.push((link.a.0, link.b.0, link.delay_ns))?;
    }
    Ok(made)
}

/// The numbers of nodes.
pub fn numbers_of(alloc: Global, nodes: &[NodeId]) -> Result<Vec<u32>, NoMemory>
    ensures { IfOk result (λ numbers. numbers.items ≡ numbers_of nodes.now) }
{
    let mut numbers = Vec::with_capacity(alloc, nodes.len())?;
    for node in nodes {
        numbers.push(node.0)?;
    }
    Ok(numbers)
}

/// LANs: the nodes on each.
fn shape_lans(alloc: Global, lans: &[Lan]) -> Result<Vec<Vec<u32>>, NoMemory>
    ensures { IfOk result (λ made. node_lists made.items ≡ lans_of lans.now) }
{
    let mut made = Vec::with_capacity(alloc, lans.len())?;
    for lan in lans {
        let members = numbers_of(alloc, lan.members.as_slice())?;
        made.push(members)?;
    }
    Ok(made)
}

impl Scenario {
    /// The nodes, links and LANs of a scenario.
    pub fn shape(&self, alloc: Global) -> Result<Shape, NoMemory>
        requires { IsWithinLimits self.now }
        ensures shape { IfOk result IsShape }
        ensures network { IfOk result (IsNetworkOf self.now) }
    {
        let links = shape_links(alloc, self.links.as_slice())?;
        let lans = shape_lans(alloc, self.lans.as_slice())?;
        Ok(Shape {
            nodes: self.nodes,
            links,
            lans,
        })
    }
}
