//! The networks of a scenario as a graph, over which the least-cost routes are found.

ghost use Rattle.std.specs.Prelude.{◌≡◌, ◌<◌, ◌≤◌, ◌++◌, length, map, All, IfOk, OnOk};
ghost use Rattle.std.specs.List.{range_with_len};
ghost use Rattle.route_calc.specs.Least.{plain};
ghost use Rattle.sim_world.specs.Graph.{cost_of_lan, cost_of_link, costs_of, member_of, net_of, nets_by, number_of};
ghost use Rattle.sim_world.specs.Grouping.{grouped, joined};

use crate::ends::End;
use crate::grouping::{no_items, put};
use route_calc::{Member, Net};
use scenario_form::{Lan, Link};
use sim_base::{NoMemory, Sequence};
use std::alloc::Global;

/// What it costs to go over each network: the links, and then the LANs.
pub fn costs(alloc: Global, links: &[Link], lans: &[Lan]) -> Result<Vec<u32>, NoMemory>
    requires links { All (λ l. l.cost ≤ 65535) links.now }
    requires lans { All (λ l. l.cost ≤ 65535) lans.now }
    ensures { IfOk result (λ costs. costs.items ≡ costs_of links.now lans.now) }
{
    let mut costs = link_costs(alloc, links)?;
    add_lan_costs(&mut costs, lans)?;
    Ok(costs)
}

fn link_costs(alloc: Global, links: &[Link]) -> Result<Vec<u32>, NoMemory>
    requires { All (λ l. l.cost ≤ 65535) links.now }
    ensures { IfOk result (λ costs. costs.items ≡ map cost_of_link links.now) }
{
    let mut costs = Vec::with_capacity(alloc, links.len())?;
    for link in links {
        costs.push(link.cost as u32)?;
    }
    Ok(costs)
}

fn add_lan_costs(costs: &mut Vec<u32>, lans: &[Lan]) -> Result<(), NoMemory>
    requires { All (λ l. l.cost ≤ 65535) lans.now }
    ensures { OnOk result (costs.new.items ≡ costs.old.items ++ map cost_of_lan lans.now) }
{
    for lan in lans {
        costs.push(lan.cost as u32)?;
    }
    Ok(())
}

/// The interfaces of all nodes, node by node.
pub fn all_ends(alloc: Global, ends: &[Sequence<End>]) -> Result<Vec<End>, NoMemory>
    ensures { IfOk result (λ all. all.items ≡ joined ends.now) }
{
    let mut all = Vec::new(alloc);
    for there in ends {
        all.extend_from_slice(there.as_slice())?;
    }
    Ok(all)
}

/// The interfaces on each of so many networks.
pub fn ends_on_each(alloc: Global, count: u32, ends: &[End]) -> Result<Vec<Sequence<End>>, NoMemory>
    requires { All (λ e. number_of e < count) ends.now }
    ensures { IfOk result (λ on. on.items ≡ grouped number_of count ends.now) }
{
    let mut on = no_items(alloc, count)?;
    for end in ends {
        put(&mut on, end.network.number, *end)?;
    }
    Ok(on)
}

/// The networks, each with its cost and its members.
pub fn nets(alloc: Global, costs: &[u32], on: &[Sequence<End>]) -> Result<Vec<Net>, NoMemory>
    requires { length on.now ≡ length costs.now }
    ensures { IfOk result (λ nets. map plain nets.items ≡ nets_by costs.now on.now) }
{
    let mut nets = Vec::with_capacity(alloc, costs.len())?;
    for t in 0..costs.len() {
        nets.push(Net {
            cost: costs[t],
            members: members(alloc, on[t].as_slice())?,
        })?;
    }
    Ok(nets)
}

/// The interfaces on a network as its members.
fn members(alloc: Global, ends: &[End]) -> Result<Vec<Member>, NoMemory>
    ensures { IfOk result (λ members. members.items ≡ map member_of ends.now) }
{
    let mut members = Vec::with_capacity(alloc, ends.len())?;
    for end in ends {
        members.push(Member {
            node: end.place.node.0,
            iface: end.place.iface,
            addr: end.addr,
        })?;
    }
    Ok(members)
}
