//! The routes of nodes beyond the networks that they are on: listed ones, or those that cost least.

ghost use Rattle.std.specs.Prelude.{◌≡◌, ◌<◌, ◌≤◌, List, length, option_map, slice_get, All, IfOk};
ghost use Rattle.std.specs.List.{filter_map, range_with_len};
ghost use Rattle.std.specs.Option.{option_copied};
ghost use Rattle.std.specs.Ordering.{nat_cmp};
ghost use Rattle.std.specs.BTreeMap.{get};
ghost use Rattle.route_calc.specs.Least.{answer, nets_of};
ghost use Rattle.route_calc.specs.Walks.{HasItsNodes};
ghost use Rattle.scenario_form.specs.declared.scenario.Routing.TheVariants.{Static};
ghost use Rattle.scenario_form.specs.Limits.{IsWithinLimits};
ghost use Rattle.sim_world.specs.Grouping.{grouped};
ghost use Rattle.sim_world.specs.Networks.{IsNetwork};
ghost use Rattle.sim_world.specs.Ends.{ends_of};
ghost use Rattle.sim_world.specs.Ends as ends_by;
ghost use Rattle.sim_world.specs.Graph.{led, led_to, least_by, least_routes};
ghost use Rattle.sim_world.specs.Guide.{IsGuide, IsGuideOf, IsMap, IsMapOf, guided, led_by, node_count};
ghost use Rattle.sim_world.specs.Routing.{first_on, listed_routes, prefix_of};

use crate::ends::End;
use crate::graph::{all_ends, costs, ends_on_each, nets};
use crate::routing::{Entry, add_listed, ends_by_network, holders, network, routes_by_node};
use ipv4_core::Way;
use route_calc::{Graph, Place, Reach, places_of, row_of};
use scenario_form::{Route, Routing, Scenario};
use sim_base::{NoMemory, Sequence};
use std::alloc::Global;
use std::collections::BTreeMap;

/// The networks as a graph, at which places each node is on them, and the interfaces on each.
#[derive(Drop)]
pub struct Map {
    pub graph: Graph,
    pub places: Vec<Sequence<Place>>,
    pub on: Vec<Sequence<End>>,
}

/// How the routes of nodes are found: by the lists of routes and by who has each address, or by cost.
#[derive(Drop)]
pub enum Guide {
    Listed {
        routes: Vec<Sequence<Route>>,
        holders: BTreeMap<u32, End>,
    },
    Least {
        map: Map,
    },
}

impl Map {
    /// The map of a scenario with these interfaces at each node.
    fn of(alloc: Global, scenario: &Scenario, ends: &[Sequence<End>]) -> Result<Map, NoMemory>
        requires limits { IsWithinLimits scenario.now }
        requires ends { ends.now ≡ grouped ends_by.node_of scenario.now.nodes (ends_of scenario.now.links scenario.now.lans) }
        ensures map { IfOk result (IsMapOf scenario.now) }
        ensures within { IfOk result IsMap }
    {
        let costs = costs(alloc, scenario.links.as_slice(), scenario.lans.as_slice())?;
        let all = all_ends(alloc, ends)?;
        let count = (scenario.links.len() + scenario.lans.len()) as u32;
        let on = ends_on_each(alloc, count, all.as_slice())?;
        let graph = Graph {
            nodes: scenario.nodes,
            nets: nets(alloc, costs.as_slice(), on.as_slice())?,
        };
        let places = places_of(&graph)?;
        Ok(Map { graph, places, on })
    }

    /// The least-cost routes of a node with these interfaces.
    fn routes_of(&self, alloc: Global, node: u32, ends: &[End]) -> Result<Vec<Entry>, NoMemory>
        requires map { IsMap self.now }
        requires node { node < self.now.graph.nodes }
        ensures { IfOk result (λ entries. entries.items ≡ least_routes (nets_of self.now.graph) self.now.on.items self.now.graph.nodes node ends.now) }
    {
        let row = row_of(&self.graph, node, self.places.as_slice())?;
        let entries = led_by(alloc, row.as_slice(), self.on.as_slice(), ends)?;
        Ok(entries)
    }
}

impl Guide {
    /// The guide of a scenario with these interfaces at each node.
    pub fn of(alloc: Global, scenario: &Scenario, ends: &[Sequence<End>]) -> Result<Guide, NoMemory>
        requires limits { IsWithinLimits scenario.now }
        requires ends { ends.now ≡ grouped ends_by.node_of scenario.now.nodes (ends_of scenario.now.links scenario.now.lans) }
        ensures guide { IfOk result (IsGuideOf scenario.now) }
        ensures within { IfOk result IsGuide }
    {
        match scenario.routing {
            Routing::Static => Guide::listed(alloc, scenario, ends),
            Routing::Auto => Ok(Guide::Least {
                map: Map::of(alloc, scenario, ends)?,
            }),
        }
    }

    fn listed(alloc: Global, scenario: &Scenario, ends: &[Sequence<End>]) -> Result<Guide, NoMemory>
        requires limits { IsWithinLimits scenario.now }
        requires ends { ends.now ≡ grouped ends_by.node_of scenario.now.nodes (ends_of scenario.now.links scenario.now.lans) }
        requires listed { scenario.now.routing ≡ Static }
        ensures guide { IfOk result (IsGuideOf scenario.now) }
        ensures within { IfOk result IsGuide }
    {
        let routes = routes_by_node(alloc, scenario.nodes, scenario.routes.as_slice())?;
        let holders = holders(alloc, ends)?;
        Ok(Guide::Listed { routes, holders })
    }

    /// The routes of a node with these interfaces, beyond the networks that it is on.
    pub fn routes_of(&self, alloc: Global, node: u32, ends: &[End]) -> Result<Vec<Entry>, NoMemory>
        requires guide { IsGuide self.now }
        requires node { node < node_count self.now }
        requires ends { All (λ e. IsNetwork e.network) ends.now }
        ensures routes { IfOk result (λ entries. entries.items ≡ guided self.now node ends.now) }
        ensures short { IfOk result (λ entries. All (λ e. prefix_of e ≤ 30) entries.items) }
    {
        match self {
            Guide::Listed { routes, holders } => {
                let listed = routes[node as usize].as_slice();
                let entries = listed_routes(alloc, holders, ends, listed)?;
                Ok(entries)
            }
            Guide::Least { map } => {
                let entries = map.routes_of(alloc, node, ends)?;
                Ok(entries)
            }
        }
    }
}

/// The listed routes of a node, each by the interface that is on the network of its next hop.
fn listed_routes(
    alloc: Global,
    holders: &BTreeMap<u32, End>,
    ends: &[End],
    routes: &[Route],
) -> Result<Vec<Entry>, NoMemory>
    requires ends { All (λ e. IsNetwork e.network) ends.now }
    requires routes { All (λ r. r.prefix ≤ 30) routes.now }
    ensures { IfOk result (λ entries. entries.items ≡ listed_routes (get nat_cmp holders.now) ends.now routes.now) }
{
    let on = ends_by_network(alloc, ends)?;
    let mut entries = Vec::new(alloc);
    add_listed(&mut entries, holders, &on, routes)?;
    Ok(entries)
}

/// The routes by which a node reaches networks.
fn led_by(
    alloc: Global,
    row: &[Reach],
    on: &[Sequence<End>],
    ends: &[End],
) -> Result<Vec<Entry>, NoMemory>
    requires count { length on.now ≡ length row.now }
    requires networks { All (All (λ e. IsNetwork e.network)) on.now }
    ensures { IfOk result (λ entries. entries.items ≡ filter_map (led_by row.now on.now ends.now) (range_with_len 0 (length row.now))) }
{
    let mut entries = Vec::new(alloc);
    for t in 0..row.len() {
        if let Some(entry) = led(&row[t], on[t].as_slice(), ends) {
            entries.push(entry)?;
        }
    }
    Ok(entries)
}

/// The route of a node with these interfaces to the network that other interfaces are on, if a walk leads there.
fn led(reach: &Reach, on: &[End], ends: &[End]) -> Option<Entry>
    requires { All (λ e. IsNetwork e.network) on.now }
    ensures { result ≡ led ends.now (answer reach.now) (slice_get on.now 0) }
{
    match (reach, on.first()) {
        (
            Reach::Via {
                iface,
                neighbour,
                ..
            },
            Some(there),
        ) => led_to(*iface, *neighbour, there, ends),
        _ => None,
    }
}

/// The route by an interface and a neighbour to the network of another interface.
fn led_to(iface: u32, neighbour: u32, there: &End, ends: &[End]) -> Option<Entry>
    requires { IsNetwork there.now.network }
    ensures { result ≡ option_map (least_by there.now neighbour) (slice_get ends.now iface) }
{
    match ends.get(iface as usize) {
        Some(end) => Some(least_by(there, neighbour, end)),
        None => None,
    }
}

fn least_by(there: &End, neighbour: u32, end: &End) -> Entry
    requires { IsNetwork there.now.network }
    ensures { result ≡ least_by there.now neighbour end.now }
{
    let prefix = there.network.prefix;
    Entry {
        prefix,
        dest: network(there.addr, prefix),
        way: Way {
            iface: end.place.iface,
            addr: end.addr,
            mtu: end.network.mtu,
            via: Some(neighbour),
        },
    }
}
