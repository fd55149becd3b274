//! The checks over all tables, in their order: addresses, networks, routes, applications, losses.
ghost use Rattle.std.specs.Prelude.{◌≡◌, ◌<◌, ◌++◌, [], map, length, slice_index, unwrap_or, Ok, IfOk, OnOk};
ghost use Rattle.std.specs.List.{filter_map};
ghost use Rattle.scenario_form.specs.Across.{indexed, addresses_check, link_network, lan_network, networks, networks_check, is_neighbour, vias_check, route_target, targets_check, routes_check, is_own, sends_to_own, owns_check, listens, listened, ports_check, wire, losses_check, uses_check, across_check};
ghost use Rattle.scenario_form.specs.Lookups.{IsByAddress, IsConnected, IsCount};
ghost use Rattle.scenario_form.specs.Answers.{Passes};

use crate::field::Code;
use crate::interface::{Interface, interfaces, place};
use crate::lookups::{Target, by_address, connected, counts, has_interface};
use crate::network::prefix_bits;
use crate::refusal::{Place, Refusal, Stop};
use crate::scenario::{App, Kind, Lan, Link, Loss, Route, Scenario};
use crate::twice::check_none_twice;
use crate::values::natural;
use std::alloc::{AllocError, Global};
use std::collections::{HashMap, HashSet};

fn placed_addresses(alloc: Global, ends: &[Interface]) -> Result<Vec<(Place, u32)>, AllocError>
    ensures { IfOk result (λ v. v.items ≡ map (λ i. (i.at, i.address)) ends.now) }
{
    ends.iter().map(|end| (end.at, end.address)).collect(alloc)
}

/// Refuses the first interface whose address was held before.
fn check_addresses(alloc: Global, ends: &[Interface]) -> Result<(), Stop<Refusal>>
    ensures { Passes result (addresses_check ends.now) }
{
    match placed_addresses(alloc, ends) {
        Ok(placed) => check_none_twice(HashSet::new(alloc), placed.as_slice()),
        Err(_) => Err(Stop::NoMemory),
    }
}

/// Adds the networks of links.
fn add_link_networks(
    networks: &mut Vec<(Place, (u64, u64))>,
    links: &[Link],
) -> Result<(), AllocError>
    requires { length links.now < 4294967296 }
    ensures { OnOk result (networks.new.items ≡ networks.old.items ++ map link_network (indexed links.now)) }
{
    for (index, link) in links.iter().enumerate() {
        let network = (prefix_bits(link.prefix, link.a_addr), link.prefix);
        networks.push((place(1, index, 5), network))?;
    }
    Ok(())
}

fn first_address(lan: &Lan) -> u32
    ensures { result ≡ slice_index lan.now.addrs 0 }
{
    match lan.addrs.as_slice() {
        [] => 0,
        [first, ..] => *first,
    }
}

/// Adds the networks of LANs.
fn add_lan_networks(networks: &mut Vec<(Place, (u64, u64))>, lans: &[Lan]) -> Result<(), AllocError>
    requires { length lans.now < 4294967296 }
    ensures { OnOk result (networks.new.items ≡ networks.old.items ++ map lan_network (indexed lans.now)) }
{
    for (index, lan) in lans.iter().enumerate() {
        let network = (prefix_bits(lan.prefix, first_address(lan)), lan.prefix);
        networks.push((place(2, index, 3), network))?;
    }
    Ok(())
}

fn networks(alloc: Global, scenario: &Scenario) -> Result<Vec<(Place, (u64, u64))>, AllocError>
    requires links { length scenario.now.links < 4294967296 }
    requires lans { length scenario.now.lans < 4294967296 }
    ensures { IfOk result (λ v. v.items ≡ networks scenario.now) }
{
    let mut networks = Vec::new(alloc);
    add_link_networks(&mut networks, scenario.links.as_slice())?;
    add_lan_networks(&mut networks, scenario.lans.as_slice())?;
    Ok(networks)
}

/// Refuses the first network that was held before.
fn check_networks(alloc: Global, scenario: &Scenario) -> Result<(), Stop<Refusal>>
    requires links { length scenario.now.links < 4294967296 }
    requires lans { length scenario.now.lans < 4294967296 }
    ensures { Passes result (networks_check scenario.now) }
{
    match networks(alloc, scenario) {
        Ok(networks) => check_none_twice(HashSet::new(alloc), networks.as_slice()),
        Err(_) => Err(Stop::NoMemory),
    }
}

/// Whether an address is another node's on a network of the node.
fn is_neighbour(
    ends: &[Interface],
    found: &HashMap<u32, Interface>,
    held: &HashSet<Target>,
    node: u32,
    address: u32,
) -> bool
    requires once { addresses_check ends.now ≡ Ok tt }
    requires found { IsByAddress ends.now found.now }
    requires held { IsConnected ends.now held.now }
    ensures { result ≡ is_neighbour ends.now node address }
{
    match found.get(&address) {
        None => false,
        Some(end) => end.node.0 != node && held.contains(&(node, end.network)),
    }
}

/// Refuses the first route by way of no neighbour.
fn check_vias(
    ends: &[Interface],
    found: &HashMap<u32, Interface>,
    held: &HashSet<Target>,
    routes: &[Route],
) -> Result<(), Refusal>
    requires routes { length routes.now < 4294967296 }
    requires once { addresses_check ends.now ≡ Ok tt }
    requires found { IsByAddress ends.now found.now }
    requires held { IsConnected ends.now held.now }
    ensures { result ≡ vias_check ends.now routes.now }
{
    for (index, route) in routes.iter().enumerate() {
        if !is_neighbour(ends, found, held, route.node.0, route.via) {
            return Err(Refusal::Schema {
                place: place(3, index, 4),
                code: Code::NoNeighbour,
            });
        }
    }
    Ok(())
}

fn route_targets(alloc: Global, routes: &[Route]) -> Result<Vec<(Place, Target)>, AllocError>
    requires { length routes.now < 4294967296 }
    ensures { IfOk result (λ v. v.items ≡ map route_target (indexed routes.now)) }
{
    let mut targets = Vec::new(alloc);
    for (index, route) in routes.iter().enumerate() {
        let network = (prefix_bits(route.prefix, route.dest), route.prefix);
        targets.push((place(3, index, 2), (route.node.0, network)))?;
    }
    Ok(targets)
}

/// Refuses the first route to where its node is connected, or has an earlier route.
fn check_targets(
    alloc: Global,
    ends: &[Interface],
    held: HashSet<Target>,
    routes: &[Route],
) -> Result<(), Stop<Refusal>>
    requires routes { length routes.now < 4294967296 }
    requires held { IsConnected ends.now held }
    ensures { Passes result (targets_check ends.now routes.now) }
{
    match route_targets(alloc, routes) {
        Ok(targets) => check_none_twice(held, targets.as_slice()),
        Err(_) => Err(Stop::NoMemory),
    }
}

/// Whether an address is the node's own.
fn is_own(ends: &[Interface], found: &HashMap<u32, Interface>, node: u32, address: u32) -> bool
    requires once { addresses_check ends.now ≡ Ok tt }
    requires found { IsByAddress ends.now found.now }
    ensures { result ≡ is_own ends.now node address }
{
    match found.get(&address) {
        None => false,
        Some(end) => end.node.0 == node,
    }
}

fn sends_to_own(ends: &[Interface], found: &HashMap<u32, Interface>, app: &App) -> bool
    requires once { addresses_check ends.now ≡ Ok tt }
    requires found { IsByAddress ends.now found.now }
    ensures { result ≡ sends_to_own ends.now app.now.node.0 app.now.dst }
{
    match app.dst {
        Some(dst) => is_own(ends, found, app.node.0, dst),
        None => false,
    }
}

/// Refuses the first application that sends to its own node.
fn check_owns(
    ends: &[Interface],
    found: &HashMap<u32, Interface>,
    apps: &[App],
) -> Result<(), Refusal>
    requires apps { length apps.now < 4294967296 }
    requires once { addresses_check ends.now ≡ Ok tt }
    requires found { IsByAddress ends.now found.now }
    ensures { result ≡ owns_check ends.now apps.now }
{
    for (index, app) in apps.iter().enumerate() {
        if sends_to_own(ends, found, app) {
            return Err(Refusal::Schema {
                place: place(4, index, 4),
                code: Code::Own,
            });
        }
    }
    Ok(())
}

/// Whether a kind listens, and if so by TCP.
fn listens(kind: Kind) -> Option<bool>
    ensures { result ≡ listens kind }
{
    match kind {
        Kind::UdpSink | Kind::UdpEchoServer => Some(false),
        Kind::TcpSink => Some(true),
        _ => None,
    }
}

fn port_of(app: &App) -> u64
    ensures { result ≡ unwrap_or app.now.port 0 }
{
    match app.port {
        Some(port) => port,
        None => 0,
    }
}

/// The ports that are listened on: of a node, by TCP or UDP.
fn listened(alloc: Global, apps: &[App]) -> Result<Vec<(Place, (u32, (bool, u64)))>, AllocError>
    requires { length apps.now < 4294967296 }
    ensures { IfOk result (λ v. v.items ≡ filter_map listened (indexed apps.now)) }
{
    let mut ports = Vec::new(alloc);
    for (index, app) in apps.iter().enumerate() {
        if let Some(tcp) = listens(app.kind) {
            ports.push((place(4, index, 3), (app.node.0, (tcp, port_of(app)))))?;
        }
    }
    Ok(ports)
}

/// Refuses the first port that is listened on before.
fn check_ports(alloc: Global, apps: &[App]) -> Result<(), Stop<Refusal>>
    requires { length apps.now < 4294967296 }
    ensures { Passes result (ports_check apps.now) }
{
    match listened(alloc, apps) {
        Ok(ports) => check_none_twice(HashSet::new(alloc), ports.as_slice()),
        Err(_) => Err(Stop::NoMemory),
    }
}

/// The interface that a loss is on, by its node and number, where the node has it.
fn wire(ends: &[Interface], counts: &HashMap<u32, u64>, loss: &Loss) -> Option<(u32, u64)>
    requires { IsCount ends.now counts.now }
    ensures { result ≡ wire ends.now loss.now }
{
    if has_interface(ends, counts, loss.node.0, loss.iface) {
        Some((loss.node.0, natural(loss.iface)))
    } else {
        None
    }
}

/// Refuses the first loss on an interface that its node hasn't, or that has a loss before.
fn check_wires(
    ends: &[Interface],
    counts: &HashMap<u32, u64>,
    mut held: HashSet<(u32, u64)>,
    losses: &[Loss],
) -> Result<(), Stop<Refusal>>
    requires losses { length losses.now < 4294967296 }
    requires counts { IsCount ends.now counts.now }
    ensures { Passes result (losses_check ends.now held.keys (indexed losses.now)) }
{
    for (index, loss) in losses.iter().enumerate() {
        let place = place(5, index, 2);
        match wire(ends, counts, loss) {
            None => return Err(Stop::Refused(Refusal::Schema {
                place,
                code: Code::NoInterface,
            })),
            Some(wire) => match held.insert(wire) {
                Ok(true) => {}
                Ok(false) => return Err(Stop::Refused(Refusal::Schema {
                    place,
                    code: Code::Twice,
                })),
                Err(_) => return Err(Stop::NoMemory),
            },
        }
    }
    Ok(())
}

fn check_losses(alloc: Global, ends: &[Interface], losses: &[Loss]) -> Result<(), Stop<Refusal>>
    requires losses { length losses.now < 4294967296 }
    ensures { Passes result (losses_check ends.now [] (indexed losses.now)) }
{
    match counts(alloc, ends) {
        Ok(counts) => check_wires(ends, &counts, HashSet::new(alloc), losses),
        Err(_) => Err(Stop::NoMemory),
    }
}

/// The checks of routes, of which addresses that are held once are known.
fn check_routes(
    alloc: Global,
    ends: &[Interface],
    found: &HashMap<u32, Interface>,
    routes: &[Route],
) -> Result<(), Stop<Refusal>>
    requires routes { length routes.now < 4294967296 }
    requires once { addresses_check ends.now ≡ Ok tt }
    requires found { IsByAddress ends.now found.now }
    ensures { Passes result (routes_check ends.now routes.now) }
{
    let held = match connected(alloc, ends) {
        Ok(held) => held,
        Err(_) => return Err(Stop::NoMemory),
    };
    match check_vias(ends, found, &held, routes) {
        Ok(()) => check_targets(alloc, ends, held, routes),
        Err(refusal) => Err(Stop::Refused(refusal)),
    }
}

/// The checks that look interfaces up.
fn check_uses(alloc: Global, ends: &[Interface], scenario: &Scenario) -> Result<(), Stop<Refusal>>
    requires routes { length scenario.now.routes < 4294967296 }
    requires apps { length scenario.now.apps < 4294967296 }
    requires losses { length scenario.now.losses < 4294967296 }
    requires once { addresses_check ends.now ≡ Ok tt }
    ensures { Passes result (uses_check ends.now scenario.now) }
{
    let found = match by_address(alloc, ends) {
        Ok(found) => found,
        Err(_) => return Err(Stop::NoMemory),
    };
    match check_routes(alloc, ends, &found, scenario.routes.as_slice()) {
        Ok(()) => {}
        Err(stop) => return Err(stop),
    }
    match check_owns(ends, &found, scenario.apps.as_slice()) {
        Ok(()) => {}
        Err(refusal) => return Err(Stop::Refused(refusal)),
    }
    match check_ports(alloc, scenario.apps.as_slice()) {
        Ok(()) => {}
        Err(stop) => return Err(stop),
    }
    check_losses(alloc, ends, scenario.losses.as_slice())
}

/// The checks over all tables: the first that refuses.
pub fn check_across(alloc: Global, scenario: &Scenario) -> Result<(), Stop<Refusal>>
    requires links { length scenario.now.links < 4294967296 }
    requires lans { length scenario.now.lans < 4294967296 }
    requires routes { length scenario.now.routes < 4294967296 }
    requires apps { length scenario.now.apps < 4294967296 }
    requires losses { length scenario.now.losses < 4294967296 }
    ensures { Passes result (across_check scenario.now) }
{
    let ends = match interfaces(alloc, scenario) {
        Ok(ends) => ends,
        Err(_) => return Err(Stop::NoMemory),
    };
    match check_addresses(alloc, ends.as_slice()) {
        Ok(()) => {}
        Err(stop) => return Err(stop),
    }
    match check_networks(alloc, scenario) {
        Ok(()) => {}
        Err(stop) => return Err(stop),
    }
    check_uses(alloc, ends.as_slice(), scenario)
}
