//! Where a node sends packets: to its own networks, and by the routes beyond them.

ghost use Rattle.std.specs.Prelude.{◌≡◌, ℕ, ◌≤◌, List, [], ◌++◌, map, option_map, All, IfOk, IfSome, OnOk};
ghost use Rattle.std.specs.List.{filter_map};
ghost use Rattle.sim_world.specs.declared.ends.End.{End};
ghost use Rattle.std.specs.Ordering.{nat_cmp};
ghost use Rattle.std.specs.BTreeMap.{get};
ghost use Rattle.ipv4_core.specs.Routes.{network};
ghost use Rattle.scenario_form.specs.Limits.{IsRoute};
ghost use Rattle.sim_world.specs.Grouping.{grouped, joined};
ghost use Rattle.sim_world.specs.Networks.{IsNetwork};
ghost use Rattle.sim_world.specs.Routing.{node_of, connected, listed, listed_by, holder_of, first_on, prefix_of, ways_to, seen, with_table, tables_of, own_of, ip_of};

use crate::ends::End;
use crate::grouping::{no_items, put};
use ipv4_core::{Ip, Routes, Table, Way};
use scenario_form::Route;
use sim_base::{NoMemory, Sequence};
use std::alloc::Global;
use std::collections::{BTreeMap, BTreeSet};

/// A route of a node: a network, by its prefix length and its address, and the way there.
#[derive(Clone, Copy, Debug, PartialEq, Eq)]
pub struct Entry {
    pub prefix: u32,
    pub dest: u32,
    pub way: Way,
}

/// No prefix is longer than 30.
const PREFIXES: u32 = 31;

/// The listed routes of each node, in the scenario's order.
pub fn routes_by_node(
    alloc: Global,
    nodes: u32,
    routes: &[Route],
) -> Result<Vec<Sequence<Route>>, NoMemory>
    requires { All (IsRoute nodes) routes.now }
    ensures { IfOk result (λ listed. listed.items ≡ grouped node_of nodes routes.now) }
{
    let mut listed = no_items(alloc, nodes)?;
    for route in routes {
        put(&mut listed, route.node.0, *route)?;
    }
    Ok(listed)
}

/// The routes and addresses of a node with these interfaces, and with these routes beyond the networks that it is on.
pub fn ip(alloc: Global, ends: &[End], beyond: &[Entry]) -> Result<Ip, NoMemory>
    requires ends { All (λ e. IsNetwork e.network) ends.now }
    requires beyond { All (λ e. prefix_of e ≤ 30) beyond.now }
    ensures { IfOk result (λ ip. ip ≡ ip_of ends.now beyond.now) }
{
    let mut entries = networks(alloc, ends)?;
    entries.extend_from_slice(beyond)?;
    let tables = tables(alloc, entries.as_slice())?;
    let own = own_addresses(alloc, ends)?;
    Ok(Ip::make(tables, own))
}

/// The networks that a node is on.
fn networks(alloc: Global, ends: &[End]) -> Result<Vec<Entry>, NoMemory>
    requires { All (λ e. IsNetwork e.network) ends.now }
    ensures { IfOk result (λ entries. entries.items ≡ map connected ends.now) }
{
    let mut entries = Vec::with_capacity(alloc, ends.len())?;
    for end in ends {
        entries.push(connected(end))?;
    }
    Ok(entries)
}

/// Puts the listed routes behind the entries, each by the interface that is on the network of its next hop.
pub fn add_listed(
    entries: &mut Vec<Entry>,
    holders: &BTreeMap<u32, End>,
    on: &BTreeMap<u32, End>,
    routes: &[Route],
) -> Result<(), NoMemory>
    requires on { (number : ℕ) → IfSome (get nat_cmp on.now number) (λ e. IsNetwork e.network) }
    requires routes { All (λ r. r.prefix ≤ 30) routes.now }
    ensures { OnOk result (entries.new.items ≡ entries.old.items ++ filter_map (listed (get nat_cmp holders.now) (get nat_cmp on.now)) routes.now) }
{
    for route in routes {
        if let Some(entry) = listed(holders, on, route) {
            entries.push(entry)?;
        }
    }
    Ok(())
}

/// The first of a node's interfaces on each network, by the network's number.
pub fn ends_by_network(alloc: Global, ends: &[End]) -> Result<BTreeMap<u32, End>, NoMemory>
    ensures { IfOk result (λ on. (number : ℕ) → get nat_cmp on number ≡ first_on ends.now number) }
{
    let mut on = BTreeMap::new(alloc);
    for end in ends {
        if !on.contains_key(&end.network.number) {
            on.insert(end.network.number, *end)?;
        }
    }
    Ok(on)
}

/// The interface that has each address.
pub fn holders(alloc: Global, ends: &[Sequence<End>]) -> Result<BTreeMap<u32, End>, NoMemory>
    ensures { IfOk result (λ holders. (addr : ℕ) → get nat_cmp holders addr ≡ holder_of (joined ends.now) addr) }
{
    let mut holders = BTreeMap::new(alloc);
    for there in ends {
        add_holders(&mut holders, there.as_slice())?;
    }
    Ok(holders)
}

/// Adds a node's interfaces, each where none before it has its address.
fn add_holders(holders: &mut BTreeMap<u32, End>, ends: &[End]) -> Result<(), NoMemory>
    ensures { (before : List End) → ((addr : ℕ) → get nat_cmp holders.old addr ≡ holder_of before addr) → OnOk result ((addr : ℕ) → get nat_cmp holders.new addr ≡ holder_of (before ++ ends.now) addr) }
{
    for end in ends {
        if !holders.contains_key(&end.addr) {
            holders.insert(end.addr, *end)?;
        }
    }
    Ok(())
}

/// The network that an interface is on.
fn connected(end: &End) -> Entry
    requires { IsNetwork end.now.network }
    ensures { result ≡ connected end.now }
{
    let prefix = end.network.prefix;
    Entry {
        prefix,
        dest: network(end.addr, prefix),
        way: Way {
            iface: end.place.iface,
            addr: end.addr,
            mtu: end.network.mtu,
            via: None,
        },
    }
}

/// A listed route, if an interface is on the network of its next hop.
fn listed(holders: &BTreeMap<u32, End>, on: &BTreeMap<u32, End>, route: &Route) -> Option<Entry>
    requires on { (number : ℕ) → IfSome (get nat_cmp on.now number) (λ e. IsNetwork e.network) }
    requires route { route.now.prefix ≤ 30 }
    ensures { result ≡ listed (get nat_cmp holders.now) (get nat_cmp on.now) route.now }
{
    match holders.get(&route.via) {
        Some(there) => leaving(on, there.network.number, route),
        None => None,
    }
}

/// A listed route whose next hop is on a network, if an interface is.
fn leaving(on: &BTreeMap<u32, End>, number: u32, route: &Route) -> Option<Entry>
    requires on { (number : ℕ) → IfSome (get nat_cmp on.now number) (λ e. IsNetwork e.network) }
    requires route { route.now.prefix ≤ 30 }
    ensures { result ≡ option_map (listed_by route.now) (get nat_cmp on.now number) }
{
    match on.get(&number) {
        Some(end) => Some(listed_by(route, end)),
        None => None,
    }
}

/// A listed route that leaves by an interface.
fn listed_by(route: &Route, end: &End) -> Entry
    requires route { route.now.prefix ≤ 30 }
    ensures { result ≡ listed_by route.now end.now }
{
    Entry {
        prefix: route.prefix as u32,
        dest: route.dest,
        way: Way {
            iface: end.place.iface,
            addr: end.addr,
            mtu: end.network.mtu,
            via: Some(route.via),
        },
    }
}

/// An address with the bits beyond the prefix cleared.
pub fn network(addr: u32, prefix: u32) -> u32
    requires { prefix ≤ 32 }
    ensures { result ≡ network prefix addr }
{
    let size = 1u64 << (32 - prefix);
    (u64::from(addr) - u64::from(addr) % size) as u32
}

/// A table for each prefix length that some route has, the longest first.
fn tables(alloc: Global, entries: &[Entry]) -> Result<Routes, NoMemory>
    requires { All (λ e. prefix_of e ≤ 30) entries.now }
    ensures { IfOk result (λ routes. routes ≡ tables_of entries.now) }
{
    let by_prefix = by_prefix(alloc, entries)?;
    let mut tables = Vec::new(alloc);
    let mut prefix = PREFIXES;
    while prefix > 0 {
        prefix -= 1;
        let ways = ways(alloc, by_prefix[prefix as usize].as_slice())?;
        add_table(&mut tables, prefix, ways)?;
    }
    Ok(Routes::make(tables))
}

/// The routes of each prefix length.
fn by_prefix(alloc: Global, entries: &[Entry]) -> Result<Vec<Sequence<Entry>>, NoMemory>
    requires { All (λ e. prefix_of e ≤ 30) entries.now }
    ensures { IfOk result (λ groups. groups.items ≡ grouped prefix_of 31 entries.now) }
{
    let mut groups = no_items(alloc, PREFIXES)?;
    for entry in entries {
        put(&mut groups, entry.prefix, *entry)?;
    }
    Ok(groups)
}

/// Puts a table behind the others, if it has a way.
fn add_table(tables: &mut Vec<Table>, prefix: u32, ways: BTreeMap<u32, Way>) -> Result<(), NoMemory>
    requires { prefix ≤ 32 }
    ensures { OnOk result (map seen tables.new.items ≡ map seen tables.old.items ++ with_table prefix ways.entries []) }
{
    if ways.is_empty() {
        return Ok(());
    }
    tables.push(Table::make(prefix, ways))?;
    Ok(())
}

/// The ways to the networks of routes of one prefix length.
fn ways(alloc: Global, entries: &[Entry]) -> Result<BTreeMap<u32, Way>, NoMemory>
    ensures { IfOk result (λ ways. ways.entries ≡ ways_to entries.now) }
{
    let mut ways = BTreeMap::new(alloc);
    for entry in entries {
        ways.insert(entry.dest, entry.way)?;
    }
    Ok(ways)
}

/// The addresses of a node.
fn own_addresses(alloc: Global, ends: &[End]) -> Result<BTreeSet<u32>, NoMemory>
    ensures { IfOk result (λ own. own.keys ≡ own_of ends.now) }
{
    let mut own = BTreeSet::new(alloc);
    for end in ends {
        own.insert(end.addr)?;
    }
    Ok(own)
}
