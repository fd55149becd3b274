//! The interfaces of a scenario: a node's ends on its links and LANs.
ghost use Rattle.std.specs.Prelude.{◌≡◌, ◌++◌, ◌<◌, length, IfOk, OnOk};
ghost use Rattle.scenario_form.specs.Across.{interface_at, link_ends, ends_of_links, ends_from, ends_of_lans, interfaces};
ghost use Rattle.scenario_form.specs.Walk.{place};

use crate::network::prefix_bits;
use crate::refusal::Place;
use crate::scenario::{Lan, Link, Scenario};
use sim_base::NodeId;
use std::alloc::{AllocError, Global};

/// A node's end on a network, whose prefix bits and length are given, and the place that says so.
#[derive(Clone, Copy, Debug, PartialEq, Eq)]
pub struct Interface {
    pub at: Place,
    pub node: NodeId,
    pub address: u32,
    pub network: (u64, u64),
}

/// The place of a field.
pub fn place(section: u8, index: usize, field: u8) -> Place
    requires { index < 4294967296 }
    ensures { result ≡ place section index field }
{
    Place {
        section,
        index: index as u32,
        field,
    }
}

fn interface_at(at: Place, prefix: u64, node: NodeId, address: u32) -> Interface
    ensures { result ≡ interface_at at prefix node address }
{
    Interface {
        at,
        node,
        address,
        network: (prefix_bits(prefix, address), prefix),
    }
}

fn add_link_ends(ends: &mut Vec<Interface>, index: usize, link: &Link) -> Result<(), AllocError>
    requires { index < 4294967296 }
    ensures { OnOk result (ends.new.items ≡ ends.old.items ++ link_ends (index, link.now)) }
{
    ends.push(interface_at(place(1, index, 3), link.prefix, link.a, link.a_addr))?;
    ends.push(interface_at(place(1, index, 4), link.prefix, link.b, link.b_addr))?;
    Ok(())
}

fn ends_of_links(alloc: Global, links: &[Link]) -> Result<Vec<Interface>, AllocError>
    requires { length links.now < 4294967296 }
    ensures { IfOk result (λ v. v.items ≡ ends_of_links links.now) }
{
    let mut ends = Vec::new(alloc);
    for (index, link) in links.iter().enumerate() {
        add_link_ends(&mut ends, index, link)?;
    }
    Ok(ends)
}

/// Adds the ends of a LAN's members, as far as there are addresses.
fn add_ends(
    ends: &mut Vec<Interface>,
    index: usize,
    prefix: u64,
    members: &[NodeId],
    addresses: &[u32],
) -> Result<(), AllocError>
    requires { index < 4294967296 }
    ensures { OnOk result (ends.new.items ≡ ends.old.items ++ ends_from index prefix members.now addresses.now) }
{
    for (number, node) in members.iter().enumerate() {
        if addresses.len() <= number {
            return Ok(());
        }
        let address = addresses[number];
        ends.push(interface_at(place(2, index, 2), prefix, *node, address))?;
    }
    Ok(())
}

/// Adds the ends of the LANs behind those of the links.
fn add_lan_ends(ends: &mut Vec<Interface>, lans: &[Lan]) -> Result<(), AllocError>
    requires { length lans.now < 4294967296 }
    ensures { OnOk result (ends.new.items ≡ ends.old.items ++ ends_of_lans lans.now) }
{
    for (index, lan) in lans.iter().enumerate() {
        add_ends(
            ends,
            index,
            lan.prefix,
            lan.members.as_slice(),
            lan.addrs.as_slice(),
        )?;
    }
    Ok(())
}

/// The interfaces of a scenario: those of its links in order, and then those of its LANs.
pub fn interfaces(alloc: Global, scenario: &Scenario) -> Result<Vec<Interface>, AllocError>
    requires links { length scenario.now.links < 4294967296 }
    requires lans { length scenario.now.lans < 4294967296 }
    ensures { IfOk result (λ v. v.items ≡ interfaces scenario.now) }
{
    let mut ends = ends_of_links(alloc, scenario.links.as_slice())?;
    add_lan_ends(&mut ends, scenario.lans.as_slice())?;
    Ok(ends)
}
