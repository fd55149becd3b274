//! The interfaces of nodes: the ends of links, and faces on LANs.

ghost use Rattle.std.specs.Prelude.{◌≡◌, ℕ, ◌+◌, ◌<◌, ◌≤◌, List, [], fold, length, slice_index_or, All, IfOk, OnOk};
ghost use Rattle.std.specs.List.{enumerate_from, zip};
ghost use Rattle.scenario_form.specs.Limits.{IsLan, IsLink};
ghost use Rattle.sim_world.specs.Grouping.{grouped};
ghost use Rattle.sim_world.specs.Ends.{node_of, with_face, with_link, ends_of};
ghost use Rattle.sim_world.specs.Networks.{HasLinkNumbers, link_network};
ghost use Rattle.sim_world.specs.declared.ends.End.{End};

use crate::grouping::{no_items, put};
use crate::networks::{Network, lan_network, link_network};
use iface_step::Place;
use scenario_form::{Lan, Link};
use sim_base::{NoMemory, NodeId, Sequence};
use std::alloc::Global;

/// What an interface is attached to: a link, at whose other end `peer` is, or the LAN of a number.
#[derive(Clone, Copy, Debug, PartialEq, Eq)]
pub enum Medium {
    Link { peer: Place },
    OnLan { lan: u32 },
}

/// An interface of a node: one end of a link, or a face on a LAN.
#[derive(Clone, Copy, Debug, PartialEq, Eq)]
pub struct End {
    pub place: Place,
    pub addr: u32,
    pub network: Network,
    pub medium: Medium,
}

/// The interfaces of each node: its links, and then its LANs, each in the scenario's order.
pub fn ends_by_node(
    alloc: Global,
    nodes: u32,
    links: &[Link],
    lans: &[Lan],
) -> Result<Vec<Sequence<End>>, NoMemory>
    requires links { All (IsLink nodes) links.now }
    requires lans { All (IsLan nodes) lans.now }
    requires few_links { length links.now ≤ 4000 }
    requires few_lans { length lans.now ≤ 200 }
    ensures { IfOk result (λ ends. ends.items ≡ grouped node_of nodes (ends_of links.now lans.now)) }
{
    let mut ends = ends_of_links(alloc, nodes, links)?;
    let before = links.len() as u32;
    for (number, lan) in lans.iter().enumerate() {
        let network = lan_network(before + number as u32, lan);
        add_lan(&mut ends, network, number as u32, lan)?;
    }
    Ok(ends)
}

/// The ends of links at each node.
fn ends_of_links(alloc: Global, nodes: u32, links: &[Link]) -> Result<Vec<Sequence<End>>, NoMemory>
    requires links { All (IsLink nodes) links.now }
    requires few { length links.now ≤ 4000 }
    ensures { IfOk result (λ ends. ends.items ≡ grouped node_of nodes (fold with_link [] (enumerate_from 0 links.now))) }
{
    let mut ends = no_items(alloc, nodes)?;
    for (number, link) in links.iter().enumerate() {
        add_link(&mut ends, number as u32, link)?;
    }
    Ok(ends)
}

/// Adds the two ends of a link, each with the next number of its node.
fn add_link(ends: &mut Vec<Sequence<End>>, number: u32, link: &Link) -> Result<(), NoMemory>
    requires numbers { HasLinkNumbers link.now }
    requires a { link.now.a.0 < length ends.old.items }
    requires b { link.now.b.0 < length ends.old.items }
    requires few { All (λ there. length there ≤ 48000) ends.old.items }
    ensures { (nodes : ℕ) (before : List End) → ends.old.items ≡ grouped node_of nodes before → OnOk result (ends.new.items ≡ grouped node_of nodes (with_link before (number, link.now))) }
{
    let network = link_network(number, link);
    let place_a = next_place(ends, link.a);
    let place_b = next_place(ends, link.b);
    let at_a = End {
        place: place_a,
        addr: link.a_addr,
        network,
        medium: Medium::Link { peer: place_b },
    };
    let at_b = End {
        place: place_b,
        addr: link.b_addr,
        network,
        medium: Medium::Link { peer: place_a },
    };
    put(ends, link.a.0, at_a)?;
    put(ends, link.b.0, at_b)
}

/// Adds a face on a LAN for each member, in their order.
fn add_lan(
    ends: &mut Vec<Sequence<End>>,
    network: Network,
    number: u32,
    lan: &Lan,
) -> Result<(), NoMemory>
    requires members { All (λ member. member.0 < length ends.old.items) lan.now.members }
    requires addrs { length lan.now.addrs ≡ length lan.now.members }
    requires few_members { length lan.now.members ≤ 200 }
    requires few { All (λ there. length there ≤ 47800) ends.old.items }
    ensures { (nodes : ℕ) (before : List End) → ends.old.items ≡ grouped node_of nodes before → OnOk result (ends.new.items ≡ grouped node_of nodes (fold (with_face network number) before (zip lan.now.members lan.now.addrs))) }
{
    let members = lan.members.as_slice();
    let addrs = lan.addrs.as_slice();
    for (i, member) in members.iter().enumerate() {
        add_face(ends, network, number, *member, addrs[i])?;
    }
    Ok(())
}

/// Adds the face of one member, with the next number of its node.
fn add_face(
    ends: &mut Vec<Sequence<End>>,
    network: Network,
    lan: u32,
    node: NodeId,
    addr: u32,
) -> Result<(), NoMemory>
    requires there { node.0 < length ends.old.items }
    requires few { All (λ there. length there ≤ 48000) ends.old.items }
    ensures face { (nodes : ℕ) (before : List End) → ends.old.items ≡ grouped node_of nodes before → OnOk result (ends.new.items ≡ grouped node_of nodes (with_face network lan before (node, addr))) }
    ensures count { OnOk result (length ends.new.items ≡ length ends.old.items) }
    ensures few { (most : ℕ) → All (λ there. length there ≤ most) ends.old.items → OnOk result (All (λ there. length there ≤ most + 1) ends.new.items) }
{
    let face = End {
        place: next_place(ends, node),
        addr,
        network,
        medium: Medium::OnLan { lan },
    };
    put(ends, node.0, face)
}

/// The next interface of a node.
fn next_place(ends: &[Sequence<End>], node: NodeId) -> Place
    requires there { node.0 < length ends.now }
    requires few { All (λ there. length there ≤ 48000) ends.now }
    ensures { result ≡ record { node = node; iface = length (slice_index_or ends.now node.0 []) } }
{
    Place {
        node,
        iface: ends[node.0 as usize].len() as u32,
    }
}
