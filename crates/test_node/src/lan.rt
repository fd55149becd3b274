//! Nodes that share a LAN: one waits while another's frame has the bus, and an address that no node has is asked for in vain.

use crate::run::run;
use crate::wiring::{FIRST_NET, node, once, tick, way};
use arp_core::ArpCache;
use csma_dev::{Bus, Csma};
use iface_step::{Iface, Place};
use node_step::{LocalApp, Node, Part};
use pkt_face::PlainPkt;
use queue_discs::{Disc, DiscKind};
use sim_base::{Loss, NoMemory, NodeId, Rate, Time};
use std::alloc::Global;
use traffic_apps::{App, AppKind};

/// The LAN has 100,000,000 bit/s and a delay of 1000 ns.
const RATE: Rate = Rate(100_000_000);

const DELAY: Time = Time(1000);

/// The interface of a node on LAN 0, on which so many nodes sit. Its frames are saved.
fn iface(alloc: Global, node: u8, members: u8) -> Result<Iface<PlainPkt>, NoMemory> {
    let mut others = Vec::new(alloc);
    for member in 0..members {
        if member != node {
            others.push(place(member))?;
        }
    }
    let mac = [2, 0, 0, 0, 0, node];
    let addr = FIRST_NET + 1 + u32::from(node);
    let disc = Disc::make(alloc, DiscKind::Fifo { limit: 100 });
    let device = Csma::make(mac, RATE, DELAY, true, Loss::none(alloc));
    let cache = ArpCache::make(alloc, mac, addr);
    Ok(Iface::on_lan(place(node), false, true, disc, 0, others, device, cache))
}

/// The only interface of a node.
fn place(node: u8) -> Place {
    Place {
        node: NodeId(u32::from(node)),
        iface: 0,
    }
}

/// A node of the LAN, which sends one datagram of 100 bytes to an address, if it is given one.
fn member(
    alloc: Global,
    number: u8,
    members: u8,
    dst: Option<u32>,
) -> Result<Node<PlainPkt>, NoMemory> {
    let addr = FIRST_NET + 1 + u32::from(number);
    let near = vec![in alloc; (FIRST_NET, way(0, addr, None))]?;
    let app = dst.map(|dst| sender(number, dst));
    let ifaces = vec![in alloc; iface(alloc, number, members)?]?;
    node(alloc, u32::from(number), ifaces, near, None, app, 1)
}

/// One that sends one datagram of 100 bytes.
fn sender(number: u8, dst: u32) -> LocalApp {
    let kind = AppKind::UdpSend {
        dst,
        port: 9,
        schedule: once(100),
    };
    LocalApp::make(App::make(u32::from(number), kind), 49153)
}

/// Nodes 0 and 1 each send to node 2, at 1 s.
pub fn shared(alloc: Global) -> Result<String, NoMemory> {
    let dst = Some(FIRST_NET + 3);
    let nodes = vec![in alloc;
        member(alloc, 0, 3, dst)?,
        member(alloc, 1, 3, dst)?,
        member(alloc, 2, 3, None)?,
    ]?;
    let lans = vec![in alloc; Bus::FREE]?;
    let part = Part::make(alloc, vec![in alloc; 0, 1, 2]?, nodes, lans, 1000);
    let first = vec![in alloc; tick(0, Time(1_000_000_000)), tick(1, Time(1_000_000_000))]?;
    run(alloc, part, first)
}

/// Node 0 sends to an address that no node has, at 1 s.
pub fn of_nobody(alloc: Global) -> Result<String, NoMemory> {
    let nodes = vec![in alloc;
        member(alloc, 0, 2, Some(FIRST_NET + 99))?,
        member(alloc, 1, 2, None)?,
    ]?;
    let lans = vec![in alloc; Bus::FREE]?;
    let part = Part::make(alloc, vec![in alloc; 0, 1]?, nodes, lans, 1000);
    run(alloc, part, vec![in alloc; tick(0, Time(1_000_000_000))]?)
}
