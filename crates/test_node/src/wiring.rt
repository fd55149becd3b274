//! What the networks are made of.

ghost use Rattle.std.specs.Prelude.{◌≤◌, ◌^◌};
ghost use Rattle.traffic_apps.specs.App.{IsSchedule};

use iface_step::{Iface, Place};
use ipv4_core::{Ip, Routes, Table, Way};
use node_step::{Event, Load, LocalApp, Node};
use p2p_dev::P2p;
use pkt_face::PlainPkt;
use queue_discs::{Disc, DiscKind};
use sim_base::{Key, Loss, NoMemory, NodeId, Random, Rate, Time};
use std::alloc::Global;
use std::collections::{BTreeMap, BTreeSet};
use tcp_flow::Conns;
use traffic_apps::Schedule;
use udp_icmp::Ports;

/// 10.1.1.0 and 10.1.2.0, both with prefix 24.
pub const FIRST_NET: u32 = 0x0a01_0100;

pub const SECOND_NET: u32 = 0x0a01_0200;

/// A node with these interfaces, which are on networks with prefix 24, and with one application at most. A network
/// with prefix 16 may lie further away. The application's tick is counted before the run, if it has one.
pub fn node(
    alloc: Global,
    number: u32,
    ifaces: Vec<Iface<PlainPkt>>,
    near: Vec<(u32, Way)>,
    far: Option<(u32, Way)>,
    app: Option<LocalApp>,
    first: u64,
) -> Result<Node<PlainPkt>, NoMemory>
    requires { first ≤ 10 ^ 6 }
{
    let mut own = BTreeSet::new(alloc);
    let mut connected = BTreeMap::new(alloc);
    for (network, way) in near {
        own.insert(way.addr)?;
        connected.insert(network, way)?;
    }
    let mut behind = BTreeMap::new(alloc);
    if let Some((network, way)) = far {
        behind.insert(network, way)?;
    }
    let tables = vec![in alloc; Table::make(24, connected), Table::make(16, behind)]?;
    let mut udp = BTreeMap::new(alloc);
    let mut apps = Vec::new(alloc);
    if let Some(app) = app {
        udp.insert(app.port(), 0)?;
        apps.push(app)?;
    }
    let number = NodeId(number);
    Ok(Node::make(
        number,
        first,
        Random::make(1, number),
        ifaces,
        Ip::make(Routes::make(tables), own),
        Ports::make(udp, BTreeMap::new(alloc)),
        Conns::make(alloc),
        apps,
    ))
}

/// An interface with a disc for 100 frames, on a link that leads to interface 0 of its neighbour. The frames of a captured one
/// are saved.
pub fn iface(
    alloc: Global,
    node: u32,
    iface: u32,
    neighbour: u32,
    rate: Rate,
    delay: Time,
    captured: bool,
) -> Iface<PlainPkt>
    requires some_rate { 1 ≤ rate.0 }
    requires rate { rate.0 ≤ 1000000000000 }
    requires delay { delay.0 ≤ 1000000000000 }
{
    let place = Place {
        node: NodeId(node),
        iface,
    };
    let peer = Place {
        node: NodeId(neighbour),
        iface: 0,
    };
    let disc = Disc::make(alloc, DiscKind::Fifo { limit: 100 });
    let device = P2p::make(rate, delay, captured, Loss::none(alloc));
    Iface::on_link(place, false, captured, disc, peer, device)
}

/// The way by an interface with an address, and by a neighbour if there is one.
pub fn way(iface: u32, addr: u32, via: Option<u32>) -> Way {
    Way {
        iface,
        addr,
        mtu: 1500,
        via,
    }
}

/// One datagram of so many bytes.
pub fn once(size: u32) -> Schedule
    requires { size ≤ 65507 }
    ensures { IsSchedule result }
{
    Schedule {
        size,
        count: 1,
        interval: Time(1_000_000_000),
        priority: 0,
    }
}

/// An event for a node, which another has sent at the start.
pub fn event(node: u32, by: u32, count: u64, at: Time, load: Load<PlainPkt>) -> Event<PlainPkt> {
    let key = Key {
        time: at,
        node: NodeId(node),
        sent: Time(0),
        by: NodeId(by),
        count,
    };
    Event { key, load }
}

/// The first tick of the only application of a node.
pub fn tick(node: u32, at: Time) -> Event<PlainPkt> {
    event(node, node, 0, at, Load::Tick { app: 0 })
}
