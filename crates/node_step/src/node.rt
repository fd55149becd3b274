//! A node of the simulation.

mod apps;
mod asking;
mod delivery;
mod down;
mod hearing;
mod leaving;
mod react;
mod reassembly;
mod sending;
mod up;
mod work;

ghost use Rattle.std.specs.Prelude.{◌≡◌, ◌≤◌, ◌^◌, ◌++◌, OnOk, map};
ghost use Rattle.frag_core.specs.Step.{no_frags};
ghost use Rattle.node_step.specs.LocalApp.{app_count};
ghost use Rattle.node_step.specs.Node.{with_drop};

use crate::local_app::{AppCount, LocalApp};
use frag_core::Frags;
use iface_step::Iface;
use ipv4_core::Ip;
use pkt_face::Pkt;
use sim_base::{NoMemory, NodeId, Numbers, Random};
use std::marker::Model;
use tcp_flow::Conns;
use udp_icmp::Ports;
pub use work::Work;

/// A node of the simulation: a part for each layer, its generator, what it has numbered, and what is counted.
#[derive(Drop)]
pub struct Node<P: Pkt> {
    ifaces: Vec<Iface<P>>,
    ip: Ip,
    frags: Frags<P>,
    ports: Ports,
    conns: Conns,
    apps: Vec<LocalApp>,
    random: Random,
    numbers: Numbers,
    drops: u64,
    first: u64,
    scheduled: u64,
}

impl<P: Pkt> Model for Node<P> {
    ghost use Rattle.std.specs.Prelude.{◌+◌, ◌≤◌, ◌^◌};
    ghost use Rattle.std.specs.Coded.{codes};
    ghost use Rattle.tcp_flow.specs.contracts.conn.Conn as conn;
    ghost use Rattle.node_step.specs.Node.{PlainNode};

    ghost Value = { PlainNode };

    ghost coded = { Prim.hlevel (codes, conn.the_row.coded) };

    ghost view = { λ n. record { ifaces = n.ifaces.items; ip = n.ip; frags = n.frags; ports = n.ports; conns = n.conns; apps = n.apps.items; random = n.random; numbers = n.numbers; drops = n.drops; first = n.first; scheduled = n.scheduled } };

    ghost invariant = { λ n. (n.first ≤ 10 ^ 6) × (n.scheduled ≤ n.first + 10 ^ 9) };
}

impl<P: Pkt> Node<P> {
    /// A node that has fired nothing yet, holds no fragment, and has numbered `first` events before the run: the first ticks of its
    /// applications. They don't count for the limit.
    pub fn make(
        number: NodeId,
        first: u64,
        random: Random,
        ifaces: Vec<Iface<P>>,
        ip: Ip,
        ports: Ports,
        conns: Conns,
        apps: Vec<LocalApp>,
    ) -> Node<P>
        requires { first ≤ 10 ^ 6 }
        ensures { result ≡ record { ifaces = ifaces.items; ip = ip; frags = no_frags; ports = ports; conns = conns; apps = apps.items; random = random; numbers = record { node = number; packets = 0; ids = 0; stamps = 0 }; drops = 0; first = first; scheduled = first } }
    {
        let numbers = Numbers {
            node: number,
            packets: 0,
            ids: 0,
            stamps: 0,
        };
        let frags = Frags::make(*ifaces.allocator());
        Node {
            ifaces,
            ip,
            frags,
            ports,
            conns,
            apps,
            random,
            numbers,
            drops: 0,
            first,
            scheduled: first,
        }
    }

    /// How many packets the node has dropped.
    pub fn drops(&self) -> u64
        ensures { result ≡ self.now.drops }
    {
        self.drops
    }

    /// Puts behind `counts` what each of its applications has sent and got.
    pub fn add_counts(&self, counts: &mut Vec<AppCount>) -> Result<(), NoMemory>
        ensures { OnOk result (counts.new.items ≡ counts.old.items ++ map app_count self.now.apps) }
    {
        for app in &self.apps {
            counts.push(app.count())?;
        }
        Ok(())
    }

    /// Counts a packet as dropped.
    #[tactic(auto, unfolding(crate::specs::Node::with_drop))]
    fn drop_packet(&mut self)
        ensures { self.new ≡ with_drop self.old }
    {
        self.drops = self.drops.saturating_add(1);
    }
}
