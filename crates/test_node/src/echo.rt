//! The case of ns-3's first example: a client and an echo server at the two ends of a link.

use crate::run::run;
use crate::wiring::{FIRST_NET, iface, node, once, tick, way};
use node_step::{LocalApp, Node, Part};
use pkt_face::PlainPkt;
use sim_base::{NoMemory, Rate, Time};
use std::alloc::Global;
use traffic_apps::{App, AppKind};

/// The numbers of the two nodes.
const CLIENT: u32 = 0;

const SERVER: u32 = 1;

/// The node at one end, with an address and with one application. The client's first tick is the one event that is numbered
/// before the run.
fn end(
    alloc: Global,
    number: u32,
    other: u32,
    addr: u32,
    app: LocalApp,
) -> Result<Node<PlainPkt>, NoMemory> {
    let (rate, delay) = (Rate(5_000_000), Time(2_000_000));
    let ifaces = vec![in alloc; iface(alloc, number, 0, other, rate, delay, true)]?;
    let near = vec![in alloc; (FIRST_NET, way(0, addr, None))]?;
    let first = if number == CLIENT { 1 } else { 0 };
    node(alloc, number, ifaces, near, None, Some(app), first)
}

/// One request of 1024 bytes to port 9, at 2 s.
pub fn over_one_link(alloc: Global) -> Result<String, NoMemory> {
    let client = AppKind::UdpEchoClient {
        dst: FIRST_NET + 2,
        port: 9,
        schedule: once(1024),
    };
    let client = LocalApp::make(App::make(1, client), 49153);
    let server = LocalApp::make(App::make(0, AppKind::UdpEchoServer), 9);
    let nodes = vec![in alloc;
        end(alloc, CLIENT, SERVER, FIRST_NET + 1, client)?,
        end(alloc, SERVER, CLIENT, FIRST_NET + 2, server)?,
    ]?;
    let part = Part::make(alloc, vec![in alloc; 0, 1]?, nodes, Vec::new(alloc), 1000);
    run(
        alloc,
        part,
        vec![in alloc; tick(CLIENT, Time(2_000_000_000))]?,
    )
}
