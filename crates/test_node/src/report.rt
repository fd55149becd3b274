//! A sender whose route leads through a router that has none.

use crate::run::run;
use crate::wiring::{FIRST_NET, SECOND_NET, iface, node, once, tick, way};
use node_step::{LocalApp, Node, Part};
use pkt_face::PlainPkt;
use sim_base::{NoMemory, Rate, Time};
use std::alloc::Global;
use traffic_apps::{App, AppKind};

/// A network that the router doesn't know, 10.9.0.0 with prefix 16.
const FAR_NET: u32 = 0x0a09_0000;

/// The links have 1,000,000 bit/s and a delay of 1 ms.
const RATE: Rate = Rate(1_000_000);

const DELAY: Time = Time(1_000_000);

/// The sender: its route to the far network leads through its neighbour.
fn sender(alloc: Global) -> Result<Node<PlainPkt>, NoMemory> {
    let near = vec![in alloc; (FIRST_NET, way(0, FIRST_NET + 1, None))]?;
    let far = (FAR_NET, way(0, FIRST_NET + 1, Some(FIRST_NET + 2)));
    let kind = AppKind::UdpSend {
        dst: FAR_NET + 1,
        port: 9,
        schedule: once(100),
    };
    let app = LocalApp::make(App::make(0, kind), 49153);
    let ifaces = vec![in alloc; iface(alloc, 0, 0, 1, RATE, DELAY, true)]?;
    node(alloc, 0, ifaces, near, Some(far), Some(app), 1)
}

/// The router, which knows the two networks that it is on.
fn router(alloc: Global) -> Result<Node<PlainPkt>, NoMemory> {
    let near = vec![in alloc;
        (FIRST_NET, way(0, FIRST_NET + 2, None)),
        (SECOND_NET, way(1, SECOND_NET + 1, None)),
    ]?;
    let ifaces = vec![in alloc;
        iface(alloc, 1, 0, 0, RATE, DELAY, false),
        iface(alloc, 1, 1, 2, RATE, DELAY, false),
    ]?;
    node(alloc, 1, ifaces, near, None, None, 0)
}

/// One datagram of 100 bytes to the far network, at 0 s; the router reports that it has no route.
pub fn of_no_route(alloc: Global) -> Result<String, NoMemory> {
    let nodes = vec![in alloc; sender(alloc)?, router(alloc)?]?;
    let part = Part::make(alloc, vec![in alloc; 0, 1]?, nodes, Vec::new(alloc), 1000);
    run(alloc, part, vec![in alloc; tick(0, Time(0))]?)
}
