//! Frames that come to a router, in rows of standard input: a line `# TITLE`, then for each frame its nanosecond and its
//! bytes, `TIME HEX`, and a line without words.

use crate::run::run;
use crate::wiring::{FIRST_NET, SECOND_NET, event, iface, node, way};
use anyhow::{Context, Result, ensure};
use ipv4_core::Way;
use node_step::{Event, Load, LocalApp, Node, Part};
use pkt_face::{Pkt, PlainPkt};
use sim_base::{NoMemory, NodeId, Rate, Time, Uid};
use std::alloc::Global;
use traffic_apps::{App, AppKind};

/// The links have 8,000,000 bit/s and a delay of 1 ms.
const RATE: Rate = Rate(8_000_000);

const DELAY: Time = Time(1_000_000);

/// Node 0, with the addresses 10.1.1.2 and 10.1.2.1, where a sink listens at port 9. Packets of 68 bytes at most leave by the second
/// interface. What it sends is saved.
fn router(alloc: Global) -> Result<Node<PlainPkt>, NoMemory> {
    let narrow = Way {
        mtu: 68,
        ..way(1, SECOND_NET + 1, None)
    };
    let near = vec![in alloc;
        (FIRST_NET, way(0, FIRST_NET + 2, None)),
        (SECOND_NET, narrow),
    ]?;
    let ifaces = vec![in alloc;
        iface(alloc, 0, 0, 1, RATE, DELAY, true),
        iface(alloc, 0, 1, 2, RATE, DELAY, true),
    ]?;
    let sink = LocalApp::make(App::make(0, AppKind::UdpSink), 9);
    node(alloc, 0, ifaces, near, None, Some(sink), 0)
}

/// The arrival of a line's frame at interface 0, sent by node 1 as its event of this number.
pub fn arrival(alloc: Global, line: &str, count: u64) -> Result<Event<PlainPkt>> {
    let (time, digits) = line.split_once(' ').context("a frame is TIME HEX")?;
    let bytes = hex::decode(alloc, digits.as_bytes())?;
    ensure!(bytes.len() <= 131_072, "a frame is that long at most");
    let uid = Uid {
        node: NodeId(1),
        count,
    };
    let packet = PlainPkt::from_bytes(alloc, &mut PlainPkt::maker(alloc), uid, &bytes)
        .ok()
        .context("no memory")?;
    let load = Load::Arrive { iface: 0, packet };
    Ok(event(0, 1, count, Time(time.parse()?), load))
}

/// What becomes of a row's frames.
pub fn come(alloc: Global, frames: Vec<Event<PlainPkt>>) -> Result<String, NoMemory> {
    let nodes = vec![in alloc; router(alloc)?]?;
    let part = Part::make(alloc, vec![in alloc; 0]?, nodes, Vec::new(alloc), 1000);
    run(alloc, part, frames)
}
