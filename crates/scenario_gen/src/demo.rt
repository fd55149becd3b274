//! The demo's scenario.

ghost use Rattle.std.specs.Prelude.{◌≡◌, ◌++◌, ◌≤◌, map, IfOk, OnOk};
ghost use Rattle.std.specs.List.{range_with_len};
ghost use Rattle.scenario_form.specs.Limits.{IsWithinLimits};
ghost use Rattle.scenario_gen.specs.Demo.{address, apps_of, bulk, demo_of, default_app, link_of, sender};

use scenario_form::{App, Kind, Link, Queue, Routing, Scenario};
use sim_base::{NoMemory, NodeId, Rate, Sequence, Time};
use std::alloc::Global;

/// A tree in which node k, from 1 to `n`, hangs on node (k - 1) / 2, and each of these nodes sends datagrams to node 0;
/// the last one also sends a stream to it. Routes are found by cost.
pub fn demo_scenario(alloc: Global, n: u32) -> Result<Scenario, NoMemory>
    requires some { 1 ≤ n }
    requires few { n ≤ 999 }
    ensures scenario { IfOk result (λ scenario. scenario ≡ demo_of n) }
    ensures limits { IfOk result IsWithinLimits }
{
    Ok(Scenario {
        format: 1,
        nodes: n + 1,
        stop_ns: Time(5_000_000_000),
        seed: 1,
        events_per_node: 1_000_000,
        routing: Routing::Auto,
        ascii: false,
        groups: None,
        links: links(alloc, n)?,
        lans: Sequence::new(alloc),
        routes: Sequence::new(alloc),
        apps: apps(alloc, n)?,
        losses: Sequence::new(alloc),
    })
}

/// The links of the tree.
fn links(alloc: Global, n: u32) -> Result<Sequence<Link>, NoMemory>
    requires { n ≤ 999 }
    ensures { IfOk result (λ links. links ≡ map link_of (range_with_len 1 n)) }
{
    let mut links = Sequence::new(alloc);
    for k in 0..n {
        links.push(link_of(k + 1))?;
    }
    Ok(links)
}

/// The link by which a node hangs on the one above it.
fn link_of(k: u32) -> Link
    requires some { 1 ≤ k }
    requires few { k ≤ 999 }
    ensures { result ≡ link_of k }
{
    Link {
        a: NodeId((k - 1) / 2),
        b: NodeId(k),
        a_addr: address((k - 1) / 256, (k - 1) % 256, 1),
        b_addr: address((k - 1) / 256, (k - 1) % 256, 2),
        prefix: 24,
        rate_bps: Rate(10_000_000),
        delay_ns: Time(u64::from(1_000_000 + 1000 * (k % 7))),
        mtu: 1500,
        cost: 1,
        queue: Queue::Fifo,
        limit: 100,
        tbf_bps: None,
        tbf_burst: None,
        pcap: false,
    }
}

/// The address 10.b.c.d.
fn address(b: u32, c: u32, d: u32) -> u32
    requires b { b ≤ 255 }
    requires c { c ≤ 255 }
    requires d { d ≤ 255 }
    ensures { result ≡ address 10 b c d }
{
    ((10 * 256 + b) * 256 + c) * 256 + d
}

/// The sinks on node 0, the senders, and the stream's sender.
fn apps(alloc: Global, n: u32) -> Result<Sequence<App>, NoMemory>
    requires { n ≤ 999 }
    ensures { IfOk result (λ apps. apps ≡ apps_of n) }
{
    let mut apps = Sequence::new(alloc);
    apps.push(default_app(Kind::UdpSink, 0, 9))?;
    apps.push(default_app(Kind::TcpSink, 0, 80))?;
    add_senders(&mut apps, n)?;
    apps.push(bulk(n))?;
    Ok(apps)
}

/// Puts a sender on each node but the root behind the applications.
fn add_senders(apps: &mut Sequence<App>, n: u32) -> Result<(), NoMemory>
    requires { n ≤ 999 }
    ensures { OnOk result (apps.new ≡ apps.old ++ map sender (range_with_len 1 n)) }
{
    for k in 0..n {
        apps.push(sender(k + 1))?;
    }
    Ok(())
}

/// An application whose other numbers are those that stand where a document says nothing.
fn default_app(kind: Kind, node: u32, port: u64) -> App
    ensures { result ≡ default_app kind node port }
{
    App {
        kind,
        node: NodeId(node),
        port: Some(port),
        dst: None,
        start_ns: Time(0),
        count: 1,
        interval_ns: Time(1_000_000_000),
        size: 512,
        priority: 0,
        rate_bps: None,
        on_ns: None,
        off_ns: None,
        bytes: None,
        mss: 536,
    }
}

/// The datagrams of a node.
fn sender(k: u32) -> App
    requires { k ≤ 999 }
    ensures { result ≡ sender k }
{
    App {
        dst: Some(address(0, 0, 1)),
        start_ns: Time(u64::from(k) * 1_000_000),
        count: 10,
        interval_ns: Time(10_000_000),
        size: 500,
        priority: u64::from(k % 16),
        ..default_app(Kind::UdpSend, k, 9)
    }
}

/// The stream of the last node.
fn bulk(n: u32) -> App
    ensures { result ≡ bulk n }
{
    App {
        dst: Some(address(0, 0, 1)),
        start_ns: Time(5_000_000),
        bytes: Some(20_000),
        ..default_app(Kind::TcpBulk, n, 80)
    }
}
