//! A scenario: a network of nodes, and what its applications do.

use sim_base::{NodeId, Rate, Sequence, Time};

/// The queue disc of an interface.
#[derive(Clone, Copy, Debug, PartialEq, Eq)]
pub enum Queue {
    Fifo,
    Prio,
    Tbf,
}

/// How routes are found.
#[derive(Clone, Copy, Debug, PartialEq, Eq)]
pub enum Routing {
    Static,
    Auto,
}

/// What an application does.
#[derive(Clone, Copy, Debug, PartialEq, Eq)]
pub enum Kind {
    UdpSend,
    UdpEchoClient,
    UdpSink,
    UdpEchoServer,
    TcpSink,
    OnOff,
    Ping,
    TcpBulk,
}

/// A link between two nodes: a table `link` of the document.
#[derive(Clone, Copy, Debug, PartialEq, Eq)]
pub struct Link {
    pub a: NodeId,
    pub b: NodeId,
    pub a_addr: u32,
    pub b_addr: u32,
    /// The network's prefix length, in bits.
    pub prefix: u64,
    pub rate_bps: Rate,
    pub delay_ns: Time,
    /// The longest packet, in bytes.
    pub mtu: u64,
    /// What a hop costs, where routes are found by cost.
    pub cost: u64,
    pub queue: Queue,
    /// How many packets the queue holds.
    pub limit: u64,
    /// The rate of the token bucket, where that is the queue.
    pub tbf_bps: Option<Rate>,
    /// The size of the token bucket in bytes, where that is the queue.
    pub tbf_burst: Option<u64>,
    /// Whether captures are written.
    pub pcap: bool,
}

/// A LAN: a table `lan` of the document. The addresses stand in the order of the members, and the
/// other fields are a link's.
#[derive(Drop)]
pub struct Lan {
    pub members: Sequence<NodeId>,
    pub addrs: Sequence<u32>,
    pub prefix: u64,
    pub rate_bps: Rate,
    pub delay_ns: Time,
    pub mtu: u64,
    pub cost: u64,
    pub queue: Queue,
    pub limit: u64,
    pub tbf_bps: Option<Rate>,
    pub tbf_burst: Option<u64>,
    pub pcap: bool,
}

/// Losses on a node's interface: a table `loss` of the document. One of `frames` and `millionths`
/// stands.
#[derive(Drop)]
pub struct Loss {
    pub node: NodeId,
    /// The interface's number at the node, as the document writes it.
    pub iface: i64,
    /// The numbers of the frames that are lost, rising, from 1.
    pub frames: Option<Sequence<u64>>,
    /// How many frames of a million are lost.
    pub millionths: Option<u64>,
}

/// A listed route: a table `route` of the document.
#[derive(Clone, Copy, Debug, PartialEq, Eq)]
pub struct Route {
    pub node: NodeId,
    pub dest: u32,
    /// How many bits of `dest` count.
    pub prefix: u64,
    /// The address of the next hop.
    pub via: u32,
}

/// An application: a table `app` of the document. A key that its kind has not is `None`, or has its
/// default.
#[derive(Clone, Copy, Debug, PartialEq, Eq)]
pub struct App {
    pub kind: Kind,
    pub node: NodeId,
    /// The port that is listened on, or sent to.
    pub port: Option<u64>,
    pub dst: Option<u32>,
    pub start_ns: Time,
    /// How often it sends.
    pub count: u64,
    /// The time between two sends.
    pub interval_ns: Time,
    /// The payload of each datagram, in bytes.
    pub size: u64,
    pub priority: u64,
    /// The rate while it is on.
    pub rate_bps: Option<Rate>,
    pub on_ns: Option<Time>,
    pub off_ns: Option<Time>,
    /// How many bytes it sends in all.
    pub bytes: Option<u64>,
    /// Its own maximum segment size, in bytes.
    pub mss: u64,
}

/// A scenario, with defaults filled in.
#[derive(Drop)]
pub struct Scenario {
    pub format: u64,
    /// How many nodes there are, numbered from 0.
    pub nodes: u32,
    pub stop_ns: Time,
    /// Where random numbers begin.
    pub seed: u64,
    /// How many events a node may schedule.
    pub events_per_node: u64,
    pub routing: Routing,
    /// Whether the text trace is written.
    pub ascii: bool,
    /// The nodes that are simulated together, group by group.
    pub groups: Option<Sequence<Sequence<NodeId>>>,
    pub links: Sequence<Link>,
    pub lans: Sequence<Lan>,
    pub routes: Sequence<Route>,
    pub apps: Sequence<App>,
    pub losses: Sequence<Loss>,
}
