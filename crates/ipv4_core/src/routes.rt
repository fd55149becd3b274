//! Where packets are sent: by the route whose network has the longest prefix.

ghost use Rattle.std.specs.Prelude.{◌≡◌, ◌≤◌, IfSome, IfNone};
ghost use Rattle.ipv4_core.specs.Routes.{neighbour, network};

use std::collections::BTreeMap;
use std::marker::Model;

/// How a network is reached: by which interface, with its address and its MTU, and through which neighbour, unless the
/// network is connected.
#[derive(Clone, Copy, Debug, PartialEq, Eq)]
pub struct Way {
    pub iface: u32,
    pub addr: u32,
    pub mtu: u32,
    pub via: Option<u32>,
}

/// The interface and the neighbour by which an address is reached.
#[derive(Clone, Copy, Debug, PartialEq, Eq)]
pub struct Hop {
    pub iface: u32,
    pub addr: u32,
}

/// The routes to networks whose prefixes have one length, by network.
#[derive(Drop)]
pub struct Table {
    prefix: u32,
    ways: BTreeMap<u32, Way>,
    ghost short: { prefix ≤ 32 },
}

/// The routes of a node, in a table for each length of prefix, the longest first.
#[derive(Drop)]
pub struct Routes {
    tables: Vec<Table>,
}

impl Model for Routes {
    ghost use Rattle.std.specs.Prelude.{List, map};
    ghost use Rattle.ipv4_core.specs.Routes.{PlainTable, IsFalling};

    ghost Value = { List PlainTable };

    ghost view = { λ r. map (λ t. record { prefix = t.prefix; ways = t.ways.entries }) r.tables.items };

    ghost invariant = { λ r. IsFalling (map (λ t. record { prefix = t.prefix; ways = t.ways.entries }) r.tables.items) };
}

impl Way {
    /// The neighbour on the way to an address; on a connected network it is the address itself.
    pub fn neighbour(&self, dst: u32) -> u32
        ensures { result ≡ neighbour self.now dst }
    {
        self.via.unwrap_or(dst)
    }
}

impl Table {
    pub fn make(prefix: u32, ways: BTreeMap<u32, Way>) -> Table
        requires { prefix ≤ 32 }
        ensures prefix { result.prefix ≡ prefix }
        ensures ways { result.ways ≡ ways }
    {
        Table { prefix, ways }
    }
}

impl Routes {
    ghost use Rattle.std.specs.Prelude.{map};
    ghost use Rattle.ipv4_core.specs.Routes.{route, HasNoWay, IsFalling, IsLongest};

    /// The routes in these tables, that of the longest prefix first.
    pub fn make(tables: Vec<Table>) -> Routes
        requires { IsFalling (map (λ t. record { prefix = t.prefix; ways = t.ways.entries }) tables.items) }
        ensures { result ≡ map (λ t. record { prefix = t.prefix; ways = t.ways.entries }) tables.items }
    {
        Routes { tables }
    }

    /// The prefixes of the tables grow shorter from one to the next.
    pub fn is_falling(&self)
        ensures { IsFalling self.now }
    {
        let _tables = &self.tables;
    }

    /// The way to an address, by the longest prefix: one look-up for each length of prefix that there is.
    pub fn route(&self, addr: u32) -> Option<Way>
        ensures value { result ≡ route addr self.now }
        ensures longest { IfSome result (IsLongest addr self.now) }
        ensures none { IfNone result (HasNoWay addr self.now) }
    {
        for table in &self.tables {
            if let Some(way) = table.ways.get(&network(addr, table.prefix)) {
                return Some(*way);
            }
        }
        None
    }
}

/// An address with the bits beyond the prefix cleared.
fn network(addr: u32, prefix: u32) -> u32
    requires { prefix ≤ 32 }
    ensures { result ≡ network prefix addr }
{
    let size = 1u64 << (32 - prefix);
    (u64::from(addr) - u64::from(addr) % size) as u32
}
