//! What happens at an interface, and what it asks for.

use pkt_face::Sign;
use sim_base::{NodeId, Time};

/// An interface of a node.
#[derive(Clone, Copy, Debug, PartialEq, Eq)]
pub struct Place {
    pub node: NodeId,
    pub iface: u32,
}

/// What an event brings to an interface.
#[derive(Debug, Drop)]
pub enum Happening<P> {
    /// A frame arrives.
    Arrive { frame: P },
    /// The frame that the device of a link was sending has left.
    Sent,
    /// The frame that the device of a LAN was sending has come to the others.
    BusFree,
    /// The time to wait for the bus is over.
    BackoffOver,
    /// The queue disc, which had no frame that might leave, is to be asked again.
    DiscReady,
    /// The time for an answer from an address is over.
    ArpTimer { addr: u32, stamp: u64 },
}

/// What is handed to an interface.
#[derive(Debug, Drop)]
pub enum In<P> {
    /// IPv4 sends a packet to a neighbour.
    Send { now: Time, hop: u32, packet: P },
    /// An event of this interface fires.
    Happens { now: Time, what: Happening<P> },
}

/// What an interface asks for.
#[derive(Debug, Drop)]
pub enum Act<P> {
    /// Schedule an event for this interface or for a neighbour's.
    Schedule {
        at: Time,
        to: Place,
        what: Happening<P>,
    },
    /// Write a line about a frame.
    Write {
        sign: Sign,
        frame: P,
    },
    /// Hand a packet to IPv4.
    Up {
        packet: P,
    },
    /// Count a packet as dropped.
    Dropped,
}
