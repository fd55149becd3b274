//! What happens to TCP, and what it asks for.

use sim_base::{Sequence, Time};
use tcp_wire::Arrived;

/// A segment between two addresses. Its packet begins with the TCP header.
#[derive(Debug, Drop)]
pub struct Seg<P> {
    pub src: u32,
    pub dst: u32,
    pub packet: P,
}

/// What happens to the connections of a node.
#[derive(Drop)]
pub enum In<P> {
    /// An application opens a connection from its address, or from none where no route leads to the other side, and
    /// its port, to an address and a port.
    Connect {
        now: Time,
        app: u32,
        src: Option<u32>,
        sport: u16,
        dst: u32,
        port: u16,
        mss: u32,
    },
    /// An application takes connections at a port.
    Listen {
        app: u32,
        port: u16,
    },
    Segment {
        now: Time,
        segment: Seg<P>,
    },
    /// The timer of a connection fires, which was started with this stamp.
    Timer {
        now: Time,
        conn: u32,
        stamp: u64,
    },
    /// An application writes to the connection that it opened.
    Write {
        now: Time,
        app: u32,
        bytes: Sequence<u8>,
    },
    /// It writes no more.
    Close {
        now: Time,
        app: u32,
    },
}

/// What happens to one connection.
#[derive(Drop)]
pub enum Event {
    Segment { arrived: Arrived },
    /// Its timer fires.
    Timer,
    Write { bytes: Sequence<u8> },
    Close,
}

/// What TCP asks for, in the order in which it is to be done.
#[derive(Debug, Drop)]
pub enum Act<P> {
    /// Hand a segment to IPv4.
    Emit {
        segment: Seg<P>,
    },
    /// Let the timer of a connection fire then, with this stamp.
    TimerAt {
        at: Time,
        conn: u32,
        stamp: u64,
    },
    Connected {
        app: u32,
    },
    /// That many bytes can be written.
    Room {
        app: u32,
        free: u32,
    },
    /// Hand bytes to an application, with the other side's address and port.
    Deliver {
        app: u32,
        src: u32,
        sport: u16,
        packet: P,
    },
    End {
        app: u32,
    },
    Reset {
        app: u32,
    },
    /// Count a packet as dropped.
    Dropped,
}
