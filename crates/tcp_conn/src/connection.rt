//! The state of a connection, under the names of RFC 9293.

use crate::round_trip::RoundTrip;
use sim_base::Time;
use tcp_reno::Reno;
use tcp_stream::{Receiver, SendBuffer};

/// The states that a connection goes through (RFC 9293, 3.3.2). Data flows from the opener to the sink alone.
#[derive(Clone, Copy, Debug, PartialEq, Eq)]
pub enum Phase {
    SynSent,
    SynReceived,
    Established,
    FinWait1,
    FinWait2,
    TimeWait,
    LastAck,
    Closed,
}

/// A segment whose acknowledgement gives a round-trip sample.
#[derive(Clone, Copy, Debug, PartialEq, Eq)]
pub struct Timed {
    /// The position behind it.
    pub end: u64,
    /// When it was sent.
    pub at: Time,
}

/// One end of a connection.
///
///     positions:   SYN 0 | data 1 ..                    | FIN
///                  acknowledged | in flight | not sent
///                              una         nxt     max: the highest that nxt has been
#[derive(Drop)]
pub struct Connection {
    pub phase: Phase,
    pub opener: bool,
    /// Its own greatest segment size, which its SYN names.
    pub mss: u32,
    pub una: u64,
    pub nxt: u64,
    pub max: u64,
    /// What was written from una on.
    pub buffer: SendBuffer,
    pub closing: bool,
    pub sink: Receiver,
    pub peer_window: u64,
    pub timed: Option<Timed>,
    pub round_trip: RoundTrip,
    /// Timeouts in a row.
    pub tries: u32,
    /// Whether the retransmission timer runs.
    pub timer: bool,
    pub reno: Reno,
}
