//! What a connection hears and what it asks for.

use sim_base::{Sequence, Time};

/// What a segment from the other side says, beside its data (RFC 9293, 3.1).
#[derive(Clone, Copy, Debug, PartialEq, Eq)]
pub struct Heard {
    pub seq: u32,
    pub ack: u32,
    pub window: u16,
    pub mss: Option<u16>,
    pub syn: bool,
    pub has_ack: bool,
    pub fin: bool,
    pub rst: bool,
}

/// A segment to be sent: its first position, and how many bytes of the stream it carries from there on.
#[derive(Clone, Copy, Debug, PartialEq, Eq)]
pub struct Outgoing {
    pub position: u64,
    pub ack: Option<u64>,
    pub syn: bool,
    pub fin: bool,
    pub mss: Option<u32>,
    pub bytes: u64,
}

/// What a connection asks for, in the order in which it is to be done.
#[derive(Drop)]
pub enum Effect {
    Emit { segment: Outgoing },
    /// Let the retransmission timer fire then, in place of one that runs.
    TimerAt { at: Time },
    Connected,
    /// That many bytes can be written.
    Room { free: u64 },
    Deliver { bytes: Sequence<u8> },
    End,
    Reset,
    Dropped,
}
