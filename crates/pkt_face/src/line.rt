//! The lines of a trace.

use sim_base::{Key, NodeId};

/// What became of a packet at an interface.
#[derive(Clone, Copy, Debug, PartialEq, Eq)]
pub enum Sign {
    Enqueue,
    Dequeue,
    Drop,
    Receive,
    Save,
}

/// A line of the trace: what became of a packet, and at which event.
#[derive(Debug, Drop)]
pub struct Line<P> {
    pub key: Key,
    pub index: u32,
    pub node: NodeId,
    pub iface: u32,
    pub sign: Sign,
    pub packet: P,
}
