//! What a node numbers: its packets, IPv4 identifications and timers.

use crate::key::NodeId;

/// A packet's identity: the node that made it, and that node's count of packets.
#[derive(Clone, Copy, Debug, PartialEq, Eq)]
pub struct Uid {
    pub node: NodeId,
    pub count: u64,
}

/// What a node has numbered so far: its packets, its IPv4 identifications, and its stamps.
#[derive(Clone, Copy, Debug, PartialEq, Eq)]
pub struct Numbers {
    pub node: NodeId,
    pub packets: u64,
    pub ids: u16,
    pub stamps: u64,
}
