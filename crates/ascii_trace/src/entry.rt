//! What a line of the trace tells.

use pkt_face::Sign;
use sim_base::{NodeId, Time, Uid};

/// A line of the trace but for the items of its packet: what became of it, when and where, which packet it is, and its
/// length in bytes.
#[derive(Clone, Copy, Debug, PartialEq, Eq)]
pub struct Entry {
    pub sign: Sign,
    pub time: Time,
    pub node: NodeId,
    pub iface: u32,
    pub uid: Uid,
    pub length: u32,
}
