//! Who talks to whom, and what arrives.

use sim_base::Sequence;
use tcp_conn::Heard;

/// A connection's own address and port, and the other side's.
#[derive(Clone, Copy, Debug, PartialEq, Eq, Hash)]
pub struct SocketPair {
    pub addr: u32,
    pub port: u16,
    pub other_addr: u32,
    pub other_port: u16,
}

/// A segment that arrived whole: its ports, what its header says, and its bytes.
#[derive(Drop)]
pub struct Arrived {
    pub sport: u16,
    pub dport: u16,
    pub says: Heard,
    pub bytes: Sequence<u8>,
}
