//! What a capture file says.

use sim_base::Sequence;

/// A capture: how its file spells numbers and times, and its packets in the file's order.
#[derive(Drop)]
pub struct Capture {
    /// Whether the file has the highest byte of a number first.
    pub big: bool,
    /// Whether fractions of a second are nanoseconds; otherwise they are microseconds.
    pub nano: bool,
    /// How many bytes of a packet the file holds at most, as its head says. No packet is held to it.
    pub snaplen: u32,
    pub linktype: u32,
    pub packets: Sequence<Captured>,
}

/// A packet of a capture.
#[derive(Clone, Copy, Debug, PartialEq, Eq)]
pub struct Captured {
    pub seconds: u32,
    /// Nanoseconds or microseconds, below a second.
    pub fraction: u32,
    /// How many of its bytes the file holds.
    pub captured: u32,
    /// How many bytes it had.
    pub original: u32,
    /// Where its bytes begin in the file.
    pub at: u64,
}

/// Why bytes aren't read as a capture.
#[derive(Clone, Copy, Debug, PartialEq, Eq)]
pub enum CaptureStop {
    /// The bytes are no capture: the first field that is broken begins here, or they end here inside a
    /// head or a packet, or they are more than a capture may have.
    Bad { offset: u64 },
    NoMemory,
}
