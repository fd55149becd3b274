//! What happens to a device, and what it asks for.

use sim_base::Time;

/// What happens to a device.
#[derive(Debug, Drop)]
pub enum In<P> {
    /// A frame is to be sent.
    Start { now: Time, frame: P },
    /// The device's own frame has come to the others.
    BusFree,
    /// The time to wait for the bus is over.
    BackoffOver { now: Time },
    /// A frame comes over the bus.
    Arrive { frame: P },
}

/// What a device asks for.
#[derive(Debug, Drop)]
pub enum Act<P> {
    /// Write the frame into the traces: one that starts, or one that was received, as it was received.
    Save { frame: P },
    /// Let the frame arrive at each other device of the bus, then.
    ArriveAt { at: Time, frame: P },
    /// Tell this device, then, that its frame has come to the others.
    SentAt { at: Time },
    /// Tell this device, then, that the time to wait is over.
    BackoffAt { at: Time },
    /// The bus was never free for this frame, and the device is idle.
    GaveUp { frame: P },
    /// A frame that came over the bus is lost.
    Lost { frame: P },
    /// Hand a packet, without its header and trailer, to a protocol.
    Up { proto: u16, packet: P },
}
