//! What happens to a bridge, and what it asks for.

use sim_base::Time;

/// What happens to a bridge.
#[derive(Debug, Drop)]
pub enum In<P> {
    /// A frame comes in at a port.
    Frame { now: Time, port: u32, frame: P },
}

/// What a bridge asks for.
#[derive(Debug, Drop)]
pub enum Act<P> {
    /// Send the frame out at a port.
    Out { port: u32, frame: P },
    /// The frame is for a station at the port where it came in.
    Ignored,
}
