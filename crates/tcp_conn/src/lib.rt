//! One TCP connection (RFC 9293) as a machine over positions of its stream: what it makes of a segment, a timeout, a write
//! or a close, and what it asks for then. Packets, checksums and ports are the layer's above.
#![tactic(auto)]

mod acknowledge;
mod begin;
mod connection;
mod hear;
mod law;
mod pump;
mod round_trip;
mod send;
mod take;
mod timeout;
mod words;

pub use begin::SINK_MSS;
pub use connection::{Connection, Phase, Timed};
pub use law::{deliveries_are_a_prefix, sinks_follow_the_law};
pub use round_trip::RoundTrip;
pub use words::{Effect, Heard, Outgoing};
