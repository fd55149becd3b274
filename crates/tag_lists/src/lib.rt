//! The tags of a packet: those on ranges of its bytes, and those on the whole packet.
//!
//! Packets have few tags, so the first four of each list stand in the value itself. While a list is no
//! longer than that, no call on it wants memory.
#![tactic(auto)]

mod tags;
#[cfg(test)]
mod tests;

pub use tags::Tags;
