//! What a packet is made of: its headers, payload, trailers and padding, outermost first, with what has
//! been cut from each since.
//!
//! A packet has few parts, so the first eight stand in the value itself. While the list is no longer
//! than that, no call on it wants memory.
#![tactic(auto)]

mod meta;
#[cfg(test)]
mod tests;

pub use meta::Meta;
