//! Address resolution (RFC 826): which MAC address has an IPv4 address on a LAN. It stands below IPv4, at each
//! interface of a LAN.
#![tactic(auto)]

mod cache;
mod entry;
mod law;
mod words;

pub use cache::ArpCache;
pub use entry::{Entry, Resolution};
pub use law::{few_packets_wait, timers_come_later};
pub use words::{Act, In};
