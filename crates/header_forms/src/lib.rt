//! The headers of the simulated protocols, read from bytes and written as bytes, and the Internet
//! checksum.
#![tactic(auto)]

mod arp;
mod bad;
mod fields;
mod icmp;
mod ipv4;
mod link;
mod options;
mod sum;
mod tcp;
#[cfg(test)]
mod tests;
mod udp;

pub use arp::Arp;
pub use bad::Bad;
pub use icmp::Icmp;
pub use ipv4::Ipv4;
pub use link::{Ethernet, Ppp};
pub use sum::Sum;
pub use tcp::Tcp;
pub use udp::Udp;
