//! Fragments of IPv4 datagrams: a datagram that is longer than a link takes is split, and its fragments are put together
//! again where they arrive. It stands beside IPv4, between the network and the transport protocols.
#![tactic(auto)]

mod fragment;
mod frags;
mod law;
mod reassembly;
mod splits;
mod words;

pub use fragment::{DatagramId, Fragment};
pub use frags::Frags;
pub use law::{covering_lists_are_reassembled, fragments_cover, timers_come_later};
pub use splits::split;
pub use words::{Act, In};
