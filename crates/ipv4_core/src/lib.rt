//! IPv4: sending, forwarding and delivery. It stands between the transport protocols and the links.
#![tactic(auto)]

mod ip;
mod routes;

pub use ip::{Act, In, Ip, is_fragment, read_head};
pub use routes::{Hop, Routes, Table, Way};
