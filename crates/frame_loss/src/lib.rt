//! What becomes of a frame that comes to an interface: it is lost, it comes with one bit inverted, or it comes as it was sent.
//! The devices of links and of LANs ask here before they hand a packet on.
#![tactic(auto)]

mod fate;

pub use fate::{Fate, receive};
