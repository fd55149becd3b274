//! Which cuts of a network into groups of nodes are allowed, and how they are made. Groups are fired
//! beside each other, each within a window that no other group reaches: so the nodes of a LAN stay
//! together, and each link between groups takes time. The least of these times is the lookahead.
#![tactic(auto)]

mod automatic;
mod counting;
mod lookahead;
mod network;
#[cfg(test)]
mod tests;
mod verdict;
mod whole;

pub use automatic::auto;
pub use network::{Cut, Shape};
pub use verdict::{CutBad, CutStop, check};
pub use whole::one;
