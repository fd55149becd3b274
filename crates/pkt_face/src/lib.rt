//! What a packet is to the layers of the simulator, the packet that copies everything, and a packet of any
//! kind in a box, which is moved as one word.
#![tactic(auto)]

mod boxed;
mod face;
mod line;
mod lists;
mod offer;
mod plain;
#[cfg(test)]
mod tests;

pub use boxed::BoxedPkt;
pub use face::Pkt;
pub use line::{Line, Sign};
pub use offer::Offer;
pub use plain::PlainPkt;
