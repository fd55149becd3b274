//! A learning bridge (IEEE 802.1D, sections 7.7 to 7.9): it joins LANs, and remembers at which of its ports each station was
//! heard last. It has no spanning tree, so the LANs that bridges join must not make a circle.
//!
//!     frame --port--> learn its source --> where is its destination?
//!                                            everyone, or unknown  --> every other port
//!                                            another port          --> that port
//!                                            the port it came from --> ignored
#![tactic(auto)]

mod bridge;
mod law;
mod words;

pub use bridge::{Bridge, Sighting};
pub use law::{entries_are_last_frames, frames_go_out_once};
pub use words::{Act, In};
