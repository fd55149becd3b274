//! A device of a LAN: one of those that share a bus. It takes frames from its queue disc, sends one at a time while the
//! bus is free, and hands packets that arrive to IPv4 and address resolution.
#![tactic(auto)]

mod bus;
mod device;
mod law;
mod words;

pub use bus::Bus;
pub use device::{Csma, HEADER, TRAILER};
pub use law::{acts_come_later, one_frame_at_a_time};
pub use words::{Act, In};
