//! The types that every crate of the simulator shares: time and rates, the keys of events, the parts of a packet,
//! random numbers, and the frames that an interface loses. `specs/` has the vocabulary of plain packets.
#![tactic(auto)]

mod item;
mod key;
mod laws;
mod loss;
mod memory;
mod numbers;
mod random;
mod sequence;
mod tags;
mod time;

pub use item::{Item, Kind};
pub use key::{Key, NodeId};
pub use laws::{
    calls_are_undone, cuts_and_joins_are_undone, keys_are_totally_ordered, packets_stay_packets,
};
pub use loss::{Loss, LossKind};
pub use memory::NoMemory;
pub use numbers::{Numbers, Uid};
pub use random::Random;
pub use sequence::Sequence;
pub use tags::{Absent, ByteTag, PacketTag, TagStop};
pub use time::{Rate, Time};

#[cfg(test)]
mod tests;
