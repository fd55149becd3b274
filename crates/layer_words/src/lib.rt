//! The words that the protocol layers share: acts that are put behind those that were there, the numbers
//! of new packets and timers, and the checksum of bytes and the packet behind them.
#![tactic(auto)]

mod checksum;
mod counting;

pub use checksum::{checksum_behind, checksum_behind_header, pseudo_header};
pub use counting::{next_stamp, next_uid};
