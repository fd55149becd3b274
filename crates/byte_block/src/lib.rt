//! The bytes of one block of memory, in ranges that several owners hold at once.
//!
//! ```text
//! 0            8            12           16
//! | FreeRange  | FrozenRange | FreeRange |    one block: free places may be filled at either side
//! ```
//!
//! A `FreeRange` may be filled, and no other range has its places. A `FrozenRange` may be read and
//! shared, and its bytes never change. A `WholeBlock` has all three ranges of a block and is its only
//! owner, so that a block which nobody shares costs no count of owners. The block is freed when its last
//! range is dropped. Only a new block and one owner more of a block (`make`, `split_at`, `share`,
//! `into_ranges`) can want for memory.
#![tactic(auto)]

mod free;
mod frozen;
mod memory;
#[cfg(test)]
mod tests;
mod whole;

pub use free::{FreeRange, RawBytes};
pub use frozen::FrozenRange;
pub use whole::WholeBlock;
