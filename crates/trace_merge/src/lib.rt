//! Where the lines of a run go: the trait that a kernel puts them to, a form of it that keeps them in memory, and how the
//! lines of groups are merged on their way.
#![tactic(auto)]

mod kept;
mod merging;
mod out;
#[cfg(test)]
mod tests;

pub use kept::{KeptLine, KeptLines};
pub use merging::merge;
pub use out::LineOut;
