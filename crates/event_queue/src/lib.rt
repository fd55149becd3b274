//! The pending events of a run. A queue is seen as the list of its events in the order of their keys, and
//! costs a logarithm of their number for each call.
#![tactic(auto)]

mod agenda;
mod heap;
mod queue;
#[cfg(test)]
mod tests;

pub use queue::Queue;
