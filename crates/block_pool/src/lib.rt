//! Spare blocks for packets, made ahead so that a packet's bytes need no memory of their own when they
//! come.
#![tactic(auto)]

mod class;
mod pool;
mod shelf;
#[cfg(test)]
mod tests;

pub use class::Class;
pub use pool::Pool;
