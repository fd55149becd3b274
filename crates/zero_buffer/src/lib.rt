//! The bytes of a packet: a window on a block that its copies share, with an area of zeros that is only
//! counted.
#![tactic(auto)]

mod buffer;
mod growth;
#[cfg(test)]
mod tests;

pub use buffer::Buffer;
pub use growth::Grown;
