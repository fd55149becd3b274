//! The trace as text, as ns-3's ASCII traces have it: a line for each frame that a queue disc keeps, gives or loses, and for each that an
//! interface receives. The head of a line, and each part of its packet, is put together on the stack from its last byte to its first, and
//! goes into the file's buffer in one piece.
//!
//!     + 2.000000000 n0 i0 p0.0 1054 ppp:2 ipv4:20 udp:8 payload:1024
#![tactic(auto)]

mod entry;
pub mod numbers;
#[cfg(test)]
mod tests;
mod text;

pub use entry::Entry;
pub use text::{write_entry, write_line};
