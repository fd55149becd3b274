//! TCP segments as packets (RFC 9293, section 3.1): what a header says and the bytes behind it become a packet with ports
//! and a checksum, and are read from one.
#![tactic(auto)]

mod law;
mod read;
mod words;
mod write;

pub use law::segments_are_read_as_written;
pub use read::read_segment;
pub use words::{Arrived, SocketPair};
pub use write::write_segment;
