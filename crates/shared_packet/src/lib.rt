//! The packet that the program runs on: copies of it share their bytes, which grow in place, and its few
//! tags and items stand in the value itself.
#![tactic(auto)]

mod packet;

pub use packet::SharedPkt;
