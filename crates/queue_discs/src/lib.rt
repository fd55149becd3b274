//! Queue discs: the frames that wait for a device. An interface offers each frame to its disc, and the device takes the next
//! one whenever it is idle.
//!
//!     offer --> [ first band  ] --.
//!     offer --> [ second band ] ---+--> bucket (of `Tbf`) --> next
//!     offer --> [ third band  ] --'
//!
//! `Fifo` and `Tbf` keep all frames in the first band; `Prio` keeps each in the band of its priority.
#![tactic(auto)]

mod band;
mod bands;
mod bucket;
mod disc;
mod law;

pub use disc::{Disc, DiscKind, Next};
pub use law::{frames_leave_once_and_in_order, no_more_leaves_than_a_bucket_allows};
