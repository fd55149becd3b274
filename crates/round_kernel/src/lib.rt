//! Rounds: the groups of a cut fire their events beside each other, window by window, and what they write is what the plain
//! run writes.
#![tactic(auto)]

mod entering;
mod firing;
mod groups;
mod handing;
mod laws;
mod left;
mod report;
mod round;
mod rounds;
mod window;

pub use laws::{allowed_cuts_fit, rounds_of_groups};
pub use rounds::run_rounds;
pub use row_work::order_of;
