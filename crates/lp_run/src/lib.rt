//! A group of nodes that fires its own events, in the order of their keys.
#![tactic(auto)]

mod handing;
mod lp;
mod stop;

pub use lp::Lp;
pub use stop::LpStop;
