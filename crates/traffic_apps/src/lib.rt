//! The applications: what they send at their ticks, and what they do with what comes for them. They stand
//! above UDP and ICMP.
#![tactic(auto)]

mod app;
mod bulk;
mod counts;
mod kind;
mod stream;

pub use app::{
    Act, App, In, bulk_is_sent_in_order, count_is_sent_in_all, payloads_fit, ticks_come_later,
};
pub use counts::Counts;
pub use kind::{AppKind, Schedule};
