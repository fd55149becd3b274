//! The queue disc CoDel, alone (RFC 8289) and with a queue for each class of flows (RFC 8290). It stands where `queue_discs`
//! stands, between an interface and its device, and drops frames that have waited too long, ever faster, until the wait is
//! short again. All times are whole nanoseconds, and nothing is marked.
//!
//!     offer --> [ class 0  ] --.
//!     offer --> [ class 1  ] ---+--> whose turn? --> late? --> next
//!       ...        ...         |       (credit)       |
//!     offer --> [ class 63 ] --'                      '------> dropped
//!
//! Alone, CoDel has one class and no turns.
#![tactic(auto)]

mod class;
mod control;
mod disc;
mod flows;
mod kind;
mod laws;
mod pace;
mod queues;
mod roster;
mod turn;
mod waiting;

pub use disc::Codel;
pub use kind::CodelKind;
pub use laws::{
    calls_are_turns, classes_keep_order, credits_stay_small, dropped_frames_waited,
    frames_leave_in_order, turns_are_fair,
};
pub use pace::root;
