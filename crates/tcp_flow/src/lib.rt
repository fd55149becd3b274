//! The TCP connections of a node: what a connection asks for becomes packets, numbers and stamps.
#![tactic(auto)]

mod carry;
mod conn;
mod conns;
mod event;
mod law;
mod stray;
mod table;
mod words;

pub use conn::Conn;
pub use conns::Conns;
pub use law::{
    deliveries_between_nodes_are_a_prefix, new_numbers_are_the_least_free, timers_come_later,
};
pub use stray::refuse;
pub use words::{Act, Event, In, Seg};
