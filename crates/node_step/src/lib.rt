//! A node of the simulation, and how it reacts to an event: the only place where the layers meet. A packet's way down is
//! `node/apps`, `node/asking`, `node/sending` and `node/down`, and its way up is `node/up` and `node/hearing`; what lies below IPv4 at one interface is a
//! layer of its own, `iface_step`.
#![tactic(auto)]

mod firing;
mod loads;
mod local_app;
mod node;
mod part;
mod stop;

pub use firing::Firing;
pub use loads::{Effects, Event, Load};
pub use local_app::{AppCount, LocalApp};
pub use node::{Node, Work};
pub use part::Part;
pub use stop::FireStop;
