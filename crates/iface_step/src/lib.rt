//! What lies below IPv4 at one interface: the queue disc, the device of a link or of a LAN, and on a LAN address
//! resolution. A packet goes down into the disc and onto the link or the bus; a frame comes up without its header.
#![tactic(auto)]

mod attachment;
mod device;
mod frames;
mod iface;
mod law;
mod lines;
mod tools;
mod words;

pub use attachment::{Attachment, LanEnd, LinkEnd};
pub use device::DeviceAct;
pub use iface::Iface;
pub use law::{acts_come_later, links_leave_the_bus, neighbours_alone, only_arrivals_go_up};
pub use tools::{ArpTools, DeviceTools, IfaceTools};
pub use words::{Act, Happening, In, Place};
