//! UDP and ICMP: datagrams between ports, echo, and reports of what became of a packet. They stand between
//! IPv4 and the applications.
#![tactic(auto)]

mod icmp;
mod ports;
mod udp;

pub use ports::{Act, In, Ports, no_report_about_reports, packets_fit};
