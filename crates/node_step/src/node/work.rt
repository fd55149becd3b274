//! What each stage on a packet's way uses.

ghost use Rattle.std.specs.Prelude.{◌≡◌, []};

use crate::firing::Firing;
use csma_dev::Bus;
use iface_step::IfaceTools;
use pkt_face::Pkt;
use std::alloc::Global;
use std::mem;

/// A firing, the maker of its packets, and room for the acts of each stage. A packet's way leads through each stage once at
/// most, and the room is used again and again.
#[derive(Drop)]
pub struct Work<P: Pkt> {
    pub(crate) firing: Firing<P>,
    pub(super) maker: P::Maker,
    /// What an interface uses within a step.
    pub(super) iface: IfaceTools<P>,
    /// What an interface asks for when something happens at it, and when it sends.
    pub(super) iface_up: Vec<iface_step::Act<P>>,
    pub(super) iface_down: Vec<iface_step::Act<P>>,
    /// The same of IPv4.
    pub(super) ip_up: Vec<ipv4_core::Act<P>>,
    pub(super) ip_down: Vec<ipv4_core::Act<P>>,
    /// What reassembly asks for.
    pub(super) frags: Vec<frag_core::Act<P>>,
    /// What UDP and ICMP ask for when a packet comes, and when they send.
    pub(super) ports_up: Vec<udp_icmp::Act<P>>,
    pub(super) ports_down: Vec<udp_icmp::Act<P>>,
    /// What TCP asks for when a segment comes or a timer fires, and when an application asks something of it.
    pub(super) conns_up: Vec<tcp_flow::Act<P>>,
    pub(super) conns_down: Vec<tcp_flow::Act<P>>,
    /// What an application asks for.
    pub(super) app: Vec<traffic_apps::Act<P>>,
}

impl<P: Pkt> Work<P> {
    pub fn make(alloc: Global, lans: Vec<Bus>) -> Work<P>
        ensures { result.firing.lans ≡ lans.items }
    {
        Work {
            firing: Firing::new(alloc, lans),
            maker: P::maker(alloc),
            iface: IfaceTools::make(alloc),
            iface_up: Vec::new(alloc),
            iface_down: Vec::new(alloc),
            ip_up: Vec::new(alloc),
            ip_down: Vec::new(alloc),
            frags: Vec::new(alloc),
            ports_up: Vec::new(alloc),
            ports_down: Vec::new(alloc),
            conns_up: Vec::new(alloc),
            conns_down: Vec::new(alloc),
            app: Vec::new(alloc),
        }
    }
}

/// Takes the room of a stage, which puts it back in the end.
pub(super) fn room<A: Drop>(list: &mut Vec<A>) -> Vec<A>
    ensures { result.items ≡ [] }
{
    let alloc = *list.allocator();
    let mut acts = mem::replace(list, Vec::new(alloc));
    acts.clear();
    acts
}
