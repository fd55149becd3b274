//! What an interface is attached to.

use crate::words::Place;
use arp_core::ArpCache;
use csma_dev::Csma;
use p2p_dev::P2p;
use pkt_face::Pkt;
use std::marker::Model;

/// One end of a link, and the interface at the other.
#[derive(Drop)]
pub struct LinkEnd {
    pub(crate) peer: Place,
    pub(crate) device: P2p,
}

impl Model for LinkEnd {
    ghost use Rattle.iface_step.specs.Attachment.{PlainLinkEnd};

    ghost Value = { PlainLinkEnd };

    ghost view = { λ e. record { peer = e.peer; device = e.device } };
}

/// A place on a LAN: the LAN's number, the interfaces of its other members in the order of their nodes, a device, and what
/// is known of addresses.
#[derive(Drop)]
pub struct LanEnd<P: Pkt> {
    pub(crate) lan: u32,
    pub(crate) others: Vec<Place>,
    pub(crate) device: Csma<P>,
    pub(crate) cache: ArpCache<P>,
}

impl<P: Pkt> Model for LanEnd<P> {
    ghost use Rattle.iface_step.specs.Attachment.{PlainLanEnd};

    ghost Value = { PlainLanEnd };

    ghost view = { λ e. record { lan = e.lan; others = e.others.items; device = e.device; cache = e.cache } };
}

/// What an interface is attached to.
#[derive(Drop)]
pub enum Attachment<P: Pkt> {
    Link(LinkEnd),
    Lan(LanEnd<P>),
}
