//! Room that steps use again and again, for what devices and address resolution ask for.

use pkt_face::Pkt;
use std::alloc::Global;

/// What a device asks for: of a link, or of a LAN.
#[derive(Drop)]
pub struct DeviceTools<P: Pkt> {
    pub(crate) link: Vec<p2p_dev::Act<P>>,
    pub(crate) lan: Vec<csma_dev::Act<P>>,
}

/// What address resolution asks for, and the device that sends for it.
#[derive(Drop)]
pub struct ArpTools<P: Pkt> {
    pub(crate) acts: Vec<arp_core::Act<P>>,
    pub(crate) device: DeviceTools<P>,
}

/// What a step of an interface uses: room for what a device asks for to which a frame has come, and for what follows.
#[derive(Drop)]
pub struct IfaceTools<P: Pkt> {
    pub(crate) come: DeviceTools<P>,
    pub(crate) arp: ArpTools<P>,
}

impl<P: Pkt> IfaceTools<P> {
    pub fn make(alloc: Global) -> IfaceTools<P> {
        let come = DeviceTools {
            link: Vec::new(alloc),
            lan: Vec::new(alloc),
        };
        let device = DeviceTools {
            link: Vec::new(alloc),
            lan: Vec::new(alloc),
        };
        let arp = ArpTools {
            acts: Vec::new(alloc),
            device,
        };
        IfaceTools { come, arp }
    }
}
