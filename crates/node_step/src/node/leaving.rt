//! A packet that leaves: whole, or in fragments where it is longer than its link takes (RFC 791, section 3.2).

ghost use Rattle.std.specs.Prelude.{◌≡◌, ◌<◌, ◌≤◌, ◌^◌, OnOk, IfOk, All, fold, map};
ghost use Rattle.sim_base.specs.Packet.{len};
ghost use Rattle.node_step.specs.Leaving.{fragments_of, leaves, send_each, send_out};
ghost use Rattle.node_step.specs.Node.{progress};

use super::Node;
use super::work::Work;
use frag_core::split;
use ipv4_core::read_head;
use pkt_face::Pkt;
use sim_base::{Kind, NoMemory};
use std::alloc::Global;

/// The length of a header of IPv4.
const HEADER: u32 = 20;

/// The longest packet that every link takes.
const LEAST_MTU: u32 = 68;

impl<P: Pkt> Node<P> {
    /// Sends a packet by an interface, to the neighbour with this address: in fragments, where it is longer than the MTU.
    #[inline(always)]
    #[tactic(auto, unfolding(crate::specs::Leaving::send_out))]
    pub(super) fn send_out(
        &mut self,
        iface: u32,
        hop: u32,
        mtu: u32,
        packet: P,
        work: &mut Work<P>,
    ) -> Result<(), NoMemory>
        requires head { 20 ≤ len (P.plain packet) }
        requires size { len (P.plain packet) < 2 ^ 16 }
        ensures { OnOk result (progress self.new work.new.firing ≡ send_out iface hop mtu (P.plain packet) (progress self.old work.old.firing)) }
    {
        if packet.len() > mtu {
            return self.send_fragments(iface, hop, mtu, packet, work);
        }
        self.send_packet(iface, hop, packet, work)
    }

    /// Sends a packet that is longer than the MTU in fragments.
    #[cold]
    fn send_fragments(
        &mut self,
        iface: u32,
        hop: u32,
        mtu: u32,
        packet: P,
        work: &mut Work<P>,
    ) -> Result<(), NoMemory>
        requires head { 20 ≤ len (P.plain packet) }
        requires size { len (P.plain packet) < 2 ^ 16 }
        requires long { mtu < len (P.plain packet) }
        ensures { OnOk result (progress self.new work.new.firing ≡ send_each iface hop (fragments_of mtu (P.plain packet)) (progress self.old work.old.firing)) }
    {
        let alloc = *self.ifaces.allocator();
        let mut fragments = fragments_of(alloc, &mut work.maker, packet, mtu)?;
        self.send_each(iface, hop, &mut fragments, work)
    }

    /// Sends packets by an interface to a neighbour, one after another.
    fn send_each(
        &mut self,
        iface: u32,
        hop: u32,
        packets: &mut Vec<P>,
        work: &mut Work<P>,
    ) -> Result<(), NoMemory>
        requires { All (λ p. len p < 2 ^ 16) (map P.plain packets.old.items) }
        ensures { OnOk result (progress self.new work.new.firing ≡ fold (leaves iface hop) (progress self.old work.old.firing) (map P.plain packets.old.items)) }
    {
        packets.as_mut_slice().reverse();
        while let Some(packet) = packets.pop() {
            self.send_packet(iface, hop, packet, work)?;
        }
        Ok(())
    }
}

/// The fragments of a packet that is longer than the MTU, each with a header of its own.
fn fragments_of<P: Pkt>(
    alloc: Global,
    maker: &mut P::Maker,
    mut packet: P,
    mtu: u32,
) -> Result<Vec<P>, NoMemory>
    requires head { 20 ≤ len (P.plain packet) }
    requires size { len (P.plain packet) < 2 ^ 16 }
    requires long { mtu < len (P.plain packet) }
    ensures packets { IfOk result (λ packets. map P.plain packets.items ≡ fragments_of mtu (P.plain packet)) }
    ensures fit { IfOk result (λ packets. All (λ p. len p < 2 ^ 16) (map P.plain packets.items)) }
{
    let Some(head) = read_head(&packet) else {
        return Ok(Vec::new(alloc));
    };
    packet.pop_front(HEADER, Kind::Ipv4);
    split(alloc, maker, &head, &mut packet, mtu.max(LEAST_MTU))
}
