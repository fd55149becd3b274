//! How a packet becomes a frame: with PPP's header on a link, with Ethernet's header, padding and trailer on a LAN.

ghost use Rattle.std.specs.Prelude.{◌≡◌, ◌<◌, ◌^◌, IfOk, OnOk, Option, slice_range};
ghost use Rattle.sim_base.specs.Packet.{len};
ghost use Rattle.header_forms.specs.Arp.{arp_of};
ghost use Rattle.iface_step.specs.Frames.{lan_frame, link_frame, message, padded};

use header_forms::{Arp, Ethernet};
use pkt_face::Pkt;
use sim_base::{Kind, NoMemory, Uid};
use std::alloc::Global;

/// The numbers of IPv4 and of ARP in a frame of a LAN, and of IPv4 in a frame of a link.
pub(crate) const IP_ON_LAN: u16 = 0x0800;

pub(crate) const ARP_ON_LAN: u16 = 0x0806;

pub(crate) const IP_ON_LINK: u16 = 0x0021;

/// IPv4's number, in front of a packet on a link.
const LINK_HEADER: [u8; 2] = [0, 0x21];

/// A frame of a LAN has so many bytes of data at least.
const LEAST_DATA: u32 = 46;

/// No packet of IPv4 is longer.
const LONGEST_DATAGRAM: u32 = 65_535;

/// Four zeros stand for the frame check sequence.
const TRAILER: [u8; 4] = [0; 4];

/// The zeros of the longest padding.
const PADDING: [u8; 46] = [0; 46];

/// A frame of a link.
pub(crate) fn link_frame<P: Pkt>(mut packet: P, maker: &mut P::Maker) -> Result<P, NoMemory>
    requires { len (P.plain packet) < 2 ^ 16 }
    ensures { IfOk result (λ frame. P.plain frame ≡ link_frame (P.plain packet)) }
{
    packet.push_front(maker, Kind::Ppp, &LINK_HEADER)?;
    Ok(packet)
}

/// A frame of a LAN. One that is longer than any datagram isn't made.
#[tactic(auto, using(sim_base::proofs::PacketLaws::lengths))]
pub(crate) fn lan_frame<P: Pkt>(
    to: [u8; 6],
    from: [u8; 6],
    proto: u16,
    mut packet: P,
    maker: &mut P::Maker,
) -> Result<P, NoMemory>
    ensures { IfOk result (λ frame. P.plain frame ≡ lan_frame to from proto (P.plain packet)) }
{
    if packet.len() > LONGEST_DATAGRAM {
        return Err(NoMemory);
    }
    let mut header = [0; Ethernet::SIZE];
    Ethernet {
        dst: to,
        src: from,
        proto,
    }
    .write(&mut header);
    pad(&mut packet, maker)?;
    packet.push_back(maker, Kind::Trailer, &TRAILER)?;
    packet.push_front(maker, Kind::Ethernet, &header)?;
    Ok(packet)
}

/// Puts zeros behind a packet that has too few bytes for a frame of a LAN.
#[tactic(auto, using(sim_base::proofs::PacketLaws::lengths))]
fn pad<P: Pkt>(packet: &mut P, maker: &mut P::Maker) -> Result<(), NoMemory>
    requires { len (P.plain packet.old) < 2 ^ 16 }
    ensures value { OnOk result (P.plain packet.new ≡ padded (P.plain packet.old)) }
    ensures size { OnOk result (len (P.plain packet.new) < 2 ^ 16) }
{
    let size = packet.len();
    if size < LEAST_DATA {
        packet.push_back(maker, Kind::Pad, &PADDING[..(LEAST_DATA - size) as usize])?;
    }
    Ok(())
}

/// A message of address resolution.
pub(crate) fn message<P: Pkt>(
    alloc: Global,
    uid: Uid,
    arp: &Arp,
    maker: &mut P::Maker,
) -> Result<P, NoMemory>
    ensures { IfOk result (λ packet. P.plain packet ≡ message uid arp.now) }
{
    let mut bytes = [0; Arp::SIZE];
    arp.write(&mut bytes);
    let mut packet = P::from_bytes(alloc, maker, uid, &[])?;
    packet.push_front(maker, Kind::Arp, &bytes)?;
    Ok(packet)
}

/// The message that a packet begins with, if it can be read.
pub(crate) fn read_message<P: Pkt>(packet: &P) -> Option<Arp>
    ensures { result ≡ arp_of (slice_range (P.plain packet.now).bytes 0 28) }
{
    if (packet.len() as usize) < Arp::SIZE {
        return None;
    }
    let mut bytes = [0; Arp::SIZE];
    packet.peek(0, &mut bytes);
    Arp::read(&bytes).ok()
}
