//! What IPv4 does with a packet: the node's own go up to their protocol, others are forwarded (RFC 791).

ghost use Rattle.std.specs.Prelude.{◌≡◌, ◌≤◌, ◌<◌, ◌^◌, OnOk, IfOk, IfSome, IfNone, All, slice_range};
ghost use Rattle.sim_base.specs.Packet.{len};
ghost use Rattle.layer_words.specs.Acts.{Appends};
ghost use Rattle.header_forms.specs.Ipv4.{ipv4_of};
ghost use Rattle.ipv4_core.specs.Seen.{plain_in, plain_act};

use crate::routes::{Hop, Routes, Way};
use header_forms::Ipv4;
use pkt_face::Pkt;
use sim_base::{Kind, NoMemory, Numbers};
use std::collections::BTreeSet;
use std::marker::Model;

/// What happens to IPv4.
#[derive(Debug, Drop)]
pub enum In<P> {
    /// A packet is to be sent. With no source it gets the address of the interface that it leaves by.
    Send {
        src: Option<u32>,
        dst: u32,
        proto: u8,
        packet: P,
    },
    /// A packet arrives, with its header.
    Arrive {
        packet: P,
    },
}

/// What IPv4 asks for.
#[derive(Debug, Drop)]
pub enum Act<P> {
    /// Send a packet, with its header, by an interface to a neighbour: in fragments, where it is longer than this MTU.
    Out {
        iface: u32,
        hop: u32,
        mtu: u32,
        packet: P,
    },
    /// Hand a packet, without its header, to its protocol, or to reassembly where it is a fragment.
    Local {
        head: Ipv4,
        packet: P,
    },
    /// Tell the source what became of its packet, which is without its header.
    Report {
        kind: u8,
        code: u8,
        head: Ipv4,
        packet: P,
    },
    /// Count a packet as dropped.
    Dropped,
}

/// The routes and the addresses of a node.
#[derive(Drop)]
pub struct Ip {
    routes: Routes,
    own: BTreeSet<u32>,
}

impl Model for Ip {
    ghost use Rattle.ipv4_core.specs.Ip.{PlainIp};

    ghost Value = { PlainIp };

    ghost view = { λ ip. record { routes = ip.routes; own = ip.own.keys } };
}

/// The length of a header.
const HEADER: u32 = 20;

/// The place value of the flag that forbids fragments, and of the one that says that more follow.
const DONT_FRAGMENT: u8 = 2;

const MORE_FRAGMENTS: u8 = 1;

impl Ip {
    ghost use Rattle.ipv4_core.specs.Ip.{CanTake, FitsDatagram, IsIp, headed, most_data, step, forward, input, arrived, local};
    ghost use Rattle.ipv4_core.specs.Routes.{HasNoWay, hop, route, source};

    /// These routes, and the node's own addresses.
    pub fn make(routes: Routes, own: BTreeSet<u32>) -> Ip
        ensures { result ≡ record { routes = routes; own = own.keys } }
    {
        Ip { routes, own }
    }

    /// Longer prefixes are looked for first.
    pub fn is_sorted(&self)
        ensures { IsIp self.now }
    {
        self.routes.is_falling();
    }

    /// The interface and the neighbour by which packets to an address leave: those of the route with the
    /// longest prefix.
    pub fn route(&self, dst: u32) -> Option<Hop>
        ensures value { result ≡ hop dst (route dst self.now.routes) }
        ensures none { IfNone result (HasNoWay dst self.now.routes) }
    {
        let way = self.routes.route(dst)?;
        Some(Hop {
            iface: way.iface,
            addr: way.neighbour(dst),
        })
    }

    /// The own address that packets to an address are sent from: that of the interface which they leave by.
    pub fn source(&self, dst: u32) -> Option<u32>
        ensures value { result ≡ source (route dst self.now.routes) }
        ensures none { IfNone result (HasNoWay dst self.now.routes) }
    {
        let way = self.routes.route(dst)?;
        Some(way.addr)
    }

    /// Takes an input, with the node's numbers, and puts the acts that follow behind `acts`. After
    /// `NoMemory` all are given up.
    #[tactic(auto, using(crate::proofs::FitLaws::sent_fits))]
    pub fn step<P: Pkt>(
        &self,
        input: In<P>,
        maker: &mut P::Maker,
        numbers: &mut Numbers,
        acts: &mut Vec<Act<P>>,
    ) -> Result<(), NoMemory>
        requires { CanTake (plain_in P.plain input) }
        ensures numbers { OnOk result (numbers.new ≡ (step self.now numbers.old (plain_in P.plain input)).numbers) }
        ensures acts { OnOk result (Appends (plain_act P.plain) acts.old.items acts.new.items (step self.now numbers.old (plain_in P.plain input)).acts) }
        ensures fits { All FitsDatagram (step self.now numbers.old (plain_in P.plain input)).acts }
    {
        match input {
            In::Send {
                src,
                dst,
                proto,
                packet,
            } => self.send(src, dst, proto, packet, maker, numbers, acts),
            In::Arrive { packet } => self.arrive(packet, maker, acts),
        }
    }

    fn send<P: Pkt>(
        &self,
        src: Option<u32>,
        dst: u32,
        proto: u8,
        packet: P,
        maker: &mut P::Maker,
        numbers: &mut Numbers,
        acts: &mut Vec<Act<P>>,
    ) -> Result<(), NoMemory>
        requires { len (P.plain packet) ≤ most_data }
        ensures numbers { OnOk result (numbers.new ≡ (step self.now numbers.old (In.Send src dst proto (P.plain packet))).numbers) }
        ensures acts { OnOk result (Appends (plain_act P.plain) acts.old.items acts.new.items (step self.now numbers.old (In.Send src dst proto (P.plain packet))).acts) }
    {
        let Some(way) = self.routes.route(dst) else {
            acts.push(Act::Dropped)?;
            return Ok(());
        };
        let head = Ipv4 {
            tos: 0,
            total: (HEADER + packet.len()) as u16,
            id: numbers.ids,
            flags: 0,
            offset: 0,
            ttl: 64,
            proto,
            src: src.unwrap_or(way.addr),
            dst,
        };
        numbers.ids = numbers.ids.wrapping_add(1);
        acts.push(leave(way, head, packet, maker)?)?;
        Ok(())
    }

    fn arrive<P: Pkt>(
        &self,
        packet: P,
        maker: &mut P::Maker,
        acts: &mut Vec<Act<P>>,
    ) -> Result<(), NoMemory>
        ensures acts { OnOk result (Appends (plain_act P.plain) acts.old.items acts.new.items (arrived self.now (P.plain packet))) }
        ensures fits { All FitsDatagram (arrived self.now (P.plain packet)) }
    {
        let head = read_head(&packet);
        self.receive(head, packet, maker, acts)
    }

    /// Takes the header off, and what is behind the datagram.
    fn receive<P: Pkt>(
        &self,
        head: Option<Ipv4>,
        mut packet: P,
        maker: &mut P::Maker,
        acts: &mut Vec<Act<P>>,
    ) -> Result<(), NoMemory>
        requires { IfSome head (λ h. (20 ≤ h.total) × (h.total < 2 ^ 16)) }
        ensures { OnOk result (Appends (plain_act P.plain) acts.old.items acts.new.items (headed self.now (P.plain packet) head)) }
    {
        let Some(head) = head else {
            acts.push(Act::Dropped)?;
            return Ok(());
        };
        if packet.len() < u32::from(head.total) {
            acts.push(Act::Dropped)?;
            return Ok(());
        }
        packet.cut(0, u32::from(head.total));
        packet.pop_front(HEADER, Kind::Ipv4);
        self.input(head, packet, maker, acts)
    }

    fn input<P: Pkt>(
        &self,
        head: Ipv4,
        packet: P,
        maker: &mut P::Maker,
        acts: &mut Vec<Act<P>>,
    ) -> Result<(), NoMemory>
        requires { len (P.plain packet) ≤ most_data }
        ensures { OnOk result (Appends (plain_act P.plain) acts.old.items acts.new.items (input self.now head (P.plain packet))) }
    {
        if self.own.contains(&head.dst) {
            return deliver(head, packet, acts);
        }
        self.forward(head, packet, maker, acts)
    }

    fn forward<P: Pkt>(
        &self,
        mut head: Ipv4,
        packet: P,
        maker: &mut P::Maker,
        acts: &mut Vec<Act<P>>,
    ) -> Result<(), NoMemory>
        requires { len (P.plain packet) ≤ most_data }
        ensures { OnOk result (Appends (plain_act P.plain) acts.old.items acts.new.items (forward self.now head (P.plain packet))) }
    {
        if head.ttl <= 1 {
            return tell(11, 0, head, packet, acts);
        }
        let Some(way) = self.routes.route(head.dst) else {
            return tell(3, 0, head, packet, acts);
        };
        if HEADER + packet.len() > way.mtu && head.flags / DONT_FRAGMENT % 2 == 1 {
            return tell(3, 4, head, packet, acts);
        }
        head.ttl -= 1;
        acts.push(leave(way, head, packet, maker)?)?;
        Ok(())
    }
}

ghost use Rattle.ipv4_core.specs.Ip.{is_fragment, is_known, local, most_data, out, told};

/// Hands a datagram for this node to its protocol, or to reassembly where it is a fragment.
fn deliver<P: Pkt>(head: Ipv4, packet: P, acts: &mut Vec<Act<P>>) -> Result<(), NoMemory>
    ensures { OnOk result (Appends (plain_act P.plain) acts.old.items acts.new.items (local head (P.plain packet))) }
{
    if !is_fragment(&head) && !is_known(head.proto) {
        return tell(3, 2, head, packet, acts);
    }
    acts.push(Act::Local { head, packet })?;
    Ok(())
}

/// Whether a header is that of a fragment: it has an offset, or more fragments follow.
pub fn is_fragment(head: &Ipv4) -> bool
    ensures { result ≡ is_fragment head.now }
{
    head.offset != 0 || head.flags % (2 * MORE_FRAGMENTS) == 1
}

/// Whether a protocol is ICMP, TCP or UDP.
fn is_known(proto: u8) -> bool
    ensures { result ≡ is_known proto }
{
    proto == 1 || proto == 6 || proto == 17
}

/// Puts the header in front of a packet that leaves.
fn leave<P: Pkt>(
    way: Way,
    head: Ipv4,
    mut packet: P,
    maker: &mut P::Maker,
) -> Result<Act<P>, NoMemory>
    requires { len (P.plain packet) ≤ most_data }
    ensures { IfOk result (λ act. plain_act P.plain act ≡ out way head (P.plain packet)) }
{
    let mut bytes = [0; 20];
    head.write(&mut bytes);
    packet.push_front(maker, Kind::Ipv4, &bytes)?;
    Ok(Act::Out {
        iface: way.iface,
        hop: way.neighbour(head.dst),
        mtu: way.mtu,
        packet,
    })
}

/// Tells the source of a packet why it is dropped.
fn tell<P: Pkt>(
    kind: u8,
    code: u8,
    head: Ipv4,
    packet: P,
    acts: &mut Vec<Act<P>>,
) -> Result<(), NoMemory>
    ensures { OnOk result (Appends (plain_act P.plain) acts.old.items acts.new.items (told kind code head (P.plain packet))) }
{
    acts.push(Act::Report {
        kind,
        code,
        head,
        packet,
    })?;
    acts.push(Act::Dropped)?;
    Ok(())
}

/// The header that a packet begins with.
#[inline(always)]
pub fn read_head<P: Pkt>(packet: &P) -> Option<Ipv4>
    ensures value { result ≡ ipv4_of (slice_range (P.plain packet.now).bytes 0 20) }
    ensures total { IfSome result (λ head. (20 ≤ head.total) × (head.total < 2 ^ 16)) }
{
    if packet.len() < HEADER {
        return None;
    }
    let mut bytes = [0; 20];
    packet.peek(0, &mut bytes);
    Ipv4::read(&bytes).ok()
}
