//! An interface: a queue disc, and below it a link or a LAN.

ghost use Rattle.std.specs.Prelude.{◌≡◌, ◌||◌, ◌<◌, ◌≤◌, ◌^◌, ◌↔◌, false, [], IsTrue, OnOk, map};
ghost use Rattle.layer_words.specs.Acts.{Appends};
ghost use Rattle.sim_base.specs.Packet.{len};
ghost use Rattle.iface_step.specs.Attachment.{OnLan, OnLink, lan_of, least_frame};
ghost use Rattle.iface_step.specs.Seen.{plain_act, plain_happening, plain_in};
ghost use Rattle.iface_step.specs.Step.{CanHappen, CanTake, handled, happened, sends, step};

mod down;
mod resolution;
mod up;

use self::down::LAN_HEADER;
use crate::attachment::{Attachment, LanEnd, LinkEnd};
use crate::frames::link_frame;
use crate::tools::{ArpTools, IfaceTools};
use crate::words::{Act, Happening, In, Place};
use arp_core::ArpCache;
use csma_dev::{Bus, Csma};
use p2p_dev::P2p;
use pkt_face::Pkt;
use queue_discs::Disc;
use sim_base::{NoMemory, Numbers, Random, Time};
use std::marker::Model;

/// An interface of a node: the frames that wait, and what it is attached to.
#[derive(Drop)]
pub struct Iface<P: Pkt> {
    place: Place,
    told: bool,
    captured: bool,
    disc: Disc<P>,
    ready_later: bool,
    at: Attachment<P>,
}

impl<P: Pkt> Model for Iface<P> {
    ghost use Rattle.iface_step.specs.Iface.{PlainIface};
    ghost use Rattle.iface_step.specs.SeenAttachment.{plain_attachment};

    ghost Value = { PlainIface };

    ghost view = { λ i. record { place = i.place; told = i.told; captured = i.captured; disc = i.disc; ready_later = i.ready_later; at = plain_attachment i.at } };
}

impl<P: Pkt> Iface<P> {
    /// An interface at one end of a link. Its device saves frames where the text trace tells of them or a capture has them.
    pub fn on_link(
        place: Place,
        told: bool,
        captured: bool,
        disc: Disc<P>,
        peer: Place,
        device: P2p,
    ) -> Iface<P>
        requires { device.traced ≡ (told || captured) }
        ensures { result ≡ record { place = place; told = told; captured = captured; disc = disc; ready_later = false; at = OnLink (record { peer = peer; device = device }) } }
    {
        Iface {
            place,
            told,
            captured,
            disc,
            ready_later: false,
            at: Attachment::Link(LinkEnd { peer, device }),
        }
    }

    /// An interface on a LAN, whose other members' interfaces are `others`, in the order of their nodes.
    pub fn on_lan(
        place: Place,
        told: bool,
        captured: bool,
        disc: Disc<P>,
        lan: u32,
        others: Vec<Place>,
        device: Csma<P>,
        cache: ArpCache<P>,
    ) -> Iface<P>
        requires { device.traced ≡ (told || captured) }
        ensures { result ≡ record { place = place; told = told; captured = captured; disc = disc; ready_later = false; at = OnLan (record { lan = lan; others = others.items; device = device; cache = cache }) } }
    {
        let end = LanEnd {
            lan,
            others,
            device,
            cache,
        };
        Iface {
            place,
            told,
            captured,
            disc,
            ready_later: false,
            at: Attachment::Lan(end),
        }
    }

    /// The LAN that the interface is on, whose bus its steps are to be lent.
    pub fn lan(&self) -> Option<u32>
        ensures { result ≡ lan_of self.now.at }
    {
        match &self.at {
            Attachment::Link(_) => None,
            Attachment::Lan(end) => Some(end.lan),
        }
    }

    /// Whether a frame that an event brings has its header, and its trailer on a LAN.
    pub fn can_take(&self, what: &Happening<P>) -> bool
        ensures { IsTrue result ↔ CanHappen self.now.at (plain_happening P.plain what.now) }
    {
        match what {
            Happening::Arrive { frame } => frame.len() >= self.least_frame(),
            Happening::Sent
            | Happening::BusFree
            | Happening::BackoffOver
            | Happening::DiscReady
            | Happening::ArpTimer { .. } => true,
        }
    }

    /// Takes an input, with the bus that the interface is on, if it is on one, and the node's numbers and generator, and puts
    /// what follows into `out`, which is empty. After `NoMemory` all are given up.
    pub fn step(
        &mut self,
        input: In<P>,
        tools: &mut IfaceTools<P>,
        maker: &mut P::Maker,
        numbers: &mut Numbers,
        bus: &mut Bus,
        random: &mut Random,
        out: &mut Vec<Act<P>>,
    ) -> Result<(), NoMemory>
        requires input { CanTake self.old (plain_in P.plain input) }
        requires empty { out.old.items ≡ [] }
        ensures iface { OnOk result (self.new ≡ (step self.old bus.old random.old numbers.old (plain_in P.plain input)).iface) }
        ensures numbers { OnOk result (numbers.new ≡ (step self.old bus.old random.old numbers.old (plain_in P.plain input)).numbers) }
        ensures bus { OnOk result (bus.new ≡ (step self.old bus.old random.old numbers.old (plain_in P.plain input)).bus) }
        ensures random { OnOk result (random.new ≡ (step self.old bus.old random.old numbers.old (plain_in P.plain input)).random) }
        ensures acts { OnOk result (Appends (plain_act P.plain) out.old.items out.new.items (step self.old bus.old random.old numbers.old (plain_in P.plain input)).acts) }
    {
        self.handle(input, tools, maker, numbers, bus, random, out)?;
        Ok(())
    }

    /// Takes an input, and puts what follows behind `out`.
    #[tactic(auto, unfolding(crate::specs::Step::handled))]
    fn handle(
        &mut self,
        input: In<P>,
        tools: &mut IfaceTools<P>,
        maker: &mut P::Maker,
        numbers: &mut Numbers,
        bus: &mut Bus,
        random: &mut Random,
        out: &mut Vec<Act<P>>,
    ) -> Result<(), NoMemory>
        requires { CanTake self.old (plain_in P.plain input) }
        ensures { OnOk result (record { iface = self.new; bus = bus.new; random = random.new; numbers = numbers.new; acts = map (plain_act P.plain) out.new.items } ≡ handled (plain_in P.plain input) (record { iface = self.old; bus = bus.old; random = random.old; numbers = numbers.old; acts = map (plain_act P.plain) out.old.items })) }
    {
        match input {
            In::Send { now, hop, packet } => {
                self.send(
                    now,
                    hop,
                    packet,
                    &mut tools.arp,
                    maker,
                    numbers,
                    bus,
                    random,
                    out,
                )
            }
            In::Happens { now, what } => {
                self.happen(now, what, tools, maker, numbers, bus, random, out)
            }
        }
    }

    /// Sends a packet of IPv4 to a neighbour: on a link at once, on a LAN when the neighbour's MAC address is known.
    #[tactic(auto, unfolding(crate::specs::Step::sends))]
    fn send(
        &mut self,
        now: Time,
        hop: u32,
        packet: P,
        tools: &mut ArpTools<P>,
        maker: &mut P::Maker,
        numbers: &mut Numbers,
        bus: &mut Bus,
        random: &mut Random,
        out: &mut Vec<Act<P>>,
    ) -> Result<(), NoMemory>
        requires time { now.0 ≤ 10 ^ 12 }
        requires datagram { len (P.plain packet) < 2 ^ 16 }
        ensures { OnOk result (record { iface = self.new; bus = bus.new; random = random.new; numbers = numbers.new; acts = map (plain_act P.plain) out.new.items } ≡ sends now hop (P.plain packet) (record { iface = self.old; bus = bus.old; random = random.old; numbers = numbers.old; acts = map (plain_act P.plain) out.old.items })) }
    {
        match self.at {
            Attachment::Link(_) => {
                let frame = link_frame(packet, maker)?;
                self.send_frame(now, frame, &mut tools.device, maker, bus, random, out)
            }
            Attachment::Lan(_) => {
                let addr = hop;
                let input = arp_core::In::Resolve { now, addr, packet };
                self.arp_take(now, input, tools, maker, numbers, bus, random, out)
            }
        }
    }

    /// An event of the interface fires.
    #[tactic(auto, unfolding(crate::specs::Step::happened))]
    fn happen(
        &mut self,
        now: Time,
        what: Happening<P>,
        tools: &mut IfaceTools<P>,
        maker: &mut P::Maker,
        numbers: &mut Numbers,
        bus: &mut Bus,
        random: &mut Random,
        out: &mut Vec<Act<P>>,
    ) -> Result<(), NoMemory>
        requires { now.0 ≤ 10 ^ 12 }
        ensures { OnOk result (record { iface = self.new; bus = bus.new; random = random.new; numbers = numbers.new; acts = map (plain_act P.plain) out.new.items } ≡ happened now (plain_happening P.plain what) (record { iface = self.old; bus = bus.old; random = random.old; numbers = numbers.old; acts = map (plain_act P.plain) out.old.items })) }
    {
        let device = &mut tools.arp.device;
        match what {
            Happening::Arrive { frame } => {
                self.come(now, frame, tools, maker, numbers, bus, random, out)
            }
            Happening::Sent | Happening::BusFree => {
                self.free(now, device, maker, bus, random, out)
            }
            Happening::BackoffOver => self.try_again(now, device, maker, bus, random, out),
            Happening::DiscReady => self.ask_disc(now, device, maker, bus, random, out),
            Happening::ArpTimer { addr, stamp } => {
                let input = arp_core::In::Timer { now, addr, stamp };
                self.arp_take(now, input, &mut tools.arp, maker, numbers, bus, random, out)
            }
        }
    }

    /// The length of the shortest frame.
    pub fn least_frame(&self) -> u32
        ensures { result ≡ least_frame self.now.at }
    {
        match self.at {
            Attachment::Link(_) => P2p::HEADER,
            Attachment::Lan(_) => LAN_HEADER,
        }
    }
}
