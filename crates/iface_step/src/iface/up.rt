//! A frame on its way up.

ghost use Rattle.std.specs.Prelude.{◌≡◌, ◌++◌, ◌≤◌, ◌^◌, OnOk, fold, map};
ghost use Rattle.csma_dev.specs.Seen.{plain_act as plain_lan_act};
ghost use Rattle.layer_words.specs.Acts.{Appends};
ghost use Rattle.p2p_dev.specs.Seen.{plain_act as plain_link_act};
ghost use Rattle.pkt_face.specs.declared.line.Sign.TheVariants.{Receive};
ghost use Rattle.iface_step.specs.Devices.{of_lan, of_link};
ghost use Rattle.iface_step.specs.Seen.{plain_act};
ghost use Rattle.iface_step.specs.SeenDevice.{plain_device_act};
ghost use Rattle.iface_step.specs.Transit.{captured, told};
ghost use Rattle.iface_step.specs.Up.{carry_up, comes, lifts, message_at, message_comes};

use super::Iface;
use super::down::LAN_HEADER;
use crate::attachment::Attachment;
use crate::device::{DeviceAct, of_lan, of_link};
use crate::frames::{ARP_ON_LAN, IP_ON_LAN, IP_ON_LINK, read_message};
use crate::lines::{write_copy, write_line};
use crate::tools::{ArpTools, IfaceTools};
use crate::words::Act;
use csma_dev::Bus;
use header_forms::Arp;
use p2p_dev::P2p;
use pkt_face::{Pkt, Sign};
use sim_base::{NoMemory, Numbers, Random, Time};

impl<P: Pkt> Iface<P> {
    /// A frame comes: it is received, ignored or lost.
    #[tactic(auto, unfolding(crate::specs::Up::comes))]
    pub(super) fn come(
        &mut self,
        now: Time,
        frame: P,
        tools: &mut IfaceTools<P>,
        maker: &mut P::Maker,
        numbers: &mut Numbers,
        bus: &mut Bus,
        random: &mut Random,
        out: &mut Vec<Act<P>>,
    ) -> Result<(), NoMemory>
        requires { now.0 ≤ 10 ^ 12 }
        ensures { OnOk result (record { iface = self.new; bus = bus.new; random = random.new; numbers = numbers.new; acts = map (plain_act P.plain) out.new.items } ≡ comes now (P.plain frame) (record { iface = self.old; bus = bus.old; random = random.old; numbers = numbers.old; acts = map (plain_act P.plain) out.old.items })) }
    {
        match &mut self.at {
            Attachment::Link(end) => {
                if frame.len() < P2p::HEADER {
                    return Err(NoMemory);
                }
                let acts = &mut tools.come.link;
                acts.clear();
                end.device
                    .step(p2p_dev::In::Arrive { frame }, maker, random, acts)?;
                self.carry_link_up(now, tools, maker, numbers, bus, random, out)
            }
            Attachment::Lan(end) => {
                if frame.len() < LAN_HEADER {
                    return Err(NoMemory);
                }
                if !end.device.hears(&frame) {
                    return Ok(());
                }
                let acts = &mut tools.come.lan;
                acts.clear();
                end.device
                    .step(csma_dev::In::Arrive { frame }, maker, bus, random, acts)?;
                self.carry_lan_up(now, tools, maker, numbers, bus, random, out)
            }
        }
    }

    /// Carries out, in their order, the acts of a link's device to which a frame has come.
    fn carry_link_up(
        &mut self,
        now: Time,
        tools: &mut IfaceTools<P>,
        maker: &mut P::Maker,
        numbers: &mut Numbers,
        bus: &mut Bus,
        random: &mut Random,
        out: &mut Vec<Act<P>>,
    ) -> Result<(), NoMemory>
        requires { now.0 ≤ 10 ^ 12 }
        ensures { OnOk result (record { iface = self.new; bus = bus.new; random = random.new; numbers = numbers.new; acts = map (plain_act P.plain) out.new.items } ≡ fold (carry_up now) (record { iface = self.old; bus = bus.old; random = random.old; numbers = numbers.old; acts = map (plain_act P.plain) out.old.items }) (map of_link (map (plain_link_act P.plain) tools.old.come.link.items))) }
    {
        tools.come.link.as_mut_slice().reverse();
        'acts: while let Some(act) = tools.come.link.pop() {
            let act = of_link(act);
            self.carry_up(now, act, &mut tools.arp, maker, numbers, bus, random, out)?;
        }
        Ok(())
    }

    /// The same of a LAN's device.
    fn carry_lan_up(
        &mut self,
        now: Time,
        tools: &mut IfaceTools<P>,
        maker: &mut P::Maker,
        numbers: &mut Numbers,
        bus: &mut Bus,
        random: &mut Random,
        out: &mut Vec<Act<P>>,
    ) -> Result<(), NoMemory>
        requires { now.0 ≤ 10 ^ 12 }
        ensures { OnOk result (record { iface = self.new; bus = bus.new; random = random.new; numbers = numbers.new; acts = map (plain_act P.plain) out.new.items } ≡ fold (carry_up now) (record { iface = self.old; bus = bus.old; random = random.old; numbers = numbers.old; acts = map (plain_act P.plain) out.old.items }) (map of_lan (map (plain_lan_act P.plain) tools.old.come.lan.items))) }
    {
        tools.come.lan.as_mut_slice().reverse();
        'acts: while let Some(act) = tools.come.lan.pop() {
            let act = of_lan(act);
            self.carry_up(now, act, &mut tools.arp, maker, numbers, bus, random, out)?;
        }
        Ok(())
    }

    #[tactic(auto, unfolding(crate::specs::Up::carry_up))]
    fn carry_up(
        &mut self,
        now: Time,
        act: DeviceAct<P>,
        tools: &mut ArpTools<P>,
        maker: &mut P::Maker,
        numbers: &mut Numbers,
        bus: &mut Bus,
        random: &mut Random,
        out: &mut Vec<Act<P>>,
    ) -> Result<(), NoMemory>
        requires { now.0 ≤ 10 ^ 12 }
        ensures { OnOk result (record { iface = self.new; bus = bus.new; random = random.new; numbers = numbers.new; acts = map (plain_act P.plain) out.new.items } ≡ carry_up now (record { iface = self.old; bus = bus.old; random = random.old; numbers = numbers.old; acts = map (plain_act P.plain) out.old.items }) (plain_device_act P.plain act)) }
    {
        match act {
            DeviceAct::Save { frame } => self.write_received(frame, maker, out),
            DeviceAct::Lose { frame } => write_line(self.told, Sign::Drop, frame, out),
            DeviceAct::Lift { proto, packet } => {
                self.lift(now, proto, packet, tools, maker, numbers, bus, random, out)
            }
            DeviceAct::Tell { .. } | DeviceAct::Wait { .. } | DeviceAct::Reach { .. } => Ok(()),
        }
    }

    /// Writes that a frame was received, where the text trace tells it, and saves it where a capture has it.
    fn write_received(
        &self,
        mut frame: P,
        maker: &mut P::Maker,
        out: &mut Vec<Act<P>>,
    ) -> Result<(), NoMemory>
        ensures { OnOk result (Appends (plain_act P.plain) out.old.items out.new.items (told self.now Receive (P.plain frame) ++ captured self.now (P.plain frame))) }
    {
        write_copy(self.told, Sign::Receive, &mut frame, maker, out)?;
        write_line(self.captured, Sign::Save, frame, out)
    }

    /// Hands a packet to its protocol.
    #[tactic(auto, unfolding(crate::specs::Up::lifts))]
    fn lift(
        &mut self,
        now: Time,
        proto: u16,
        packet: P,
        tools: &mut ArpTools<P>,
        maker: &mut P::Maker,
        numbers: &mut Numbers,
        bus: &mut Bus,
        random: &mut Random,
        out: &mut Vec<Act<P>>,
    ) -> Result<(), NoMemory>
        requires { now.0 ≤ 10 ^ 12 }
        ensures { OnOk result (record { iface = self.new; bus = bus.new; random = random.new; numbers = numbers.new; acts = map (plain_act P.plain) out.new.items } ≡ lifts now proto (P.plain packet) (record { iface = self.old; bus = bus.old; random = random.old; numbers = numbers.old; acts = map (plain_act P.plain) out.old.items })) }
    {
        if proto == IP_ON_LINK || proto == IP_ON_LAN {
            out.push(Act::Up { packet })?;
            return Ok(());
        }
        if proto == ARP_ON_LAN {
            return self.hear(now, &packet, tools, maker, numbers, bus, random, out);
        }
        out.push(Act::Dropped)?;
        Ok(())
    }

    /// A message of address resolution comes. One that can't be read is dropped, and so is one that comes over a link.
    #[tactic(auto, unfolding(crate::specs::Up::message_comes))]
    fn hear(
        &mut self,
        now: Time,
        packet: &P,
        tools: &mut ArpTools<P>,
        maker: &mut P::Maker,
        numbers: &mut Numbers,
        bus: &mut Bus,
        random: &mut Random,
        out: &mut Vec<Act<P>>,
    ) -> Result<(), NoMemory>
        requires { now.0 ≤ 10 ^ 12 }
        ensures { OnOk result (record { iface = self.new; bus = bus.new; random = random.new; numbers = numbers.new; acts = map (plain_act P.plain) out.new.items } ≡ message_comes now (P.plain packet.now) (record { iface = self.old; bus = bus.old; random = random.old; numbers = numbers.old; acts = map (plain_act P.plain) out.old.items })) }
    {
        match self.message_of(packet) {
            Some(arp) => {
                let input = arp_core::In::Heard { now, arp };
                self.arp_take(now, input, tools, maker, numbers, bus, random, out)
            }
            None => {
                out.push(Act::Dropped)?;
                Ok(())
            }
        }
    }

    /// The message that a packet is, if it can be read. Over a link none comes.
    fn message_of(&self, packet: &P) -> Option<Arp>
        ensures { result ≡ message_at self.now.at (P.plain packet.now) }
    {
        match self.at {
            Attachment::Link(_) => None,
            Attachment::Lan(_) => read_message(packet),
        }
    }
}
