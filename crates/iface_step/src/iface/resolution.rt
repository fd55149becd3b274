//! Address resolution at an interface of a LAN.

ghost use Rattle.std.specs.Prelude.{◌≡◌, ◌≤◌, ◌^◌, OnOk, fold, map};
ghost use Rattle.arp_core.specs.Seen.{plain_act as plain_arp_act, plain_in as plain_arp_in};
ghost use Rattle.arp_core.specs.Step.{CanTake};
ghost use Rattle.iface_step.specs.Resolution.{arp_takes, carry_arp, sends_message};
ghost use Rattle.iface_step.specs.Seen.{plain_act};

use super::Iface;
use crate::attachment::Attachment;
use crate::frames::{ARP_ON_LAN, IP_ON_LAN, lan_frame, message};
use crate::tools::{ArpTools, DeviceTools};
use crate::words::{Act, Happening};
use csma_dev::Bus;
use header_forms::Arp;
use layer_words::next_uid;
use pkt_face::Pkt;
use sim_base::{NoMemory, Numbers, Random, Time};

/// The MAC address of everyone.
const BROADCAST: [u8; 6] = [0xff; 6];

impl<P: Pkt> Iface<P> {
    /// Lets address resolution make a step, and carries out what it asks for. On a link it has nothing to do.
    #[tactic(auto, unfolding(crate::specs::Resolution::arp_takes))]
    pub(super) fn arp_take(
        &mut self,
        now: Time,
        input: arp_core::In<P>,
        tools: &mut ArpTools<P>,
        maker: &mut P::Maker,
        numbers: &mut Numbers,
        bus: &mut Bus,
        random: &mut Random,
        out: &mut Vec<Act<P>>,
    ) -> Result<(), NoMemory>
        requires time { now.0 ≤ 10 ^ 12 }
        requires input { CanTake (plain_arp_in P.plain input) }
        ensures { OnOk result (record { iface = self.new; bus = bus.new; random = random.new; numbers = numbers.new; acts = map (plain_act P.plain) out.new.items } ≡ arp_takes now (plain_arp_in P.plain input) (record { iface = self.old; bus = bus.old; random = random.old; numbers = numbers.old; acts = map (plain_act P.plain) out.old.items })) }
    {
        let Attachment::Lan(end) = &mut self.at else {
            return Ok(());
        };
        tools.acts.clear();
        end.cache.step(input, numbers, &mut tools.acts)?;
        let mac = end.cache.mac();
        self.carry_all_arp(now, mac, tools, maker, numbers, bus, random, out)
    }

    /// Carries out the acts of address resolution in their order.
    fn carry_all_arp(
        &mut self,
        now: Time,
        mac: [u8; 6],
        tools: &mut ArpTools<P>,
        maker: &mut P::Maker,
        numbers: &mut Numbers,
        bus: &mut Bus,
        random: &mut Random,
        out: &mut Vec<Act<P>>,
    ) -> Result<(), NoMemory>
        requires { now.0 ≤ 10 ^ 12 }
        ensures { OnOk result (record { iface = self.new; bus = bus.new; random = random.new; numbers = numbers.new; acts = map (plain_act P.plain) out.new.items } ≡ fold (carry_arp now mac) (record { iface = self.old; bus = bus.old; random = random.old; numbers = numbers.old; acts = map (plain_act P.plain) out.old.items }) (map (plain_arp_act P.plain) tools.old.acts.items)) }
    {
        tools.acts.as_mut_slice().reverse();
        'acts: while let Some(act) = tools.acts.pop() {
            self.carry_arp(
                now,
                mac,
                act,
                &mut tools.device,
                maker,
                numbers,
                bus,
                random,
                out,
            )?;
        }
        Ok(())
    }

    #[tactic(auto, unfolding(crate::specs::Resolution::carry_arp))]
    fn carry_arp(
        &mut self,
        now: Time,
        mac: [u8; 6],
        act: arp_core::Act<P>,
        tools: &mut DeviceTools<P>,
        maker: &mut P::Maker,
        numbers: &mut Numbers,
        bus: &mut Bus,
        random: &mut Random,
        out: &mut Vec<Act<P>>,
    ) -> Result<(), NoMemory>
        requires { now.0 ≤ 10 ^ 12 }
        ensures { OnOk result (record { iface = self.new; bus = bus.new; random = random.new; numbers = numbers.new; acts = map (plain_act P.plain) out.new.items } ≡ carry_arp now mac (record { iface = self.old; bus = bus.old; random = random.old; numbers = numbers.old; acts = map (plain_act P.plain) out.old.items }) (plain_arp_act P.plain act)) }
    {
        match act {
            arp_core::Act::SendTo { mac: to, packet } => {
                let frame = lan_frame(to, mac, IP_ON_LAN, packet, maker)?;
                self.send_frame(now, frame, tools, maker, bus, random, out)
            }
            arp_core::Act::Ask { arp } => {
                self.send_message(
                    now, BROADCAST, mac, &arp, tools, maker, numbers, bus, random, out,
                )
            }
            arp_core::Act::Answer { arp } => {
                let to = arp.target_mac;
                self.send_message(now, to, mac, &arp, tools, maker, numbers, bus, random, out)
            }
            arp_core::Act::TimerAt { at, addr, stamp } => {
                out.push(Act::Schedule {
                    at,
                    to: self.place,
                    what: Happening::ArpTimer { addr, stamp },
                })?;
                Ok(())
            }
            arp_core::Act::Dropped => {
                out.push(Act::Dropped)?;
                Ok(())
            }
        }
    }

    /// Sends a message of address resolution, which is a new packet of the node.
    #[tactic(auto, unfolding(crate::specs::Resolution::sends_message))]
    fn send_message(
        &mut self,
        now: Time,
        to: [u8; 6],
        from: [u8; 6],
        arp: &Arp,
        tools: &mut DeviceTools<P>,
        maker: &mut P::Maker,
        numbers: &mut Numbers,
        bus: &mut Bus,
        random: &mut Random,
        out: &mut Vec<Act<P>>,
    ) -> Result<(), NoMemory>
        requires { now.0 ≤ 10 ^ 12 }
        ensures { OnOk result (record { iface = self.new; bus = bus.new; random = random.new; numbers = numbers.new; acts = map (plain_act P.plain) out.new.items } ≡ sends_message now to from arp.now (record { iface = self.old; bus = bus.old; random = random.old; numbers = numbers.old; acts = map (plain_act P.plain) out.old.items })) }
    {
        let packet = message(*out.allocator(), next_uid(numbers), arp, maker)?;
        let frame = lan_frame(to, from, ARP_ON_LAN, packet, maker)?;
        self.send_frame(now, frame, tools, maker, bus, random, out)
    }
}
