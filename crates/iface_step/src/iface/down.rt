//! A frame on its way down: into the disc, and through the device onto the link or the bus.

ghost use Rattle.std.specs.Prelude.{◌≡◌, ◌≤◌, ◌^◌, IfOk, OnOk, Some, None, map, option_map, if◌then◌else◌};
ghost use Rattle.std.specs.List.{flat_map};
ghost use Rattle.csma_dev.specs.Seen.{plain_act as plain_lan_act};
ghost use Rattle.layer_words.specs.Acts.{Appends};
ghost use Rattle.p2p_dev.specs.Seen.{plain_act as plain_link_act};
ghost use Rattle.iface_step.specs.Attachment.{is_sending};
ghost use Rattle.iface_step.specs.Devices.{of_lan, of_link};
ghost use Rattle.iface_step.specs.Down.{arrivals, asked_down, asks_disc, begins, frees, line_of_kept, offered, over, reached, retries, send_frame, take, tries_again};
ghost use Rattle.iface_step.specs.Seen.{plain_act, plain_happening};
ghost use Rattle.iface_step.specs.SeenDevice.{plain_device_act};

use super::Iface;
use crate::attachment::Attachment;
use crate::device::{DeviceAct, of_lan, of_link};
use crate::lines::{write_copy, write_line};
use crate::tools::DeviceTools;
use crate::words::{Act, Happening, Place};
use csma_dev::Bus;
use p2p_dev::P2p;
use pkt_face::{Offer, Pkt, Sign};
use queue_discs::Next;
use sim_base::{NoMemory, Random, Time};

/// The bytes of a LAN's frame before and behind its data.
pub(super) const LAN_HEADER: u32 = 18;

impl<P: Pkt> Iface<P> {
    /// Offers a frame with its header to the disc. The device, if it is idle, takes the next one.
    #[tactic(auto, unfolding(crate::specs::Down::send_frame))]
    pub(super) fn send_frame(
        &mut self,
        now: Time,
        frame: P,
        tools: &mut DeviceTools<P>,
        maker: &mut P::Maker,
        bus: &mut Bus,
        random: &mut Random,
        out: &mut Vec<Act<P>>,
    ) -> Result<(), NoMemory>
        requires { now.0 ≤ 10 ^ 12 }
        ensures { OnOk result (record { iface = self.new; bus = bus.new; random = random.new; acts = map (plain_act P.plain) out.new.items } ≡ send_frame now (P.plain frame) (record { iface = self.old; bus = bus.old; random = random.old; acts = map (plain_act P.plain) out.old.items })) }
    {
        self.offer(frame, maker, out)?;
        self.take(now, tools, maker, bus, random, out)
    }

    /// Offers a frame to the disc, and a full disc loses it.
    #[tactic(auto, unfolding(crate::specs::Down::offered))]
    fn offer(
        &mut self,
        mut frame: P,
        maker: &mut P::Maker,
        out: &mut Vec<Act<P>>,
    ) -> Result<(), NoMemory>
        ensures iface { OnOk result (self.new ≡ (offered (P.plain frame) self.old).state) }
        ensures acts { OnOk result (Appends (plain_act P.plain) out.old.items out.new.items (offered (P.plain frame) self.old).acts) }
    {
        let kept = self.told_copy(&mut frame, maker)?;
        match self.disc.offer(frame) {
            Offer::Kept => write_kept(kept, out),
            Offer::Full { packet, .. } => write_line(self.told, Sign::Drop, packet, out),
            Offer::NoMemory { .. } => Err(NoMemory),
        }
    }

    /// A copy of a frame for the text trace, where it tells what the interface's frames do.
    fn told_copy(&self, frame: &mut P, maker: &mut P::Maker) -> Result<Option<P>, NoMemory>
        ensures same { P.plain frame.new ≡ P.plain frame.old }
        ensures copy { IfOk result (λ o. option_map P.plain o ≡ (if self.now.told then Some (P.plain frame.old) else None)) }
    {
        if self.told {
            Ok(Some(frame.copy(maker)?))
        } else {
            Ok(None)
        }
    }

    /// The device, if it is idle, takes the next frame, unless the disc is to be asked again later.
    #[tactic(auto, unfolding(crate::specs::Down::take))]
    fn take(
        &mut self,
        now: Time,
        tools: &mut DeviceTools<P>,
        maker: &mut P::Maker,
        bus: &mut Bus,
        random: &mut Random,
        out: &mut Vec<Act<P>>,
    ) -> Result<(), NoMemory>
        requires { now.0 ≤ 10 ^ 12 }
        ensures { OnOk result (record { iface = self.new; bus = bus.new; random = random.new; acts = map (plain_act P.plain) out.new.items } ≡ take now (record { iface = self.old; bus = bus.old; random = random.old; acts = map (plain_act P.plain) out.old.items })) }
    {
        if self.is_sending() || self.ready_later {
            return Ok(());
        }
        match self.disc.next(now) {
            Next::Frame(frame) => self.begin(now, frame, tools, maker, bus, random, out),
            Next::Wait(at) => {
                self.ready_later = true;
                out.push(Act::Schedule {
                    at,
                    to: self.place,
                    what: Happening::DiscReady,
                })?;
                Ok(())
            }
            Next::Empty => Ok(()),
        }
    }

    /// The device starts a frame that has left the disc. One without its header never comes there.
    #[tactic(auto, unfolding(crate::specs::Down::begins))]
    fn begin(
        &mut self,
        now: Time,
        mut frame: P,
        tools: &mut DeviceTools<P>,
        maker: &mut P::Maker,
        bus: &mut Bus,
        random: &mut Random,
        out: &mut Vec<Act<P>>,
    ) -> Result<(), NoMemory>
        requires { now.0 ≤ 10 ^ 12 }
        ensures { OnOk result (record { iface = self.new; bus = bus.new; random = random.new; acts = map (plain_act P.plain) out.new.items } ≡ begins now (P.plain frame) (record { iface = self.old; bus = bus.old; random = random.old; acts = map (plain_act P.plain) out.old.items })) }
    {
        write_copy(self.told, Sign::Dequeue, &mut frame, maker, out)?;
        match &mut self.at {
            Attachment::Link(end) => {
                if frame.len() < P2p::HEADER {
                    return Err(NoMemory);
                }
                let acts = &mut tools.link;
                acts.clear();
                end.device
                    .step(p2p_dev::In::Start { now, frame }, maker, random, acts)?;
                self.carry_link_down(acts, maker, out)
            }
            Attachment::Lan(end) => {
                if frame.len() < LAN_HEADER {
                    return Err(NoMemory);
                }
                let acts = &mut tools.lan;
                acts.clear();
                end.device.step(csma_dev::In::Start { now, frame }, maker, bus, random, acts)?;
                self.carry_lan_down(acts, maker, out)
            }
        }
    }

    /// The device's frame has left, or has come to the others: the device takes the next one.
    #[tactic(auto, unfolding(crate::specs::Down::frees, crate::specs::Down::ends))]
    pub(super) fn free(
        &mut self,
        now: Time,
        tools: &mut DeviceTools<P>,
        maker: &mut P::Maker,
        bus: &mut Bus,
        random: &mut Random,
        out: &mut Vec<Act<P>>,
    ) -> Result<(), NoMemory>
        requires { now.0 ≤ 10 ^ 12 }
        ensures { OnOk result (record { iface = self.new; bus = bus.new; random = random.new; acts = map (plain_act P.plain) out.new.items } ≡ frees now (record { iface = self.old; bus = bus.old; random = random.old; acts = map (plain_act P.plain) out.old.items })) }
    {
        match &mut self.at {
            Attachment::Link(end) => {
                end.device
                    .step(p2p_dev::In::Sent, maker, random, &mut tools.link)?;
                self.take(now, tools, maker, bus, random, out)
            }
            Attachment::Lan(end) => {
                end.device
                    .step(csma_dev::In::BusFree, maker, bus, random, &mut tools.lan)?;
                self.take(now, tools, maker, bus, random, out)
            }
        }
    }

    /// A wait for the bus is over: a device that has a frame tries again. Where it gives the frame up, it takes the next one.
    #[tactic(auto, unfolding(crate::specs::Down::tries_again))]
    pub(super) fn try_again(
        &mut self,
        now: Time,
        tools: &mut DeviceTools<P>,
        maker: &mut P::Maker,
        bus: &mut Bus,
        random: &mut Random,
        out: &mut Vec<Act<P>>,
    ) -> Result<(), NoMemory>
        requires { now.0 ≤ 10 ^ 12 }
        ensures { OnOk result (record { iface = self.new; bus = bus.new; random = random.new; acts = map (plain_act P.plain) out.new.items } ≡ tries_again now (record { iface = self.old; bus = bus.old; random = random.old; acts = map (plain_act P.plain) out.old.items })) }
    {
        if !self.is_sending() {
            return Ok(());
        }
        self.retry(now, tools, maker, bus, random, out)?;
        self.take(now, tools, maker, bus, random, out)
    }

    /// The device makes another try for its frame. That of a link has none.
    #[tactic(auto, unfolding(crate::specs::Down::retries))]
    fn retry(
        &mut self,
        now: Time,
        tools: &mut DeviceTools<P>,
        maker: &mut P::Maker,
        bus: &mut Bus,
        random: &mut Random,
        out: &mut Vec<Act<P>>,
    ) -> Result<(), NoMemory>
        requires { now.0 ≤ 10 ^ 12 }
        ensures { OnOk result (record { iface = self.new; bus = bus.new; random = random.new; acts = map (plain_act P.plain) out.new.items } ≡ retries now (record { iface = self.old; bus = bus.old; random = random.old; acts = map (plain_act P.plain) out.old.items })) }
    {
        match &mut self.at {
            Attachment::Link(_) => Ok(()),
            Attachment::Lan(end) => {
                let acts = &mut tools.lan;
                acts.clear();
                end.device.step(csma_dev::In::BackoffOver { now }, maker, bus, random, acts)?;
                self.carry_lan_down(acts, maker, out)
            }
        }
    }

    /// The disc is asked again.
    #[tactic(auto, unfolding(crate::specs::Down::asks_disc))]
    pub(super) fn ask_disc(
        &mut self,
        now: Time,
        tools: &mut DeviceTools<P>,
        maker: &mut P::Maker,
        bus: &mut Bus,
        random: &mut Random,
        out: &mut Vec<Act<P>>,
    ) -> Result<(), NoMemory>
        requires { now.0 ≤ 10 ^ 12 }
        ensures { OnOk result (record { iface = self.new; bus = bus.new; random = random.new; acts = map (plain_act P.plain) out.new.items } ≡ asks_disc now (record { iface = self.old; bus = bus.old; random = random.old; acts = map (plain_act P.plain) out.old.items })) }
    {
        self.ready_later = false;
        self.take(now, tools, maker, bus, random, out)
    }

    /// Carries out, in their order, the acts of a link's device that was given a frame.
    fn carry_link_down(
        &self,
        acts: &mut Vec<p2p_dev::Act<P>>,
        maker: &mut P::Maker,
        out: &mut Vec<Act<P>>,
    ) -> Result<(), NoMemory>
        ensures { OnOk result (Appends (plain_act P.plain) out.old.items out.new.items (flat_map (asked_down self.now) (map of_link (map (plain_link_act P.plain) acts.old.items)))) }
    {
        acts.as_mut_slice().reverse();
        'acts: while let Some(act) = acts.pop() {
            self.ask_down(of_link(act), maker, out)?;
        }
        Ok(())
    }

    /// The same of a LAN's device, which was given a frame or tries again.
    fn carry_lan_down(
        &self,
        acts: &mut Vec<csma_dev::Act<P>>,
        maker: &mut P::Maker,
        out: &mut Vec<Act<P>>,
    ) -> Result<(), NoMemory>
        ensures { OnOk result (Appends (plain_act P.plain) out.old.items out.new.items (flat_map (asked_down self.now) (map of_lan (map (plain_lan_act P.plain) acts.old.items)))) }
    {
        acts.as_mut_slice().reverse();
        'acts: while let Some(act) = acts.pop() {
            self.ask_down(of_lan(act), maker, out)?;
        }
        Ok(())
    }

    /// Asks for what a device that was given a frame, or tries again, asks for.
    fn ask_down(
        &self,
        act: DeviceAct<P>,
        maker: &mut P::Maker,
        out: &mut Vec<Act<P>>,
    ) -> Result<(), NoMemory>
        ensures { OnOk result (Appends (plain_act P.plain) out.old.items out.new.items (asked_down self.now (plain_device_act P.plain act))) }
    {
        match act {
            DeviceAct::Tell { at } => {
                let what = self.over();
                out.push(Act::Schedule {
                    at,
                    to: self.place,
                    what,
                })?;
                Ok(())
            }
            DeviceAct::Wait { at } => {
                out.push(Act::Schedule {
                    at,
                    to: self.place,
                    what: Happening::BackoffOver,
                })?;
                Ok(())
            }
            DeviceAct::Reach { at, frame } => self.reach(at, frame, maker, out),
            DeviceAct::Save { frame } => write_line(self.captured, Sign::Save, frame, out),
            DeviceAct::Lose { frame } => write_line(self.told, Sign::Drop, frame, out),
            DeviceAct::Lift { .. } => Ok(()),
        }
    }

    /// A frame arrives at each neighbour.
    fn reach(
        &self,
        at: Time,
        frame: P,
        maker: &mut P::Maker,
        out: &mut Vec<Act<P>>,
    ) -> Result<(), NoMemory>
        ensures { OnOk result (Appends (plain_act P.plain) out.old.items out.new.items (reached self.now at (P.plain frame))) }
    {
        match &self.at {
            Attachment::Link(end) => {
                out.push(Act::Schedule {
                    at,
                    to: end.peer,
                    what: Happening::Arrive { frame },
                })?;
                Ok(())
            }
            Attachment::Lan(end) => arrive_at_all(end.others.as_slice(), at, frame, maker, out),
        }
    }

    /// What tells the device that its frame is over.
    fn over(&self) -> Happening<P>
        ensures { plain_happening P.plain result ≡ over self.now.at }
    {
        match self.at {
            Attachment::Link(_) => Happening::Sent,
            Attachment::Lan(_) => Happening::BusFree,
        }
    }

    /// Whether the device takes no other frame.
    fn is_sending(&self) -> bool
        ensures { result ≡ is_sending self.now.at }
    {
        match &self.at {
            Attachment::Link(end) => end.device.is_busy(),
            Attachment::Lan(end) => end.device.is_busy(),
        }
    }
}

/// Writes the line of a frame that the disc has kept, where one is wanted.
fn write_kept<P: Pkt>(kept: Option<P>, out: &mut Vec<Act<P>>) -> Result<(), NoMemory>
    ensures { OnOk result (Appends (plain_act P.plain) out.old.items out.new.items (line_of_kept (option_map P.plain kept))) }
{
    if let Some(frame) = kept {
        out.push(Act::Write {
            sign: Sign::Enqueue,
            frame,
        })?;
    }
    Ok(())
}

/// A copy of a frame arrives at each of these interfaces, in their order. The last one gets the frame itself.
fn arrive_at_all<P: Pkt>(
    places: &[Place],
    at: Time,
    mut frame: P,
    maker: &mut P::Maker,
    out: &mut Vec<Act<P>>,
) -> Result<(), NoMemory>
    ensures { OnOk result (Appends (plain_act P.plain) out.old.items out.new.items (arrivals places.now at (P.plain frame))) }
{
    let Some((last, others)) = places.split_last() else {
        return Ok(());
    };
    'others: for to in others {
        let what = Happening::Arrive {
            frame: frame.copy(maker)?,
        };
        out.push(Act::Schedule { at, to: *to, what })?;
    }
    out.push(Act::Schedule {
        at,
        to: *last,
        what: Happening::Arrive { frame },
    })?;
    Ok(())
}
