//! A point-to-point device: one end of a link, which sends one frame at a time. It takes frames from its
//! queue disc and hands packets that arrive to IPv4.
#![tactic(auto)]

mod law;

ghost use Rattle.std.specs.Prelude.{◌≡◌, ◌≤◌, ◌<◌, ◌^◌, [], ◌∷◌, ◌++◌, OnOk, true, false};
ghost use Rattle.sim_base.specs.Losses.{after_loss, with_frame};
ghost use Rattle.sim_base.specs.Packet.{len, longest};
ghost use Rattle.sim_base.specs.Time.{frame_time};
ghost use Rattle.layer_words.specs.Acts.{Appends};
ghost use Rattle.frame_loss.specs.Fate.{fate};
ghost use Rattle.p2p_dev.specs.Device.{IsDevice};
ghost use Rattle.p2p_dev.specs.Seen.{plain_in, plain_act};
ghost use Rattle.p2p_dev.specs.Step.{CanTake, comes_as, lifted, saved, starts, step};

use frame_loss::{Fate, receive};
pub use law::{acts_come_later, frames_arrive_in_order};
use pkt_face::Pkt;
use sim_base::{Kind, Loss, NoMemory, Random, Rate, Time};
use std::marker::Model;

/// What happens to a device.
#[derive(Debug, Drop)]
pub enum In<P> {
    /// A frame is to be sent.
    Start { now: Time, frame: P },
    /// The frame has left.
    Sent,
    /// A frame comes from the other end.
    Arrive { frame: P },
}

/// What a device asks for.
#[derive(Debug, Drop)]
pub enum Act<P> {
    /// Tell this device, then, that the frame has left.
    SentAt { at: Time },
    /// Let the frame arrive at the other end, then.
    ArriveAt { at: Time, frame: P },
    /// Write the frame into the traces: one that starts, or one that was received, as it was received.
    Save { frame: P },
    /// A frame that came from the other end is lost.
    Lost { frame: P },
    /// Hand a packet, without its header, to a protocol.
    Up { proto: u16, packet: P },
}

/// One end of a link. Its header is the protocol's number, two bytes.
#[derive(Debug, Drop)]
pub struct P2p {
    rate: Rate,
    delay: Time,
    traced: bool,
    busy: bool,
    loss: Loss,
}

impl Model for P2p {
    ghost use Rattle.frame_loss.specs.Fate.{fate};
    ghost use Rattle.p2p_dev.specs.Device.{Device, IsDevice};

    ghost Value = { Device };

    ghost view = { λ d. record { rate = d.rate.0; delay = d.delay.0; traced = d.traced; busy = d.busy; loss = d.loss } };

    ghost invariant = { λ d. IsDevice (record { rate = d.rate.0; delay = d.delay.0; traced = d.traced; busy = d.busy; loss = d.loss }) };
}

impl P2p {
    pub const HEADER: u32 = 2;

    /// An idle device.
    pub fn make(rate: Rate, delay: Time, traced: bool, loss: Loss) -> P2p
        requires some_rate { 1 ≤ rate.0 }
        requires rate_in_range { rate.0 ≤ 10 ^ 12 }
        requires delay_in_range { delay.0 ≤ 10 ^ 12 }
        ensures { result ≡ record { rate = rate.0; delay = delay.0; traced = traced; busy = false; loss = loss } }
    {
        P2p {
            rate,
            delay,
            traced,
            busy: false,
            loss,
        }
    }

    pub fn is_busy(&self) -> bool
        ensures { result ≡ self.now.busy }
    {
        self.busy
    }

    /// Every device is within the limits.
    pub fn is_within_limits(&self)
        ensures { IsDevice self.now }
    {
        let _rate = self.rate;
    }

    /// Takes an input, with the node's generator, and puts the acts that follow behind `out`. After `NoMemory` all are given up.
    pub fn step<P: Pkt>(
        &mut self,
        input: In<P>,
        maker: &mut P::Maker,
        random: &mut Random,
        out: &mut Vec<Act<P>>,
    ) -> Result<(), NoMemory>
        requires { CanTake (plain_in P.plain input) }
        ensures state { OnOk result (self.new ≡ (step self.old random.old (plain_in P.plain input)).device) }
        ensures random { OnOk result (random.new ≡ (step self.old random.old (plain_in P.plain input)).random) }
        ensures acts { OnOk result (Appends (plain_act P.plain) out.old.items out.new.items (step self.old random.old (plain_in P.plain input)).acts) }
    {
        match input {
            In::Start { now, frame } => self.start(now, frame, maker, out),
            In::Sent => {
                self.busy = false;
                Ok(())
            }
            In::Arrive { frame } => self.arrive(frame, maker, random, out),
        }
    }

    /// Sends a frame, which takes the device until its last bit has left.
    fn start<P: Pkt>(
        &mut self,
        now: Time,
        mut frame: P,
        maker: &mut P::Maker,
        out: &mut Vec<Act<P>>,
    ) -> Result<(), NoMemory>
        requires time { now.0 ≤ 10 ^ 12 }
        requires header { 2 ≤ len (P.plain frame) }
        ensures state { OnOk result (self.new ≡ record self.old { busy = true }) }
        ensures acts { OnOk result (Appends (plain_act P.plain) out.old.items out.new.items (starts now.0 (P.plain frame) self.old)) }
    {
        let sent = now.0 + self.frame_time(frame.len());
        self.save(&mut frame, maker, out)?;
        self.busy = true;
        out.push(Act::SentAt { at: Time(sent) })?;
        out.push(Act::ArriveAt {
            at: Time(sent + self.delay.0),
            frame,
        })?;
        Ok(())
    }

    /// Takes a frame from the other end.
    fn arrive<P: Pkt>(
        &mut self,
        frame: P,
        maker: &mut P::Maker,
        random: &mut Random,
        out: &mut Vec<Act<P>>,
    ) -> Result<(), NoMemory>
        requires { 2 ≤ len (P.plain frame) }
        ensures state { OnOk result (self.new ≡ record self.old { loss = with_frame self.old.loss }) }
        ensures random { OnOk result (random.new ≡ after_loss random.old self.old.loss) }
        ensures acts { OnOk result (Appends (plain_act P.plain) out.old.items out.new.items (comes_as self.old (fate random.old self.old.loss (P.plain frame)))) }
    {
        let alloc = *out.allocator();
        match receive(&mut self.loss, frame, alloc, maker, random)? {
            Fate::Lost { frame } => {
                out.push(Act::Lost { frame })?;
                Ok(())
            }
            Fate::Received { frame } => self.lift(frame, maker, out),
        }
    }

    /// Hands on the packet of a frame that was received.
    fn lift<P: Pkt>(
        &self,
        mut frame: P,
        maker: &mut P::Maker,
        out: &mut Vec<Act<P>>,
    ) -> Result<(), NoMemory>
        requires { 2 ≤ len (P.plain frame) }
        ensures { OnOk result (Appends (plain_act P.plain) out.old.items out.new.items (saved self.now (P.plain frame) ++ lifted (P.plain frame) ∷ [])) }
    {
        self.save(&mut frame, maker, out)?;
        let mut proto = [0; 2];
        frame.peek(0, &mut proto);
        frame.pop_front(P2p::HEADER, Kind::Ppp);
        out.push(Act::Up {
            proto: u16::from_be_bytes(proto),
            packet: frame,
        })?;
        Ok(())
    }

    /// Saves a copy of the frame, where frames are traced.
    fn save<P: Pkt>(
        &self,
        frame: &mut P,
        maker: &mut P::Maker,
        out: &mut Vec<Act<P>>,
    ) -> Result<(), NoMemory>
        ensures same { P.plain frame.new ≡ P.plain frame.old }
        ensures acts { OnOk result (Appends (plain_act P.plain) out.old.items out.new.items (saved self.now (P.plain frame.old))) }
    {
        if self.traced {
            out.push(Act::Save {
                frame: frame.copy(maker)?,
            })?;
        }
        Ok(())
    }

    /// How many nanoseconds a frame of so many bytes takes.
    fn frame_time(&self, bytes: u32) -> u64
        requires some { 1 ≤ bytes }
        requires small { bytes ≤ longest }
        ensures value { result ≡ frame_time self.now.rate bytes }
        ensures small { result < 2 ^ 62 }
    {
        self.rate.frame_time(bytes).0
    }
}
