//! One device of a bus: it sends while the bus is free, and waits for a time that it draws while it isn't.
//!
//!     Idle --Start--> bus free? --yes--> Sending --BusFree--> Idle
//!                       |  ^
//!                       no |  BackoffOver
//!                       v  |
//!                     Waiting (a frame, tries) --1000 tries--> Idle

ghost use Rattle.std.specs.Prelude.{◌≡◌, ◌≤◌, ◌<◌, ◌^◌, [], ◌∷◌, ◌++◌, OnOk};
ghost use Rattle.sim_base.specs.Packet.{len, longest};
ghost use Rattle.sim_base.specs.Time.{frame_time};
ghost use Rattle.layer_words.specs.Acts.{Appends};
ghost use Rattle.csma_dev.specs.Device.{IsDevice, is_busy};
ghost use Rattle.csma_dev.specs.Step.{doubled, lifted};
ghost use Rattle.csma_dev.specs.Seen.{plain_in, plain_act};
ghost use Rattle.csma_dev.specs.declared.device.Use.TheVariants.{Idle, Sending};

use crate::bus::Bus;
use crate::words::{Act, In};
use frame_loss::{Fate, receive};
use pkt_face::Pkt;
use sim_base::{Kind, Loss, NoMemory, Random, Rate, Time};
use std::marker::Model;
use std::mem;

/// The lengths of a frame's header and of its trailer.
pub const HEADER: u32 = 14;

pub const TRAILER: u32 = 4;

/// How many tries a frame has.
const MOST_TRIES: u32 = 1000;

/// The unit of the times that are drawn, in nanoseconds.
const SLOT: u64 = 1000;

/// Times are drawn from at most 2 to this power slots.
const MOST_DOUBLINGS: u32 = 10;

/// The MAC address of everyone.
const BROADCAST: [u8; 6] = [0xff; 6];

/// What a device does.
#[derive(Debug, Drop)]
pub enum Use<P> {
    Idle,
    /// Its frame is on the bus.
    Sending,
    /// A frame waits for the bus, which wasn't free so many times.
    Waiting { frame: P, tries: u32 },
}

/// A device of a LAN. Its header is Ethernet's, and its trailer has four bytes.
#[derive(Drop)]
pub struct Csma<P: Pkt> {
    mac: [u8; 6],
    rate: Rate,
    delay: Time,
    traced: bool,
    does: Use<P>,
    loss: Loss,
}

impl<P: Pkt> Model for Csma<P> {
    ghost use Rattle.csma_dev.specs.Device.{Device, IsDevice, plain_use};

    ghost Value = { Device };

    ghost view = { λ d. record { mac = d.mac; rate = d.rate.0; delay = d.delay.0; traced = d.traced; does = plain_use P.plain d.does; loss = d.loss } };

    ghost invariant = { λ d. IsDevice (record { mac = d.mac; rate = d.rate.0; delay = d.delay.0; traced = d.traced; does = plain_use P.plain d.does; loss = d.loss }) };
}

impl<P: Pkt> Csma<P> {
    ghost use Rattle.csma_dev.specs.Step.{CanTake, arrives, backs_off, is_heard, leaves, retries, saved, starts, step, tries_once};

    /// An idle device.
    pub fn make(mac: [u8; 6], rate: Rate, delay: Time, traced: bool, loss: Loss) -> Csma<P>
        requires some_rate { 1 ≤ rate.0 }
        requires rate_in_range { rate.0 ≤ 10 ^ 12 }
        requires delay_in_range { delay.0 ≤ 10 ^ 12 }
        ensures { result ≡ record { mac = mac; rate = rate.0; delay = delay.0; traced = traced; does = Idle; loss = loss } }
    {
        Csma {
            mac,
            rate,
            delay,
            traced,
            does: Use::Idle,
            loss,
        }
    }

    pub fn is_busy(&self) -> bool
        ensures { result ≡ is_busy self.now.does }
    {
        match self.does {
            Use::Idle => false,
            Use::Sending | Use::Waiting { .. } => true,
        }
    }

    /// Every device is within the limits.
    pub fn is_within_limits(&self)
        ensures { IsDevice self.now }
    {
        let _rate = self.rate;
    }

    /// Whether a frame's destination is this device, or everyone. A frame that isn't heard changes nothing.
    pub fn hears(&self, frame: &P) -> bool
        requires { 18 ≤ len (P.plain frame.now) }
        ensures { result ≡ is_heard self.now (P.plain frame.now) }
    {
        let mut destination = [0; 6];
        frame.peek(0, &mut destination);
        destination == self.mac || destination == BROADCAST
    }

    /// Takes an input, with the bus and the node's generator, and puts the acts that follow behind `out`. After
    /// `NoMemory` all are given up.
    pub fn step(
        &mut self,
        input: In<P>,
        maker: &mut P::Maker,
        bus: &mut Bus,
        random: &mut Random,
        out: &mut Vec<Act<P>>,
    ) -> Result<(), NoMemory>
        requires { CanTake (plain_in P.plain input) }
        ensures state { OnOk result (self.new ≡ (step self.old bus.old random.old (plain_in P.plain input)).device) }
        ensures bus { OnOk result (bus.new ≡ (step self.old bus.old random.old (plain_in P.plain input)).bus) }
        ensures random { OnOk result (random.new ≡ (step self.old bus.old random.old (plain_in P.plain input)).random) }
        ensures acts { OnOk result (Appends (plain_act P.plain) out.old.items out.new.items (step self.old bus.old random.old (plain_in P.plain input)).acts) }
    {
        match input {
            In::Start { now, frame } => self.attempt(now, frame, 0, maker, bus, random, out),
            In::BusFree => {
                self.does = Use::Idle;
                Ok(())
            }
            In::BackoffOver { now } => self.retry(now, maker, bus, random, out),
            In::Arrive { frame } => self.arrive(frame, maker, random, out),
        }
    }

    /// Makes a try for the frame that waits, if one does.
    fn retry(
        &mut self,
        now: Time,
        maker: &mut P::Maker,
        bus: &mut Bus,
        random: &mut Random,
        out: &mut Vec<Act<P>>,
    ) -> Result<(), NoMemory>
        requires { now.0 ≤ 10 ^ 12 }
        ensures state { OnOk result (self.new ≡ (retries self.old.does now.0 self.old bus.old random.old).device) }
        ensures bus { OnOk result (bus.new ≡ (retries self.old.does now.0 self.old bus.old random.old).bus) }
        ensures random { OnOk result (random.new ≡ (retries self.old.does now.0 self.old bus.old random.old).random) }
        ensures acts { OnOk result (Appends (plain_act P.plain) out.old.items out.new.items (retries self.old.does now.0 self.old bus.old random.old).acts) }
    {
        match mem::replace(&mut self.does, Use::Idle) {
            Use::Idle => Ok(()),
            Use::Sending => {
                self.does = Use::Sending;
                Ok(())
            }
            Use::Waiting { frame, tries } => {
                self.attempt(now, frame, tries, maker, bus, random, out)
            }
        }
    }

    /// Sends a frame if the bus is free, and waits if it isn't.
    fn attempt(
        &mut self,
        now: Time,
        frame: P,
        tries: u32,
        maker: &mut P::Maker,
        bus: &mut Bus,
        random: &mut Random,
        out: &mut Vec<Act<P>>,
    ) -> Result<(), NoMemory>
        requires time { now.0 ≤ 10 ^ 12 }
        requires whole { 18 ≤ len (P.plain frame) }
        requires tries { tries < 1000 }
        ensures state { OnOk result (self.new ≡ (tries_once now.0 (P.plain frame) tries self.old bus.old random.old).device) }
        ensures bus { OnOk result (bus.new ≡ (tries_once now.0 (P.plain frame) tries self.old bus.old random.old).bus) }
        ensures random { OnOk result (random.new ≡ (tries_once now.0 (P.plain frame) tries self.old bus.old random.old).random) }
        ensures acts { OnOk result (Appends (plain_act P.plain) out.old.items out.new.items (tries_once now.0 (P.plain frame) tries self.old bus.old random.old).acts) }
    {
        if bus.is_free(now) {
            return self.send(now, frame, maker, bus, out);
        }
        self.back_off(now, frame, tries + 1, random, out)
    }

    /// Sends a frame, which has the bus until it has come to the others.
    fn send(
        &mut self,
        now: Time,
        mut frame: P,
        maker: &mut P::Maker,
        bus: &mut Bus,
        out: &mut Vec<Act<P>>,
    ) -> Result<(), NoMemory>
        requires time { now.0 ≤ 10 ^ 12 }
        requires whole { 18 ≤ len (P.plain frame) }
        ensures state { OnOk result (self.new ≡ record self.old { does = Sending }) }
        ensures bus { OnOk result (bus.new.busy_until.0 ≡ leaves self.old now.0 (P.plain frame)) }
        ensures acts { OnOk result (Appends (plain_act P.plain) out.old.items out.new.items (starts now.0 (P.plain frame) self.old)) }
    {
        let at = Time(now.0 + self.frame_time(frame.len()) + self.delay.0);
        bus.busy_until = at;
        self.save(&mut frame, maker, out)?;
        self.does = Use::Sending;
        out.push(Act::ArriveAt { at, frame })?;
        out.push(Act::SentAt { at })?;
        Ok(())
    }

    /// Waits for a time that is drawn, or gives the frame up after so many tries.
    fn back_off(
        &mut self,
        now: Time,
        frame: P,
        tries: u32,
        random: &mut Random,
        out: &mut Vec<Act<P>>,
    ) -> Result<(), NoMemory>
        requires time { now.0 ≤ 10 ^ 12 }
        requires whole { 18 ≤ len (P.plain frame) }
        ensures state { OnOk result (self.new ≡ (backs_off now.0 (P.plain frame) tries self.old random.old).device) }
        ensures random { OnOk result (random.new ≡ (backs_off now.0 (P.plain frame) tries self.old random.old).random) }
        ensures acts { OnOk result (Appends (plain_act P.plain) out.old.items out.new.items (backs_off now.0 (P.plain frame) tries self.old random.old).acts) }
    {
        if tries >= MOST_TRIES {
            self.does = Use::Idle;
            out.push(Act::GaveUp { frame })?;
            return Ok(());
        }
        let slots = 1 + random.draw(most_slots(tries));
        self.does = Use::Waiting { frame, tries };
        out.push(Act::BackoffAt {
            at: Time(now.0 + SLOT * u64::from(slots)),
        })?;
        Ok(())
    }

    /// Takes a frame from the bus, if it is for this device or for everyone.
    fn arrive(
        &mut self,
        frame: P,
        maker: &mut P::Maker,
        random: &mut Random,
        out: &mut Vec<Act<P>>,
    ) -> Result<(), NoMemory>
        requires { 18 ≤ len (P.plain frame) }
        ensures state { OnOk result (self.new ≡ (arrives (P.plain frame) self.old random.old).device) }
        ensures random { OnOk result (random.new ≡ (arrives (P.plain frame) self.old random.old).random) }
        ensures acts { OnOk result (Appends (plain_act P.plain) out.old.items out.new.items (arrives (P.plain frame) self.old random.old).acts) }
    {
        if !self.hears(&frame) {
            return Ok(());
        }
        let alloc = *out.allocator();
        match receive(&mut self.loss, frame, alloc, maker, random)? {
            Fate::Lost { frame } => {
                out.push(Act::Lost { frame })?;
                Ok(())
            }
            Fate::Received { frame } => self.lift(frame, maker, out),
        }
    }

    /// Hands on the packet of a frame that was received.
    fn lift(
        &self,
        mut frame: P,
        maker: &mut P::Maker,
        out: &mut Vec<Act<P>>,
    ) -> Result<(), NoMemory>
        requires { 18 ≤ len (P.plain frame) }
        ensures { OnOk result (Appends (plain_act P.plain) out.old.items out.new.items (saved self.now (P.plain frame) ++ lifted (P.plain frame) ∷ [])) }
    {
        self.save(&mut frame, maker, out)?;
        out.push(lifted(frame))?;
        Ok(())
    }

    /// Saves a copy of the frame, where frames are traced.
    fn save(
        &self,
        frame: &mut P,
        maker: &mut P::Maker,
        out: &mut Vec<Act<P>>,
    ) -> Result<(), NoMemory>
        ensures same { P.plain frame.new ≡ P.plain frame.old }
        ensures acts { OnOk result (Appends (plain_act P.plain) out.old.items out.new.items (saved self.now (P.plain frame.old))) }
    {
        if self.traced {
            out.push(Act::Save {
                frame: frame.copy(maker)?,
            })?;
        }
        Ok(())
    }

    /// How many nanoseconds a frame of so many bytes takes.
    fn frame_time(&self, bytes: u32) -> u64
        requires some { 1 ≤ bytes }
        requires small { bytes ≤ longest }
        ensures value { result ≡ frame_time self.now.rate bytes }
        ensures small { result < 2 ^ 62 }
    {
        self.rate.frame_time(bytes).0
    }
}

/// A packet without its header and trailer, for its protocol.
fn lifted<P: Pkt>(mut frame: P) -> Act<P>
    requires { 18 ≤ len (P.plain frame) }
    ensures { plain_act P.plain result ≡ lifted (P.plain frame) }
{
    let mut proto = [0; 2];
    frame.peek(12, &mut proto);
    frame.pop_back(TRAILER, Kind::Trailer);
    frame.pop_front(HEADER, Kind::Ethernet);
    Act::Up {
        proto: u16::from_be_bytes(proto),
        packet: frame,
    }
}

/// Below how many slots a wait is drawn: they double with each try.
fn most_slots(tries: u32) -> u32
    ensures value { result ≡ doubled tries }
    ensures some { 1 ≤ result }
{
    1 << tries.min(MOST_DOUBLINGS)
}
