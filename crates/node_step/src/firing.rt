//! A firing: what it sees beside its node, and what it has asked for so far.

ghost use Rattle.std.specs.Prelude.{◌≡◌, ◌+◌, ◌≤◌, ◌<◌, ◌^◌, [], OnOk, OnErr, length};
ghost use Rattle.layer_words.specs.Acts.{Appends};
ghost use Rattle.pkt_face.specs.Seen.{plain_line};
ghost use Rattle.node_step.specs.Loads.{plain_load, plain_event};

use crate::loads::{Effects, Event, Load};
use csma_dev::Bus;
use pkt_face::{Line, Pkt, Sign};
use sim_base::{Key, NoMemory, NodeId, Time};
use std::alloc::Global;
use std::marker::Model;

/// A firing: the key of its event, at a time of a run; the buses of all LANs by number, which stay from firing to firing; and
/// what is asked for: events, which the sender's count numbers, and lines, numbered from 0. It is kept from firing to firing,
/// so that its room is used again.
#[derive(Drop)]
pub struct Firing<P: Pkt> {
    key: Key,
    before: u64,
    lans: Vec<Bus>,
    sends: Vec<Event<P>>,
    lines: Vec<Line<P>>,
}

impl<P: Pkt> Model for Firing<P> {
    ghost use Rattle.std.specs.Prelude.{◌≡◌, ◌+◌, ◌≤◌, ◌^◌, map};
    ghost use Rattle.node_step.specs.Firing.{PlainFiring, request_of, text_of, scheduled, numbered};
    ghost use Rattle.pkt_face.specs.Seen.{plain_line};
    ghost use Rattle.node_step.specs.Loads.{plain_event};

    ghost Value = { PlainFiring };

    ghost view = { λ f. record { key = f.key; before = f.before; lans = f.lans.items; requests = map request_of (map (plain_event P.plain) f.sends.items); texts = map text_of (map (plain_line P.plain) f.lines.items) } };

    ghost invariant = { λ f. (f.key.time.0 ≤ 10 ^ 12) × (f.before ≤ 10 ^ 9 + 10 ^ 6) × (map (plain_event P.plain) f.sends.items ≡ scheduled f.key f.before (map request_of (map (plain_event P.plain) f.sends.items))) × (map (plain_line P.plain) f.lines.items ≡ numbered f.key 0 (map text_of (map (plain_line P.plain) f.lines.items))) };
}

impl<P: Pkt> Firing<P> {
    ghost use Rattle.node_step.specs.Firing.{PlainFiring, bus_of, schedule, with_bus, write, scheduled, numbered};

    /// A firing that has not begun, with the buses of all LANs.
    pub fn new(alloc: Global, lans: Vec<Bus>) -> Firing<P>
        ensures { result.lans ≡ lans.items }
    {
        let nothing = Key {
            time: Time(0),
            node: NodeId(0),
            sent: Time(0),
            by: NodeId(0),
            count: 0,
        };
        Firing {
            key: nothing,
            before: 0,
            lans,
            sends: Vec::new(alloc),
            lines: Vec::new(alloc),
        }
    }

    /// Begins the firing of an event whose node has scheduled so many events before.
    pub fn begin(&mut self, key: Key, before: u64)
        requires time { key.time.0 ≤ 10 ^ 12 }
        requires before { before ≤ 10 ^ 9 + 10 ^ 6 }
        ensures { self.new ≡ record { key = key; before = before; lans = self.old.lans; requests = []; texts = [] } }
    {
        self.key = key;
        self.before = before;
        self.sends.clear();
        self.lines.clear();
    }

    /// When it fires.
    pub fn now(&self) -> Time
        ensures value { result ≡ self.now.key.time }
        ensures small { result.0 ≤ 10 ^ 12 }
    {
        self.key.time
    }

    /// The bus that an interface uses, which is on this LAN.
    pub fn bus(&self, lan: Option<u32>) -> Bus
        ensures { result ≡ bus_of lan self.now.lans }
    {
        match lan {
            Some(lan) if (lan as usize) < self.lans.len() => self.lans[lan as usize],
            _ => Bus::FREE,
        }
    }

    /// The interface has used it.
    pub fn set_bus(&mut self, lan: Option<u32>, bus: Bus)
        ensures { self.new ≡ record self.old { lans = with_bus lan bus self.old.lans } }
    {
        if let Some(lan) = lan {
            if (lan as usize) < self.lans.len() {
                self.lans[lan as usize] = bus;
            }
        }
    }

    pub fn schedule(&mut self, at: Time, to: NodeId, load: Load<P>) -> Result<(), NoMemory>
        ensures { OnOk result (self.new ≡ schedule at to (plain_load P.plain load) self.old) }
    {
        let key = Key {
            time: at,
            node: to,
            sent: self.key.time,
            by: self.key.node,
            count: self.before + self.sends.len() as u64,
        };
        self.sends.push(Event { key, load })?;
        Ok(())
    }

    pub fn write(&mut self, iface: u32, sign: Sign, packet: P) -> Result<(), NoMemory>
        ensures { OnOk result (self.new ≡ write iface sign (P.plain packet) self.old) }
    {
        let Ok(index) = u32::try_from(self.lines.len()) else {
            return Err(NoMemory);
        };
        self.lines.push(Line {
            key: self.key,
            index,
            node: self.key.node,
            iface,
            sign,
            packet,
        })?;
        Ok(())
    }

    /// How many events are to be scheduled.
    pub fn count(&self) -> u64
        ensures value { result ≡ length self.now.requests }
        ensures small { result < 2 ^ 63 }
    {
        self.sends.len() as u64
    }

    /// Hands all over. After `NoMemory` the effects are as before.
    pub fn finish(&mut self, out: &mut Effects<P>) -> Result<(), NoMemory>
        ensures sends { OnOk result (Appends (plain_event P.plain) out.old.sends.items out.new.sends.items (scheduled self.old.key self.old.before self.old.requests)) }
        ensures lines { OnOk result (Appends (plain_line P.plain) out.old.lines.items out.new.lines.items (numbered self.old.key 0 self.old.texts)) }
        ensures lans { self.new.lans ≡ self.old.lans }
        ensures err { OnErr result ((out.new.sends.items ≡ out.old.sends.items) × (out.new.lines.items ≡ out.old.lines.items)) }
    {
        let before = out.sends.len();
        out.sends.append(&mut self.sends)?;
        match out.lines.append(&mut self.lines) {
            Ok(()) => Ok(()),
            Err(_) => {
                out.sends.truncate(before);
                Err(NoMemory)
            }
        }
    }
}
