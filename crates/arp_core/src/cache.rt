//! The addresses of a LAN, as far as an interface knows them.
//!
//!     entries:   address -> Known (MAC address, until), Waiting (tries, stamp) or Failed (until); the packets held

ghost use Rattle.std.specs.Prelude.{◌≡◌, ◌≤◌, ◌^◌, [], OnOk, Option, Some, None};
ghost use Rattle.layer_words.specs.Acts.{Appends};
ghost use Rattle.layer_words.specs.Counting.{with_stamp};
ghost use Rattle.arp_core.specs.Seen.{plain_act, plain_in};

use crate::entry::Entry;
use crate::words::{Act, In};
use header_forms::Arp;
use layer_words::next_stamp;
use pkt_face::Pkt;
use sim_base::{NoMemory, Numbers, Time};
use std::alloc::Global;
use std::collections::BTreeMap;
use std::marker::Model;

/// The two kinds of message: one asks, and one answers.
const REQUEST: u16 = 1;

const REPLY: u16 = 2;

/// How many times an address is asked for at most.
const MOST_TRIES: u32 = 3;

/// How long an answer is waited for, in nanoseconds.
const PATIENCE: u64 = 1_000_000_000;

/// How long an answer is believed.
const BELIEF: u64 = 120_000_000_000;

/// How long nothing is asked when nothing has answered.
const SILENCE: u64 = 100_000_000_000;

/// What an interface knows of the addresses on its LAN. Contracts see the list of its entries, in the order of their
/// addresses.
#[derive(Drop)]
pub struct ArpCache<P: Pkt> {
    mac: [u8; 6],
    addr: u32,
    entries: BTreeMap<u32, Entry<P>>,
}

impl<P: Pkt> Model for ArpCache<P> {
    ghost use Rattle.arp_core.specs.Cache.{PlainCache};

    ghost Value = { PlainCache };

    ghost view = { λ c. record { mac = c.mac; addr = c.addr; entries = c.entries.entries } };
}

impl<P: Pkt> ArpCache<P> {
    ghost use Rattle.arp_core.specs.Step.{CanTake, answered, asks, begins, fires, hears, resolves, step};

    /// An interface with a MAC address and an IPv4 address, which knows no other.
    pub fn make(alloc: Global, mac: [u8; 6], addr: u32) -> ArpCache<P>
        ensures { result ≡ record { mac = mac; addr = addr; entries = [] } }
    {
        ArpCache {
            mac,
            addr,
            entries: BTreeMap::new(alloc),
        }
    }

    /// The interface's own MAC address.
    pub fn mac(&self) -> [u8; 6]
        ensures { result ≡ self.now.mac }
    {
        self.mac
    }

    /// Takes an input, with the node's numbers, and puts the acts that follow behind `out`. After `NoMemory` all are
    /// given up.
    pub fn step(
        &mut self,
        input: In<P>,
        numbers: &mut Numbers,
        out: &mut Vec<Act<P>>,
    ) -> Result<(), NoMemory>
        requires { CanTake (plain_in P.plain input) }
        ensures state { OnOk result (self.new ≡ (step self.old numbers.old (plain_in P.plain input)).state) }
        ensures numbers { OnOk result (numbers.new ≡ (step self.old numbers.old (plain_in P.plain input)).numbers) }
        ensures acts { OnOk result (Appends (plain_act P.plain) out.old.items out.new.items (step self.old numbers.old (plain_in P.plain input)).acts) }
    {
        match input {
            In::Resolve { now, addr, packet } => self.resolve(now, addr, packet, numbers, out),
            In::Heard { now, arp } => self.hear(now, &arp, out),
            In::Timer { now, addr, stamp } => self.time_out(now, addr, stamp, numbers, out),
        }
    }

    /// Sends a packet to an address that is known, and asks for one that isn't.
    fn resolve(
        &mut self,
        now: Time,
        addr: u32,
        packet: P,
        numbers: &mut Numbers,
        out: &mut Vec<Act<P>>,
    ) -> Result<(), NoMemory>
        requires { now.0 ≤ 2 ^ 60 }
        ensures state { OnOk result (self.new ≡ (resolves now.0 addr (P.plain packet) self.old numbers.old).state) }
        ensures numbers { OnOk result (numbers.new ≡ (resolves now.0 addr (P.plain packet) self.old numbers.old).numbers) }
        ensures acts { OnOk result (Appends (plain_act P.plain) out.old.items out.new.items (resolves now.0 addr (P.plain packet) self.old numbers.old).acts) }
    {
        let Some(entry) = self.entries.get_mut(&addr) else {
            return self.begin(now, addr, packet, numbers, out);
        };
        if !entry.counts(now) {
            *entry = Entry::first_try(*out.allocator(), numbers.stamps, packet)?;
            return self.ask(now, addr, numbers, out);
        }
        entry.offer(packet, out)
    }

    /// Asks for an address for the first time, and holds the packet.
    fn begin(
        &mut self,
        now: Time,
        addr: u32,
        packet: P,
        numbers: &mut Numbers,
        out: &mut Vec<Act<P>>,
    ) -> Result<(), NoMemory>
        requires { now.0 ≤ 2 ^ 60 }
        ensures state { OnOk result (self.new ≡ (begins now.0 addr (P.plain packet) self.old numbers.old).state) }
        ensures numbers { OnOk result (numbers.new ≡ (begins now.0 addr (P.plain packet) self.old numbers.old).numbers) }
        ensures acts { OnOk result (Appends (plain_act P.plain) out.old.items out.new.items (begins now.0 addr (P.plain packet) self.old numbers.old).acts) }
    {
        let entry = Entry::first_try(*out.allocator(), numbers.stamps, packet)?;
        self.ask(now, addr, numbers, out)?;
        self.entries.insert(addr, entry)?;
        Ok(())
    }

    /// Asks for an address, and sets the timer of its answer.
    fn ask(
        &self,
        now: Time,
        addr: u32,
        numbers: &mut Numbers,
        out: &mut Vec<Act<P>>,
    ) -> Result<(), NoMemory>
        requires { now.0 ≤ 2 ^ 60 }
        ensures numbers { numbers.new ≡ with_stamp numbers.old }
        ensures acts { OnOk result (Appends (plain_act P.plain) out.old.items out.new.items (asks now.0 addr self.now numbers.old)) }
    {
        let stamp = next_stamp(numbers);
        out.push(Act::Ask {
            arp: Arp {
                op: REQUEST,
                sender_mac: self.mac,
                sender: self.addr,
                target_mac: [0; 6],
                target: addr,
            },
        })?;
        out.push(Act::TimerAt {
            at: Time(now.0 + PATIENCE),
            addr,
            stamp,
        })?;
        Ok(())
    }

    /// Learns from a message to this interface where its sender is, and answers one that asks.
    fn hear(&mut self, now: Time, arp: &Arp, out: &mut Vec<Act<P>>) -> Result<(), NoMemory>
        requires { now.0 ≤ 2 ^ 60 }
        ensures state { OnOk result (self.new ≡ (hears now.0 arp.now self.old).state) }
        ensures acts { OnOk result (Appends (plain_act P.plain) out.old.items out.new.items (hears now.0 arp.now self.old).acts) }
    {
        if arp.target != self.addr {
            return Ok(());
        }
        let until = Time(now.0 + BELIEF);
        let known = Entry::known(*out.allocator(), arp.sender_mac, until);
        if let Some(before) = self.entries.insert(arp.sender, known)? {
            before.send_held(arp.sender_mac, out)?;
        }
        self.answer(arp, out)
    }

    /// Answers a message that asks.
    fn answer(&self, arp: &Arp, out: &mut Vec<Act<P>>) -> Result<(), NoMemory>
        ensures { OnOk result (Appends (plain_act P.plain) out.old.items out.new.items (answered arp.now self.now)) }
    {
        if arp.op == REQUEST {
            out.push(Act::Answer {
                arp: Arp {
                    op: REPLY,
                    sender_mac: self.mac,
                    sender: self.addr,
                    target_mac: arp.sender_mac,
                    target: arp.sender,
                },
            })?;
        }
        Ok(())
    }

    /// Asks for an address once more, or gives it up. A timer whose stamp isn't the current one does nothing.
    fn time_out(
        &mut self,
        now: Time,
        addr: u32,
        stamp: u64,
        numbers: &mut Numbers,
        out: &mut Vec<Act<P>>,
    ) -> Result<(), NoMemory>
        requires { now.0 ≤ 2 ^ 60 }
        ensures state { OnOk result (self.new ≡ (fires now.0 addr stamp self.old numbers.old).state) }
        ensures numbers { OnOk result (numbers.new ≡ (fires now.0 addr stamp self.old numbers.old).numbers) }
        ensures acts { OnOk result (Appends (plain_act P.plain) out.old.items out.new.items (fires now.0 addr stamp self.old numbers.old).acts) }
    {
        let Some(entry) = self.entries.get_mut(&addr) else {
            return Ok(());
        };
        let Some(tries) = entry.tries_under(stamp) else {
            return Ok(());
        };
        if tries < MOST_TRIES {
            entry.try_again(tries + 1, numbers.stamps);
            return self.ask(now, addr, numbers, out);
        }
        entry.give_up(Time(now.0 + SILENCE), out)
    }
}
