//! The table of a bridge, and the way of a frame through it.
//!
//!     entries:   source MAC address -> the port and the time of its last frame

ghost use Rattle.std.specs.Prelude.{◌≡◌, ◌<◌, ◌≤◌, ◌++◌, ◌∷◌, [], IfNone, IfSome, OnOk};
ghost use Rattle.sim_base.specs.Packet.{len};
ghost use Rattle.layer_words.specs.Acts.{Appends};
ghost use Rattle.bridge_dev.specs.Seen.{plain_act, plain_in};
ghost use Rattle.bridge_dev.specs.Step.{CanTake, forwards, others, outs, sent_on, source, step, way};
ghost use Rattle.bridge_dev.specs.Table.{counts, empty, learned, lookup};

use crate::words::{Act, In};
use pkt_face::Pkt;
use sim_base::{NoMemory, Time};
use std::alloc::Global;
use std::collections::BTreeMap;
use std::marker::Model;

/// How long a station is looked for at the port of its last frame, in nanoseconds.
const BELIEF: u64 = 300_000_000_000;

/// The MAC address of everyone.
const BROADCAST: [u8; 6] = [0xff; 6];

/// Where a station was heard last, and when.
#[derive(Clone, Copy, Debug, PartialEq, Eq)]
pub struct Sighting {
    pub port: u32,
    pub at: Time,
}

impl Sighting {
    /// Whether the station is still looked for there.
    fn counts(&self, now: Time) -> bool
        ensures { result ≡ counts now.0 self.now }
    {
        now.0.saturating_sub(self.at.0) < BELIEF
    }
}

/// A bridge. Contracts see it as the number of its ports and its entries, in the order of the addresses.
#[derive(Drop)]
pub struct Bridge {
    ports: u32,
    entries: BTreeMap<[u8; 6], Sighting>,
}

impl Model for Bridge {
    ghost use Rattle.bridge_dev.specs.Table.{IsBridge, PlainBridge};

    ghost Value = { PlainBridge };

    ghost view = { λ b. record { ports = b.ports; entries = b.entries.entries } };

    ghost invariant = { λ b. IsBridge (record { ports = b.ports; entries = b.entries.entries }) };
}

impl Bridge {
    /// A bridge with so many ports that has heard no station.
    pub fn make(alloc: Global, ports: u32) -> Bridge
        ensures { result ≡ empty ports }
    {
        Bridge {
            ports,
            entries: BTreeMap::new(alloc),
        }
    }

    /// How many ports the bridge has.
    pub fn ports(&self) -> u32
        ensures { result ≡ self.now.ports }
    {
        self.ports
    }

    /// The port at which a station is looked for, if it was heard in the last 300 s.
    pub fn lookup(&self, now: Time, mac: [u8; 6]) -> Option<u32>
        ensures value { result ≡ lookup now.0 mac self.now }
        ensures known { IfSome result (λ port. port < self.now.ports) }
    {
        match self.entries.get(&mac) {
            Some(sighting) if sighting.counts(now) => Some(sighting.port),
            _ => None,
        }
    }

    /// Takes an input, and puts the acts that follow behind `out`. The frames that go out are the one that came in and copies
    /// of it. After `NoMemory` all are given up.
    pub fn step<P: Pkt>(
        &mut self,
        input: In<P>,
        maker: &mut P::Maker,
        out: &mut Vec<Act<P>>,
    ) -> Result<(), NoMemory>
        requires { CanTake self.old.ports (plain_in P.plain input) }
        ensures state { OnOk result (self.new ≡ (step self.old (plain_in P.plain input)).state) }
        ensures acts { OnOk result (Appends (plain_act P.plain) out.old.items out.new.items (step self.old (plain_in P.plain input)).acts) }
    {
        match input {
            In::Frame { now, port, frame } => {
                self.learn(now, port, &frame)?;
                self.forward(now, port, frame, maker, out)
            }
        }
    }

    /// Remembers where and when the frame's source was heard.
    fn learn<P: Pkt>(&mut self, now: Time, port: u32, frame: &P) -> Result<(), NoMemory>
        requires known { port < self.old.ports }
        requires whole { 14 ≤ len (P.plain frame.now) }
        ensures { OnOk result (self.new ≡ learned now.0 port (source (P.plain frame.now)) self.old) }
    {
        let mut mac = [0; 6];
        frame.peek(6, &mut mac);
        self.entries.insert(mac, Sighting { port, at: now })?;
        Ok(())
    }

    /// Sends a frame on towards its destination.
    fn forward<P: Pkt>(
        &self,
        now: Time,
        port: u32,
        frame: P,
        maker: &mut P::Maker,
        out: &mut Vec<Act<P>>,
    ) -> Result<(), NoMemory>
        requires known { port < self.now.ports }
        requires whole { 14 ≤ len (P.plain frame) }
        ensures { OnOk result (Appends (plain_act P.plain) out.old.items out.new.items (forwards (way now.0 (P.plain frame) self.now) port self.now.ports (P.plain frame))) }
    {
        match self.way(now, &frame) {
            None => flood(self.ports, port, frame, maker, out),
            Some(known) => {
                out.push(sent_on(known, port, frame))?;
                Ok(())
            }
        }
    }

    /// The port at which the frame's destination is looked for.
    fn way<P: Pkt>(&self, now: Time, frame: &P) -> Option<u32>
        requires { 14 ≤ len (P.plain frame.now) }
        ensures { result ≡ way now.0 (P.plain frame.now) self.now }
    {
        let mut mac = [0; 6];
        frame.peek(0, &mut mac);
        if mac == BROADCAST {
            None
        } else {
            self.lookup(now, mac)
        }
    }
}

/// Sends a frame out at a port, unless it came in there.
fn sent_on<P: Pkt>(known: u32, port: u32, frame: P) -> Act<P>
    ensures { plain_act P.plain result ≡ sent_on known port (P.plain frame) }
{
    if known == port {
        Act::Ignored
    } else {
        Act::Out { port: known, frame }
    }
}

/// Sends a frame out at every port but the one where it came in. The last of them gets the frame itself.
fn flood<P: Pkt>(
    ports: u32,
    port: u32,
    mut frame: P,
    maker: &mut P::Maker,
    out: &mut Vec<Act<P>>,
) -> Result<(), NoMemory>
    requires { port < ports }
    ensures { OnOk result (Appends (plain_act P.plain) out.old.items out.new.items (outs (P.plain frame) (others port ports))) }
{
    let Some(last) = last_other(ports, port) else {
        return Ok(());
    };
    send_copies(last, port, &mut frame, maker, out)?;
    out.push(Act::Out { port: last, frame })?;
    Ok(())
}

/// The last port but the one where a frame came in, if there is another.
#[tactic(auto, using(crate::proofs::PortLaws::others_last, crate::proofs::PortLaws::others_skip, crate::proofs::PortLaws::others_none))]
fn last_other(ports: u32, port: u32) -> Option<u32>
    requires { port < ports }
    ensures none { IfNone result (others port ports ≡ []) }
    ensures some { IfSome result (λ last. others port ports ≡ others port last ++ last ∷ []) }
{
    if port + 1 < ports {
        Some(ports - 1)
    } else if port > 0 {
        Some(port - 1)
    } else {
        None
    }
}

/// Sends a copy of a frame out at every port below `ports` but the one where it came in.
fn send_copies<P: Pkt>(
    ports: u32,
    port: u32,
    frame: &mut P,
    maker: &mut P::Maker,
    out: &mut Vec<Act<P>>,
) -> Result<(), NoMemory>
    ensures same { P.plain frame.new ≡ P.plain frame.old }
    ensures acts { OnOk result (Appends (plain_act P.plain) out.old.items out.new.items (outs (P.plain frame.old) (others port ports))) }
{
    for other in 0..ports {
        if other != port {
            out.push(Act::Out {
                port: other,
                frame: frame.copy(maker)?,
            })?;
        }
    }
    Ok(())
}
