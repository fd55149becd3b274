//! A node with one interface.

use anyhow::{Result, bail};
use arp_core::ArpCache;
use csma_dev::{Bus, Csma};
use iface_step::{Act, Happening, Iface, IfaceTools, In, Place};
use p2p_dev::P2p;
use pkt_face::{Pkt, PlainPkt, Sign};
use queue_discs::{Disc, DiscKind};
use sim_base::{Loss, NodeId, Numbers, Random, Rate, Time, Uid};
use std::alloc::{AllocError, Global};

/// No run is longer.
const LONGEST_RUN: u64 = 1_000_000_000_000;

const RATE: Rate = Rate(100_000_000);

const DELAY: Time = Time(1000);

/// A node with one interface, and what its last step asked for.
#[derive(Drop)]
pub struct Station {
    iface: Iface<PlainPkt>,
    numbers: Numbers,
    random: Random,
    tools: IfaceTools<PlainPkt>,
    out: Vec<Act<PlainPkt>>,
}

fn place(node: u32) -> Place {
    Place {
        node: NodeId(node),
        iface: 0,
    }
}

impl Station {
    fn of(alloc: Global, node: u32, iface: Iface<PlainPkt>) -> Station {
        Station {
            iface,
            numbers: Numbers {
                node: NodeId(node),
                packets: 0,
                ids: 0,
                stamps: 0,
            },
            random: Random::make(1, NodeId(node)),
            tools: IfaceTools::make(alloc),
            out: Vec::new(alloc),
        }
    }

    /// A node on a LAN, whose frames the text trace tells and a capture has.
    pub fn on_lan(alloc: Global, node: u32, other: u32, addr: u32) -> Result<Station> {
        let mac = [2, 0, 0, 0, 0, (node % 256) as u8];
        let disc = Disc::make(alloc, DiscKind::Fifo { limit: 2 });
        let others = vec![in alloc; place(other)]?;
        let device = Csma::make(mac, RATE, DELAY, true, Loss::none(alloc));
        let cache = ArpCache::make(alloc, mac, addr);
        let iface = Iface::on_lan(place(node), true, true, disc, 0, others, device, cache);
        Ok(Station::of(alloc, node, iface))
    }

    /// The same on a link.
    pub fn on_link(alloc: Global, node: u32, other: u32) -> Station {
        let disc = Disc::make(alloc, DiscKind::Fifo { limit: 2 });
        let device = P2p::make(RATE, DELAY, true, Loss::none(alloc));
        let iface = Iface::on_link(place(node), true, true, disc, place(other), device);
        Station::of(alloc, node, iface)
    }

    /// Sends a packet of so many zeros.
    pub fn send(
        &mut self,
        alloc: Global,
        bus: &mut Bus,
        now: u64,
        hop: u32,
        size: u16,
    ) -> Result<()> {
        let uid = Uid {
            node: self.numbers.node,
            count: 0,
        };
        let Ok(packet) = PlainPkt::zeros(alloc, &mut (), uid, u32::from(size)) else {
            bail!("no memory");
        };
        if now > LONGEST_RUN || packet.len() > u32::from(size) {
            bail!("no run is so long");
        }
        let now = Time(now);
        self.out.clear();
        let done = self.iface.step(
            In::Send { now, hop, packet },
            &mut self.tools,
            &mut (),
            &mut self.numbers,
            bus,
            &mut self.random,
            &mut self.out,
        );
        match done {
            Ok(()) => Ok(()),
            Err(_) => bail!("no memory"),
        }
    }

    /// Lets an event of the interface fire.
    pub fn fire(&mut self, bus: &mut Bus, now: u64, what: Happening<PlainPkt>) -> Result<()> {
        if now > LONGEST_RUN || !self.iface.can_take(&what) {
            bail!("no run has this event");
        }
        let now = Time(now);
        self.out.clear();
        let done = self.iface.step(
            In::Happens { now, what },
            &mut self.tools,
            &mut (),
            &mut self.numbers,
            bus,
            &mut self.random,
            &mut self.out,
        );
        match done {
            Ok(()) => Ok(()),
            Err(_) => bail!("no memory"),
        }
    }

    pub fn acts(&self) -> &[Act<PlainPkt>] {
        self.out.as_slice()
    }

    /// The frame that the last step sent, if it sent one.
    pub fn sent_frame(&mut self) -> Option<PlainPkt> {
        while let Some(act) = self.out.pop() {
            if let Act::Schedule {
                what: Happening::Arrive { frame },
                ..
            } = act
            {
                return Some(frame);
            }
        }
        None
    }
}

/// What acts ask for, a word for each.
pub fn told(alloc: Global, acts: &[Act<PlainPkt>]) -> Result<String, AllocError> {
    let mut text = String::new(alloc);
    for act in acts {
        let word = match act {
            Act::Schedule { at, to, what } => {
                let what = happening(what);
                format!(in alloc; " {what}@{}n{}", at.0, to.node.0)?
            }
            Act::Write { sign, frame } => {
                let sign = letter(*sign);
                format!(in alloc; " {sign}{}", frame.len())?
            }
            Act::Up { packet } => format!(in alloc; " up{}", packet.len())?,
            Act::Dropped => format!(in alloc; " dropped")?,
        };
        text.push_str(word.as_str())?;
    }
    Ok(text)
}

fn happening(what: &Happening<PlainPkt>) -> &'static str {
    match what {
        Happening::Arrive { .. } => "arrive",
        Happening::Sent => "sent",
        Happening::BusFree => "free",
        Happening::BackoffOver => "over",
        Happening::DiscReady => "ready",
        Happening::ArpTimer { .. } => "timer",
    }
}

fn letter(sign: Sign) -> &'static str {
    match sign {
        Sign::Enqueue => "+",
        Sign::Dequeue => "-",
        Sign::Drop => "d",
        Sign::Receive => "r",
        Sign::Save => "s",
    }
}
