//! What interfaces ask for, over packets that copy everything. Standard input gives an input of an interface on each line, or a
//! title behind `# `; the program writes the line, and behind it the acts, in order. `new` makes two nodes on one LAN, 0 and 1,
//! with the addresses 10.1.1.1 and 10.1.1.2, 100,000,000 bits per second and 1000 ns, or two nodes on one link of these. An
//! address is eight hexadecimal digits, and times are in nanoseconds; `arrive` brings the frame that was sent last.
#![tactic(auto)]

mod station;

use anyhow::{Result, bail};
use csma_dev::Bus;
use iface_step::Happening;
use pkt_face::{Pkt, PlainPkt};
use sim_base::{NodeId, Uid};
use station::{Station, told};
use std::alloc::Global;

/// Two nodes, the bus between them, and the frame that was sent last.
#[derive(Drop)]
struct Pair {
    first: Station,
    second: Station,
    bus: Bus,
    frame: PlainPkt,
}

impl Pair {
    fn make(alloc: Global, kind: &str) -> Result<Pair> {
        let uid = Uid {
            node: NodeId(0),
            count: 0,
        };
        let (first, second) = match kind {
            "lan" => (
                Station::on_lan(alloc, 0, 1, 0x0a01_0101)?,
                Station::on_lan(alloc, 1, 0, 0x0a01_0102)?,
            ),
            "link" => (Station::on_link(alloc, 0, 1), Station::on_link(alloc, 1, 0)),
            _ => bail!("no pair is of this kind"),
        };
        let Ok(frame) = PlainPkt::zeros(alloc, &mut (), uid, 18) else {
            bail!("no memory");
        };
        Ok(Pair {
            first,
            second,
            bus: Bus::FREE,
            frame,
        })
    }

    /// What the interface of a node asks for.
    fn answer(&mut self, alloc: Global, node: &str, now: &str, input: &[&str]) -> Result<String> {
        let now = now.parse()?;
        if node == "0" {
            answer(
                alloc,
                &mut self.first,
                &mut self.bus,
                &mut self.frame,
                now,
                input,
            )
        } else {
            answer(
                alloc,
                &mut self.second,
                &mut self.bus,
                &mut self.frame,
                now,
                input,
            )
        }
    }
}

/// What a station's interface asks for, and the frame that was sent last.
fn answer(
    alloc: Global,
    station: &mut Station,
    bus: &mut Bus,
    last: &mut PlainPkt,
    now: u64,
    input: &[&str],
) -> Result<String> {
    match *input {
        ["send", hop, size] => {
            let hop = u32::from_str_radix(hop, 16)?;
            station.send(alloc, bus, now, hop, size.parse()?)?;
        }
        ["arrive"] => {
            let Ok(frame) = last.copy(&mut ()) else {
                bail!("no memory");
            };
            station.fire(bus, now, Happening::Arrive { frame })?;
        }
        ["sent"] => station.fire(bus, now, Happening::Sent)?,
        ["free"] => station.fire(bus, now, Happening::BusFree)?,
        ["over"] => station.fire(bus, now, Happening::BackoffOver)?,
        ["ready"] => station.fire(bus, now, Happening::DiscReady)?,
        ["timer", addr, stamp] => {
            let timer = Happening::ArpTimer {
                addr: u32::from_str_radix(addr, 16)?,
                stamp: stamp.parse()?,
            };
            station.fire(bus, now, timer)?;
        }
        _ => bail!("no interface has this input"),
    }
    let text = told(alloc, station.acts())?;
    if let Some(frame) = station.sent_frame() {
        *last = frame;
    }
    Ok(text)
}

fn main(rt: HostRuntime) -> Result<()> {
    let alloc = rt.alloc();
    let mut pair = Pair::make(alloc, "lan")?;
    for line in rt.lines(alloc) {
        let line = line?;
        if line.as_str().starts_with("# ") {
            println!(rt; "{line}")?;
            continue;
        }
        let words: Vec<&str> = line.split(' ').collect(alloc)?;
        match *words.as_slice() {
            ["new", kind] => {
                pair = Pair::make(alloc, kind)?;
                println!(rt; "{line}")?;
            }
            [now, node, ref input @ ..] => {
                let answer = pair.answer(alloc, node, now, input)?;
                println!(rt; "{line}:{answer}")?;
            }
            _ => bail!("no interface has this input"),
        }
    }
    Ok(())
}
