//! Times packets: `bench_packet PACKET WHAT TIMES`, where PACKET is `plain` or `shared`, makes TIMES times
//! what WHAT says and writes how many bytes the packets had in the end. WHAT is `make` (a packet of 1,024
//! zeros), `push` (the same, and a first header of 8 bytes in front), `bytes` (a packet of 1,024 bytes),
//! `copy` (a copy and its drop), `hop` (the headers of link and IPv4 taken off, and new ones put in front) or
//! `saved` (the same, and a copy and its drop, as where each frame is saved to a capture).
#![tactic(auto)]

mod loads;

use crate::loads::Load;
use anyhow::{Context, Result, bail};
use pkt_face::{Pkt, PlainPkt};
use shared_packet::SharedPkt;
use std::alloc::{AllocError, Global};
use std::env;

fn main(rt: HostRuntime) -> Result<()> {
    let mut words = env::args(&rt)?;
    let _program = words.next();
    let packet = words.next().context("plain or shared is missing")?;
    let what = words.next().context("WHAT is missing")?;
    let times = words.next().context("TIMES is missing")?;
    let times = times.as_str().parse::<u32>().context("TIMES")?;
    let bytes = match packet.as_str() {
        "plain" => run::<PlainPkt>(rt.alloc(), what.as_str(), times)?,
        "shared" => run::<SharedPkt>(rt.alloc(), what.as_str(), times)?,
        _ => bail!("neither plain nor shared"),
    };
    println!(rt; "bytes {bytes}")?;
    Ok(())
}

fn run<P: Pkt>(alloc: Global, what: &str, times: u32) -> Result<u32> {
    let mut load: Load<P> = Load::new(alloc);
    let bytes = match what {
        "make" => load.make(times),
        "push" => load.push(times),
        "bytes" => load.bytes(times),
        "copy" => load.copy(times),
        "hop" => load.hop(times),
        "saved" => load.saved(times),
        _ => bail!("no such load"),
    };
    Ok(bytes.map_err(|_| AllocError)?)
}
