//! Times a transfer between the connections of two nodes, with packets and checksums: `bench_flow BYTES EVERY` carries BYTES bytes
//! while every packet of the opener whose number is a multiple of EVERY is lost, and writes how many bytes and packets
//! went, and whether what was delivered is what was written.
#![tactic(auto)]

mod digest;
mod host;
mod transfer;
mod way;

use anyhow::{Context, Result};
use std::env;

fn main(rt: HostRuntime) -> Result<()> {
    let mut words = env::args(&rt)?;
    let _program = words.next();
    let bytes = words.next().context("BYTES is missing")?;
    let bytes = bytes.as_str().parse::<u32>().context("BYTES")?;
    let every = words.next().context("EVERY is missing")?;
    let every = every.as_str().parse::<u32>().context("EVERY")?;
    let report = transfer::run(rt.alloc(), u64::from(bytes), u64::from(every))
        .ok()
        .context("no memory")?;
    let (delivered, packets, lost) = (report.delivered, report.packets, report.lost);
    println!(rt; "bytes {delivered} packets {packets} lost {lost}")?;
    let answer = if report.is_whole {
        "whole"
    } else {
        "not whole"
    };
    println!(rt; "{answer}")?;
    Ok(())
}
