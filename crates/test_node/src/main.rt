//! Runs small networks, one event at a time, and writes what fires, the frames that are saved, and what is counted.
#![tactic(auto)]

mod arrivals;
mod echo;
mod lan;
mod report;
mod run;
mod wiring;

use anyhow::{Context, Result};
use std::mem;

fn main(rt: HostRuntime) -> Result<()> {
    let alloc = rt.alloc();
    let echo = echo::over_one_link(alloc).ok().context("no memory")?;
    print!(rt; "{echo}")?;
    let report = report::of_no_route(alloc).ok().context("no memory")?;
    print!(rt; "{report}")?;
    let shared = lan::shared(alloc).ok().context("no memory")?;
    print!(rt; "{shared}")?;
    let nobody = lan::of_nobody(alloc).ok().context("no memory")?;
    print!(rt; "{nobody}")?;
    let mut frames = Vec::new(alloc);
    for line in rt.lines(alloc) {
        let line = line?;
        if line.starts_with("# ") {
            println!(rt; "{line}")?;
            continue;
        }
        if !line.is_empty() {
            let count = frames.len() as u64;
            frames.push(arrivals::arrival(alloc, line.as_str(), count)?)?;
            continue;
        }
        let row = mem::replace(&mut frames, Vec::new(alloc));
        let come = arrivals::come(alloc, row).ok().context("no memory")?;
        print!(rt; "{come}")?;
    }
    Ok(())
}
