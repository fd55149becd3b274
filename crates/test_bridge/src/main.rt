//! Plays bridges: each line of standard input is a call, and what follows is written behind it. The lines:
//!
//!     new PORTS                   a bridge with so many ports
//!     NOW PORT SOURCE TO          a frame comes in at a port, from a station to another; `all` is everyone
//!     NOW where STATION           where a station is looked for
//!
//! Times are in nanoseconds, and stations are numbered from 0. A line behind `# ` is a title.
#![tactic(auto)]

mod play;

use anyhow::{Result, bail};
use play::Play;
use std::alloc::Global;

/// The answer to a line.
fn answer(alloc: Global, play: &mut Play, words: &[&str]) -> Result<String> {
    match *words {
        ["new", ports] => {
            *play = Play::begin(alloc, ports.parse()?);
            Ok(String::new(alloc))
        }
        [now, "where", station] => play.find(alloc, now.parse()?, station.parse()?),
        [now, port, source, "all"] => {
            play.hear(alloc, now.parse()?, port.parse()?, source.parse()?, None)
        }
        [now, port, source, to] => play.hear(
            alloc,
            now.parse()?,
            port.parse()?,
            source.parse()?,
            Some(to.parse()?),
        ),
        _ => bail!("no such call"),
    }
}

fn main(rt: HostRuntime) -> Result<()> {
    let alloc = rt.alloc();
    let mut play = Play::begin(alloc, 0);
    for line in rt.lines(alloc) {
        let line = line?;
        if line.as_str().starts_with("# ") {
            println!(rt; "{line}")?;
            continue;
        }
        let words: Vec<&str> = line.split(' ').collect(alloc)?;
        let answer = answer(alloc, &mut play, words.as_slice())?;
        println!(rt; "{line}:{answer}")?;
    }
    Ok(())
}
