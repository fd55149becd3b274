//! Plays discs of CoDel: each line of standard input is a call, and its answer is written behind it. The lines:
//!
//!     root N                      the square root, rounded down
//!     new codel LIMIT             a disc with one queue
//!     new fq-codel LIMIT          a disc with a queue for each class
//!     offer NOW BYTES FLOW        a frame is offered; those of a disc are numbered from 1
//!     next NOW                    the next frame is asked for
//!
//! Times are in nanoseconds. A line behind `# ` is a title.
#![tactic(auto)]

mod play;

use anyhow::{Result, bail};
use codel_disc::{CodelKind, root};
use play::Play;
use std::alloc::Global;

/// The answer to a line.
fn answer(alloc: Global, play: &mut Play, words: &[&str]) -> Result<String> {
    match *words {
        ["root", n] => {
            let root = root(n.parse()?);
            Ok(format!(in alloc; " {root}")?)
        }
        ["new", "codel", limit] => {
            let limit = limit.parse()?;
            *play = Play::begin(alloc, CodelKind::Codel { limit })?;
            Ok(String::new(alloc))
        }
        ["new", "fq-codel", limit] => {
            let limit = limit.parse()?;
            *play = Play::begin(alloc, CodelKind::FqCodel { limit })?;
            Ok(String::new(alloc))
        }
        ["offer", now, bytes, flow] => {
            play.offer(alloc, now.parse()?, bytes.parse()?, flow.parse()?)
        }
        ["next", now] => play.next(alloc, now.parse()?),
        _ => bail!("no such call"),
    }
}

fn main(rt: HostRuntime) -> Result<()> {
    let alloc = rt.alloc();
    let mut play = Play::begin(alloc, CodelKind::Codel { limit: 0 })?;
    for line in rt.lines(alloc) {
        let line = line?;
        if line.as_str().starts_with("# ") {
            println!(rt; "{line}")?;
            continue;
        }
        let words: Vec<&str> = line.split(' ').collect(alloc)?;
        let answer = answer(alloc, &mut play, words.as_slice())?;
        println!(rt; "{line}:{answer}")?;
    }
    Ok(())
}
