//! Plays what happens to the connections of a node: each line of standard input is an input, and what the connections ask
//! for then is written behind it. Times are in milliseconds, addresses are plain numbers. The lines:
//!
//!     node                                                begins anew, with no connection
//!     connect NOW APP SRC SPORT DST PORT MSS              SRC is - where no route leads to DST
//!     listen APP PORT
//!     segment NOW SRC SPORT DST DPORT FLAGS SEQ ACK MSS BYTES
//!                                                         with the flags S, A, F and R or - for none; MSS 0 is none
//!     garbage NOW SRC DST                                 a packet that is no segment
//!     timer NOW CONN STAMP
//!     write NOW APP BYTES
//!     close NOW APP
#![tactic(auto)]

mod command;
mod play;
mod text;

use anyhow::{Result, bail};
use play::Node;
use std::alloc::Global;

fn main(rt: HostRuntime) -> Result<()> {
    let alloc = rt.alloc();
    let mut node = Node::make(alloc);
    for line in rt.lines(alloc) {
        let line = line?;
        println!(rt; "{line}")?;
        let text = answer(alloc, &mut node, line.as_str())?;
        print!(rt; "{text}")?;
    }
    Ok(())
}

/// What the connections of a node ask for at a line.
fn answer(alloc: Global, node: &mut Node, line: &str) -> Result<String> {
    let Some(command) = command::read(line)? else {
        return Ok(String::new(alloc));
    };
    let mut acts = Vec::new(alloc);
    let Ok(()) = node.play(alloc, command, &mut acts) else {
        bail!("no memory");
    };
    Ok(text::of_all(alloc, acts)?)
}
