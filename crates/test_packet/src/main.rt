//! What packets are after calls that standard input names, one on a line: each call is made on a packet
//! that copies everything and on one whose copies share a block. The answer and the packet after it are
//! written, and behind `shared:` those of the other packet, where they differ.
#![tactic(auto)]

mod calls;
mod command;
mod desk;
mod text;

use crate::command::Command;
use crate::desk::Desk;
use anyhow::Result;
use pkt_face::PlainPkt;
use shared_packet::SharedPkt;
use std::alloc::AllocError;

fn main(rt: HostRuntime) -> Result<()> {
    let alloc = rt.alloc();
    let mut plain: Desk<PlainPkt> = Desk::new(alloc);
    let mut shared: Desk<SharedPkt> = Desk::new(alloc);
    for line in rt.lines(alloc) {
        let line = line?;
        let command = Command::read(alloc, line.as_str())?;
        let answer = plain.run(&command).map_err(|_| AllocError)?;
        let other = shared.run(&command).map_err(|_| AllocError)?;
        println!(rt; "{line}: {answer}")?;
        if answer.as_str() != other.as_str() {
            println!(rt; "shared: {other}")?;
        }
    }
    Ok(())
}
