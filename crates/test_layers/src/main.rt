//! What the protocol layers answer, over packets that copy everything. Standard input gives an input of a layer on
//! each line, or a title behind `# `; the program writes the line, and behind it what the layer asks for, in order. Addresses and
//! `rest`s are eight hexadecimal digits, and a packet is `HEX+N`: bytes, and N zeros behind them.
#![tactic(auto)]

mod apps;
mod datagrams;
mod fragments;
mod packets;
mod ports;

use anyhow::{Result, bail};
use frag_core::Frags;
use layer_words::{checksum_behind, checksum_behind_header, pseudo_header};
use pkt_face::{Pkt, PlainPkt};
use std::alloc::Global;

/// The checksum of UDP over a packet with its pseudo-header: once in two parts, once in three.
fn checksums(alloc: Global, src: &str, dst: &str, packet: &str) -> Result<String> {
    let packet: PlainPkt = packets::read(alloc, packet)?;
    let pseudo = pseudo_header(
        packets::address(src)?,
        packets::address(dst)?,
        17,
        (packet.len() % 65_536) as u16,
    );
    let two = checksum_behind(&pseudo, &packet);
    let three = checksum_behind_header(&pseudo[..4], &pseudo[4..], &packet);
    Ok(format!(in alloc; "{two:04x} {three:04x}")?)
}

fn main(rt: HostRuntime) -> Result<()> {
    let alloc = rt.alloc();
    let router = datagrams::router(alloc)?;
    let mut numbers = packets::numbers();
    let mut frags = Frags::make(alloc);
    let ports = ports::ports(alloc)?;
    let mut apps = apps::apps(alloc)?;
    for line in rt.lines(alloc) {
        let line = line?;
        if line.as_str().starts_with("# ") {
            println!(rt; "{line}")?;
            continue;
        }
        let words: Vec<&str> = line.split(' ').collect(alloc)?;
        let answer = match *words.as_slice() {
            ["ip", ref input @ ..] => datagrams::answer(alloc, &router, &mut numbers, input)?,
            ["frag", ref input @ ..] => {
                fragments::answer(alloc, &mut frags, &mut numbers, input)?
            }
            ["ports", ref input @ ..] => ports::answer(alloc, &ports, &mut numbers, input)?,
            ["app", ref input @ ..] => apps::answer(alloc, &mut apps, &mut numbers, input)?,
            ["checksum", src, dst, packet] => checksums(alloc, src, dst, packet)?,
            _ => bail!("no layer has this input"),
        };
        println!(rt; "{line}: {answer}")?;
    }
    Ok(())
}
