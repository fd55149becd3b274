//! Fragments that come to a node, and packets that are split.

ghost use Rattle.std.specs.Prelude.{IfOk};
ghost use Rattle.frag_core.specs.Seen.{plain_in};
ghost use Rattle.frag_core.specs.Step.{CanTake};

use crate::packets;
use anyhow::{Context, Result, bail, ensure};
use frag_core::{Act, Frags, In, split};
use header_forms::Ipv4;
use ipv4_core::read_head;
use pkt_face::{Pkt, PlainPkt};
use sim_base::{Kind, Numbers, Time};
use std::alloc::{AllocError, Global};

/// `piece NOW PACKET` or `timer STAMP` to reassembly, or `split MTU PACKET`. Packets begin with a header.
pub fn answer(
    alloc: Global,
    frags: &mut Frags<PlainPkt>,
    numbers: &mut Numbers,
    words: &[&str],
) -> Result<String> {
    match *words {
        ["split", mtu, packet] => split_answer(alloc, mtu, packet),
        _ => step_answer(alloc, frags, numbers, words),
    }
}

fn split_answer(alloc: Global, mtu: &str, packet: &str) -> Result<String> {
    let mtu = u32::from(mtu.parse::<u16>()?);
    ensure!(mtu >= 28, "no room for data");
    let (head, mut packet) = headed::<PlainPkt>(alloc, packet)?;
    ensure!(packet.len() <= 65_515, "too long for a datagram");
    let mut maker = PlainPkt::maker(alloc);
    let fragments = split(alloc, &mut maker, &head, &mut packet, mtu)
        .ok()
        .context("no memory")?;
    let mut text = format!(in alloc; "fragments")?;
    for fragment in &fragments {
        text.push_str("; ")?;
        text.push_str(packets::written(alloc, fragment)?.as_str())?;
    }
    Ok(text)
}

fn step_answer(
    alloc: Global,
    frags: &mut Frags<PlainPkt>,
    numbers: &mut Numbers,
    words: &[&str],
) -> Result<String> {
    let mut maker = PlainPkt::maker(alloc);
    let mut acts = Vec::new(alloc);
    let input = input::<PlainPkt>(alloc, words)?;
    frags
        .step(input, &mut maker, numbers, &mut acts)
        .ok()
        .context("no memory")?;
    let stamps = numbers.stamps;
    let mut text = format!(in alloc; "next stamp {stamps}")?;
    for act in &acts {
        text.push_str("; ")?;
        text.push_str(act_text(alloc, act)?.as_str())?;
    }
    Ok(text)
}

fn input<P: Pkt>(alloc: Global, words: &[&str]) -> Result<In<P>>
    ensures { IfOk result (λ input. CanTake (plain_in P.plain input)) }
{
    match *words {
        ["piece", now, packet] => {
            let now = now.parse::<u64>()?;
            ensure!(now <= 1_000_000_000_000, "no time of a run");
            let (head, packet) = headed(alloc, packet)?;
            Ok(In::Piece {
                now: Time(now),
                head,
                packet,
            })
        }
        ["timer", stamp] => Ok(In::Timer {
            stamp: stamp.parse::<u64>()?,
        }),
        _ => bail!("no input of reassembly"),
    }
}

/// The header that a packet begins with, and what is behind it.
fn headed<P: Pkt>(alloc: Global, packet: &str) -> Result<(Ipv4, P)> {
    let mut packet: P = packets::read(alloc, packet)?;
    let head = read_head(&packet).context("a packet begins with a header")?;
    ensure!(packet.len() >= 20, "a header is that long");
    packet.pop_front(20, Kind::Ipv4);
    Ok((head, packet))
}

fn act_text<P: Pkt>(alloc: Global, act: &Act<P>) -> Result<String, AllocError> {
    match act {
        Act::Whole { head, packet } => {
            let mut bytes = [0; 20];
            head.write(&mut bytes);
            let head = hex::encode(alloc, &bytes)?;
            let packet = packets::written(alloc, packet)?;
            format!(in alloc; "whole {head} {packet}")
        }
        Act::TimerAt { at, stamp } => {
            let at = at.0;
            format!(in alloc; "timer {stamp} at {at}")
        }
        Act::Dropped => format!(in alloc; "dropped"),
    }
}
