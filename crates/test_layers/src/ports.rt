//! UDP and ICMP on a node with applications 0 and 1 at ports 9 and 49153, and `ping` 3.

ghost use Rattle.std.specs.Prelude.{IfOk};
ghost use Rattle.udp_icmp.specs.Seen.{plain_in};
ghost use Rattle.udp_icmp.specs.Step.{CanTake};

use crate::packets;
use anyhow::{Context, Result, bail, ensure};
use header_forms::Ipv4;
use pkt_face::{Pkt, PlainPkt};
use sim_base::Numbers;
use std::alloc::{AllocError, Global};
use std::collections::BTreeMap;
use udp_icmp::{Act, In, Ports};

pub fn ports(alloc: Global) -> Result<Ports, AllocError> {
    let mut udp = BTreeMap::new(alloc);
    udp.insert(9, 0)?;
    udp.insert(49_153, 1)?;
    let mut pings = BTreeMap::new(alloc);
    pings.insert(3, 3)?;
    Ok(Ports::make(udp, pings))
}

/// `udp SRC SPORT DST PORT PACKET` with the source `-` where no route gives one, `ping DST REST PACKET`, `got HEAD
/// PACKET`, or `report KIND CODE HEAD PACKET`, where HEAD is an IPv4 header.
pub fn answer(
    alloc: Global,
    ports: &Ports,
    numbers: &mut Numbers,
    words: &[&str],
) -> Result<String> {
    let mut maker = PlainPkt::maker(alloc);
    let mut acts = Vec::new(alloc);
    let input = input::<PlainPkt>(alloc, words)?;
    ports
        .step(input, &mut maker, numbers, &mut acts)
        .ok()
        .context("no memory")?;
    let packets = numbers.packets;
    let mut text = format!(in alloc; "next packet {packets}")?;
    for act in &acts {
        text.push_str("; ")?;
        text.push_str(act_text(alloc, act)?.as_str())?;
    }
    Ok(text)
}

fn input<P: Pkt>(alloc: Global, words: &[&str]) -> Result<In<P>>
    ensures { IfOk result (λ input. CanTake (plain_in P.plain input)) }
{
    match *words {
        ["udp", src, sport, dst, port, packet] => {
            let src = packets::optional_address(src)?;
            let sport = sport.parse::<u16>()?;
            let dst = packets::address(dst)?;
            let port = port.parse::<u16>()?;
            let packet: P = packets::read(alloc, packet)?;
            ensure!(packet.len() <= 65_507, "too long for a datagram");
            Ok(In::UdpSend {
                src,
                sport,
                dst,
                port,
                packet,
            })
        }
        ["ping", dst, rest, packet] => {
            let dst = packets::address(dst)?;
            let rest = packets::address(rest)?;
            let packet: P = packets::read(alloc, packet)?;
            ensure!(packet.len() <= 65_507, "too long for a datagram");
            Ok(In::PingSend { dst, rest, packet })
        }
        ["got", head, packet] => got(head_of(alloc, head)?, packets::read(alloc, packet)?),
        ["report", kind, code, head, packet] => Ok(In::Report {
            kind: kind.parse()?,
            code: code.parse()?,
            head: head_of(alloc, head)?,
            packet: packets::read(alloc, packet)?,
        }),
        _ => bail!("no input of UDP and ICMP"),
    }
}

/// A packet without its header comes to its protocol.
fn got<P: Pkt>(head: Ipv4, packet: P) -> Result<In<P>>
    ensures { IfOk result (λ input. CanTake (plain_in P.plain input)) }
{
    ensure!(packet.len() <= 65_515, "too long for a datagram");
    match head.proto {
        1 => Ok(In::IcmpArrive { head, packet }),
        17 => Ok(In::UdpArrive { head, packet }),
        _ => bail!("another protocol"),
    }
}

fn head_of(alloc: Global, word: &str) -> Result<Ipv4> {
    let bytes = hex::decode(alloc, word.as_bytes())?;
    Ipv4::read(&bytes).ok().context("no header")
}

fn act_text<P: Pkt>(alloc: Global, act: &Act<P>) -> Result<String> {
    match act {
        Act::ToIp {
            src,
            dst,
            proto,
            packet,
        } => {
            let src = packets::optional_written(alloc, *src)?;
            let packet = packets::written(alloc, packet)?;
            Ok(format!(in alloc; "to ip {src} {dst:08x} {proto} {packet}")?)
        }
        Act::ToApp {
            app,
            src,
            sport,
            packet,
        } => {
            let packet = packets::written(alloc, packet)?;
            Ok(format!(in alloc; "to app {app} {src:08x} {sport} {packet}")?)
        }
        Act::Report {
            kind,
            code,
            head,
            packet,
        } => {
            let src = head.src;
            let packet = packets::written(alloc, packet)?;
            Ok(format!(in alloc; "report {kind} {code} {src:08x} {packet}")?)
        }
        Act::Dropped => Ok(format!(in alloc; "dropped")?),
    }
}
