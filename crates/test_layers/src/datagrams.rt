//! A router between two links, with the own addresses 10.1.1.2 and 10.1.2.1.

ghost use Rattle.std.specs.Prelude.{IfOk};
ghost use Rattle.ipv4_core.specs.Ip.{CanTake};
ghost use Rattle.ipv4_core.specs.Seen.{plain_in};

use crate::packets;
use anyhow::{Context, Result, bail, ensure};
use ipv4_core::{Act, In, Ip, Routes, Table, Way};
use pkt_face::{Pkt, PlainPkt};
use sim_base::Numbers;
use std::alloc::{AllocError, Global};
use std::collections::{BTreeMap, BTreeSet};

/// By its first interface 10.1.1.0/24 is connected, and by its second one 10.1.2.0/24. Behind the neighbour 10.1.2.2
/// lies 10.1.3.0/24, and behind 10.1.1.1 the rest of 10.0.0.0/8.
pub fn router(alloc: Global) -> Result<Ip, AllocError> {
    let near = Way {
        iface: 0,
        addr: 0x0a01_0102,
        mtu: 1500,
        via: None,
    };
    let far = Way {
        iface: 1,
        addr: 0x0a01_0201,
        mtu: 576,
        via: None,
    };
    let mut connected = BTreeMap::new(alloc);
    connected.insert(0x0a01_0100, near)?;
    connected.insert(0x0a01_0200, far)?;
    let behind = Way {
        via: Some(0x0a01_0202),
        ..far
    };
    connected.insert(0x0a01_0300, behind)?;
    let mut rest = BTreeMap::new(alloc);
    let back = Way {
        via: Some(0x0a01_0101),
        ..near
    };
    rest.insert(0x0a00_0000, back)?;
    let mut own = BTreeSet::new(alloc);
    own.insert(0x0a01_0102)?;
    own.insert(0x0a01_0201)?;
    let tables = vec![in alloc; Table::make(24, connected), Table::make(8, rest)]?;
    Ok(Ip::make(Routes::make(tables), own))
}

/// `route DST`, `source DST`, `send SRC DST PROTO PACKET` with the source `-` where none is given, or `arrive
/// PACKET`.
pub fn answer(alloc: Global, ip: &Ip, numbers: &mut Numbers, words: &[&str]) -> Result<String> {
    match *words {
        ["route", dst] => {
            match ip.route(packets::address(dst)?) {
                Some(hop) => {
                    let (iface, addr) = (hop.iface, hop.addr);
                    Ok(format!(in alloc; "{iface} {addr:08x}")?)
                }
                None => Ok(format!(in alloc; "none")?),
            }
        }
        ["source", dst] => {
            match ip.source(packets::address(dst)?) {
                Some(source) => Ok(format!(in alloc; "{source:08x}")?),
                None => Ok(format!(in alloc; "none")?),
            }
        }
        _ => step_answer(alloc, ip, numbers, words),
    }
}

fn step_answer(alloc: Global, ip: &Ip, numbers: &mut Numbers, words: &[&str]) -> Result<String> {
    let mut maker = PlainPkt::maker(alloc);
    let mut acts = Vec::new(alloc);
    let input = input::<PlainPkt>(alloc, words)?;
    ip.step(input, &mut maker, numbers, &mut acts)
        .ok()
        .context("no memory")?;
    let ids = numbers.ids;
    let mut text = format!(in alloc; "next id {ids}")?;
    for act in &acts {
        text.push_str("; ")?;
        text.push_str(act_text(alloc, act)?.as_str())?;
    }
    Ok(text)
}

fn input<P: Pkt>(alloc: Global, words: &[&str]) -> Result<In<P>>
    ensures { IfOk result (λ input. CanTake (plain_in P.plain input)) }
{
    match *words {
        ["send", src, dst, proto, packet] => {
            let src = packets::optional_address(src)?;
            let dst = packets::address(dst)?;
            let proto = proto.parse::<u8>()?;
            let packet: P = packets::read(alloc, packet)?;
            ensure!(packet.len() <= 65_515, "too long for a datagram");
            Ok(In::Send {
                src,
                dst,
                proto,
                packet,
            })
        }
        ["arrive", packet] => Ok(In::Arrive {
            packet: packets::read(alloc, packet)?,
        }),
        _ => bail!("no input of IPv4"),
    }
}

fn act_text<P: Pkt>(alloc: Global, act: &Act<P>) -> Result<String, AllocError> {
    match act {
        Act::Out {
            iface,
            hop,
            packet,
            ..
        } => {
            let packet = packets::written(alloc, packet)?;
            format!(in alloc; "out {iface} {hop:08x} {packet}")
        }
        Act::Local { head, packet } => {
            let (proto, src) = (head.proto, head.src);
            let packet = packets::written(alloc, packet)?;
            format!(in alloc; "local {proto} {src:08x} {packet}")
        }
        Act::Report {
            kind,
            code,
            head,
            packet,
        } => {
            let src = head.src;
            let packet = packets::written(alloc, packet)?;
            format!(in alloc; "report {kind} {code} {src:08x} {packet}")
        }
        Act::Dropped => format!(in alloc; "dropped"),
    }
}
