//! Reads Ethernet frames from standard input, one as hexadecimal digits on each line, and writes their headers: what
//! another tool says of the same frames can be laid beside it.
#![tactic(auto)]

use anyhow::Result;
use header_forms::{Arp, Bad, Ethernet, Icmp, Ipv4, Sum, Tcp, Udp};
use std::alloc::{AllocError, Global};

fn address(alloc: Global, address: u32) -> Result<String, AllocError> {
    let [a, b, c, d] = address.to_be_bytes();
    format!(in alloc; "{a}.{b}.{c}.{d}")
}

fn hardware_address(alloc: Global, mac: [u8; 6]) -> Result<String, AllocError> {
    let [a, b, c, d, e, f] = mac;
    format!(in alloc; "{a:02x}:{b:02x}:{c:02x}:{d:02x}:{e:02x}:{f:02x}")
}

/// Whether what a checksum covers sums to all ones: a pseudo-header, if there is one, and bytes.
fn checksum(sum: Sum, bytes: &[u8]) -> &'static str {
    let mut sum = sum;
    sum.add(bytes);
    if sum.finish() == 0 { "right" } else { "wrong" }
}

/// The sum of the pseudo-header of UDP and TCP.
fn pseudo_header(head: &Ipv4, length: usize) -> Sum {
    let mut sum = Sum::start();
    sum.add(&head.src.to_be_bytes());
    sum.add(&head.dst.to_be_bytes());
    sum.add(&[0, head.proto]);
    sum.add(&((length % 65_536) as u16).to_be_bytes());
    sum
}

fn arp_text(alloc: Global, bytes: &[u8]) -> Result<String, AllocError> {
    match Arp::read(bytes) {
        Ok(arp) => {
            let op = arp.op;
            let sender_mac = hardware_address(alloc, arp.sender_mac)?;
            let sender = address(alloc, arp.sender)?;
            let target_mac = hardware_address(alloc, arp.target_mac)?;
            let target = address(alloc, arp.target)?;
            format!(in alloc; "arp {op} {sender_mac} {sender} {target_mac} {target}")
        }
        Err(bad) => bad_text(alloc, "arp", bad),
    }
}

fn icmp_text(alloc: Global, bytes: &[u8]) -> Result<String, AllocError> {
    match Icmp::read(bytes) {
        Ok(icmp) => {
            let (kind, code, rest) = (icmp.kind, icmp.code, icmp.rest);
            let checksum = checksum(Sum::start(), bytes);
            format!(in alloc; "icmp {kind} {code} {rest:08x} {checksum}")
        }
        Err(bad) => bad_text(alloc, "icmp", bad),
    }
}

fn udp_text(alloc: Global, head: &Ipv4, bytes: &[u8]) -> Result<String, AllocError> {
    match Udp::read(bytes) {
        Ok(udp) => {
            let (sport, dport, length) = (udp.sport, udp.dport, udp.length);
            let checksum = checksum(pseudo_header(head, bytes.len()), bytes);
            format!(in alloc; "udp {sport} {dport} {length} {checksum}")
        }
        Err(bad) => bad_text(alloc, "udp", bad),
    }
}

/// The maximum segment size that a SYN names.
fn segment_size(alloc: Global, mss: Option<u16>) -> Result<String, AllocError> {
    match mss {
        Some(mss) => format!(in alloc; "{mss}"),
        None => format!(in alloc; "none"),
    }
}

fn tcp_text(alloc: Global, head: &Ipv4, bytes: &[u8]) -> Result<String, AllocError> {
    match Tcp::read(bytes) {
        Ok(tcp) => {
            let (sport, dport, seq, ack) = (tcp.sport, tcp.dport, tcp.seq, tcp.ack);
            let (flags, window, size) = (tcp.flags, tcp.window, tcp.size);
            let mss = segment_size(alloc, tcp.mss)?;
            let checksum = checksum(pseudo_header(head, bytes.len()), bytes);
            format!(in alloc;
                "tcp {sport} {dport} {seq} {ack} {flags:02x} {window} {mss} {size} {checksum}"
            )
        }
        Err(bad) => bad_text(alloc, "tcp", bad),
    }
}

/// What an IPv4 packet carries.
fn carried_text(alloc: Global, head: &Ipv4, bytes: &[u8]) -> Result<String, AllocError> {
    match head.proto {
        1 => icmp_text(alloc, bytes),
        6 => tcp_text(alloc, head, bytes),
        17 => udp_text(alloc, head, bytes),
        _ => format!(in alloc; "other"),
    }
}

fn ipv4_text(alloc: Global, bytes: &[u8]) -> Result<String, AllocError> {
    match Ipv4::read(bytes) {
        Ok(head) => {
            let total = usize::from(head.total).min(bytes.len()).max(Ipv4::SIZE);
            let carried = carried_text(alloc, &head, &bytes[Ipv4::SIZE..total])?;
            let src = address(alloc, head.src)?;
            let dst = address(alloc, head.dst)?;
            let (total, id, ttl, proto) = (head.total, head.id, head.ttl, head.proto);
            let (flags, offset) = (head.flags, head.offset);
            format!(in alloc;
                "ipv4 {src} {dst} {total} {id} {flags} {offset} {ttl} {proto}; {carried}"
            )
        }
        Err(bad) => bad_text(alloc, "ipv4", bad),
    }
}

fn bad_text(alloc: Global, header: &str, bad: Bad) -> Result<String, AllocError> {
    format!(in alloc; "{header} {bad:?}")
}

fn frame_text(alloc: Global, bytes: &[u8]) -> Result<String, AllocError> {
    match Ethernet::read(bytes) {
        Ok(ethernet) => {
            let behind = &bytes[Ethernet::SIZE..];
            match ethernet.proto {
                0x0800 => ipv4_text(alloc, behind),
                0x0806 => arp_text(alloc, behind),
                proto => format!(in alloc; "protocol {proto:04x}"),
            }
        }
        Err(bad) => bad_text(alloc, "ethernet", bad),
    }
}

fn main(rt: HostRuntime) -> Result<()> {
    let alloc = rt.alloc();
    for line in rt.lines(alloc) {
        let line = line?;
        let bytes = hex::decode(alloc, line.as_bytes())?;
        let text = frame_text(alloc, bytes.as_slice())?;
        println!(rt; "{text}")?;
    }
    Ok(())
}
