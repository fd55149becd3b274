//! Times the Internet checksum over 1,500 bytes: `bench_sum words TIMES` sums them TIMES times as the
//! headers do, by words of eight bytes, and writes the checksum of all of them. `bench_sum bytes TIMES`
//! does the same a byte at a time. `bench_sum packet TIMES` computes TIMES times what a node that gets a datagram of
//! 1,000 zeros over UDP computes: the checksum of the pseudo-header and the packet.
#![tactic(auto)]

use anyhow::{Context, Result, bail};
use header_forms::{Sum, Udp};
use layer_words::{checksum_behind, pseudo_header};
use pkt_face::{Pkt, PlainPkt};
use sim_base::{Kind, NoMemory, NodeId, Uid};
use std::alloc::Global;
use std::env;

/// The bytes of a full Ethernet payload.
const SIZE: usize = 1500;

fn main(rt: HostRuntime) -> Result<()> {
    let mut words = env::args(&rt)?;
    let _program = words.next();
    let what = words.next().context("words, bytes or packet is missing")?;
    let times = words.next().context("TIMES is missing")?;
    let times = times.as_str().parse::<u32>().context("TIMES")?;
    let bytes = payload();
    let checksum = match what.as_str() {
        "words" => by_words(&bytes, times),
        "bytes" => by_bytes(&bytes, times),
        "packet" => over_packet(rt.alloc(), times).ok().context("no memory")?,
        _ => bail!("neither words, bytes nor packet"),
    };
    println!(rt; "checksum {checksum:04x}")?;
    Ok(())
}

/// Bytes of many values.
fn payload() -> [u8; SIZE] {
    let mut bytes = [0; SIZE];
    for (i, byte) in bytes.iter_mut().enumerate() {
        *byte = (i % 251) as u8;
    }
    bytes
}

fn by_words(bytes: &[u8], times: u32) -> u16 {
    let mut sum = Sum::start();
    for _ in 0..times {
        sum.add(bytes);
    }
    sum.finish()
}

fn by_bytes(bytes: &[u8], times: u32) -> u16 {
    let mut sum = 0;
    for _ in 0..times {
        sum = with_each(sum, bytes);
    }
    u16::MAX - sum
}

fn with_each(start: u16, bytes: &[u8]) -> u16 {
    let mut sum = start;
    let mut odd = false;
    for byte in bytes {
        sum = if odd {
            add_around(sum, u16::from(*byte))
        } else {
            add_around(sum, u16::from(*byte) * 256)
        };
        odd = !odd;
    }
    sum
}

/// Adds in one's complement: the carry comes in at the end.
fn add_around(a: u16, b: u16) -> u16 {
    let total = u32::from(a) + u32::from(b);
    (total % 65_536 + total / 65_536) as u16
}

/// The sum of all the checksums, each with another length in its pseudo-header.
fn over_packet(alloc: Global, times: u32) -> Result<u16, NoMemory> {
    let mut maker = PlainPkt::maker(alloc);
    let uid = Uid {
        node: NodeId(0),
        count: 0,
    };
    let mut packet = PlainPkt::zeros(alloc, &mut maker, uid, 1000)?;
    let udp = Udp {
        sport: 49_153,
        dport: 9,
        length: 1008,
        checksum: 0,
    };
    let mut header = [0; Udp::SIZE];
    udp.write(&mut header);
    if packet.len() == 1000 {
        packet.push_front(&mut maker, Kind::Udp, &header)?;
    }
    let mut all = 0u16;
    for time in 0..times {
        let pseudo = pseudo_header(0x0a01_0101, 0x0a01_0102, 17, (time % 65_536) as u16);
        all = add_around(all, checksum_behind(&pseudo, &packet));
    }
    Ok(all)
}
