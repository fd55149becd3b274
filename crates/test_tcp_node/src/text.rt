//! What connections ask for, as text.

use pkt_face::{Pkt, PlainPkt};
use sim_base::{NoMemory, Time};
use std::alloc::{AllocError, Global};
use tcp_conn::Heard;
use tcp_flow::{Act, Seg};
use tcp_wire::{Arrived, read_segment};

/// The longest packet that IPv4 hands on.
const LONGEST: u32 = 65515;

/// All that is asked for, a line each.
pub fn of_all(alloc: Global, acts: Vec<Act<PlainPkt>>) -> Result<String, AllocError> {
    let mut text = String::new(alloc);
    for act in acts {
        let line = of(alloc, act)?;
        text.push_str("    ")?;
        text.push_str(line.as_str())?;
        text.push_str("\n")?;
    }
    Ok(text)
}

fn of(alloc: Global, act: Act<PlainPkt>) -> Result<String, AllocError> {
    match act {
        Act::Emit { segment } => segment_text(alloc, &segment),
        Act::TimerAt { at, conn, stamp } => {
            let at = milliseconds(at);
            format!(in alloc; "timer at {at} conn {conn} stamp {stamp}")
        }
        Act::Connected { app } => format!(in alloc; "connected app {app}"),
        Act::Room { app, free } => format!(in alloc; "room app {app} free {free}"),
        Act::Deliver {
            app,
            src,
            sport,
            packet,
        } => {
            let count = packet.uid().count;
            let size = packet.len();
            format!(in alloc; "deliver app {app} from {src} {sport} packet {count} bytes {size}")
        }
        Act::End { app } => format!(in alloc; "end app {app}"),
        Act::Reset { app } => format!(in alloc; "reset app {app}"),
        Act::Dropped => format!(in alloc; "dropped"),
    }
}

fn milliseconds(time: Time) -> u64 {
    time.0 / 1_000_000
}

/// Who sends to whom, the packet's number, and what the segment says.
fn segment_text(alloc: Global, segment: &Seg<PlainPkt>) -> Result<String, AllocError> {
    let (src, dst, count) = (segment.src, segment.dst, segment.packet.uid().count);
    match read(alloc, segment) {
        Ok(Some(arrived)) => {
            let (sport, dport) = (arrived.sport, arrived.dport);
            let says = says_text(alloc, &arrived)?;
            format!(in alloc; "emit {src} {sport} to {dst} {dport} packet {count} {says}")
        }
        _ => format!(in alloc; "emit {src} to {dst} packet {count}, which is no segment"),
    }
}

fn read(alloc: Global, segment: &Seg<PlainPkt>) -> Result<Option<Arrived>, NoMemory> {
    if segment.packet.len() > LONGEST {
        return Ok(None);
    }
    read_segment(alloc, segment.src, segment.dst, &segment.packet)
}

/// A segment's flags, numbers, greatest segment size and bytes.
fn says_text(alloc: Global, arrived: &Arrived) -> Result<String, AllocError> {
    let flags = flags(&arrived.says);
    let (seq, ack) = (arrived.says.seq, arrived.says.ack);
    let mss = arrived.says.mss.unwrap_or(0);
    let bytes = arrived.bytes.len();
    format!(in alloc; "{flags} seq {seq} ack {ack} mss {mss} bytes {bytes}")
}

fn flags(says: &Heard) -> &'static str {
    match (says.syn, says.fin, says.rst, says.has_ack) {
        (true, _, _, true) => "SA",
        (true, _, _, false) => "S",
        (false, true, _, _) => "FA",
        (false, false, true, true) => "RA",
        (false, false, true, false) => "R",
        (false, false, false, _) => "A",
    }
}
