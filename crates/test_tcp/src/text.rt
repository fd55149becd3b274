//! What a connection asks for, as text.

use sim_base::Time;
use std::alloc::{AllocError, Global};
use tcp_conn::{Effect, Outgoing};

/// All that is asked for, a line each.
pub fn of_all(alloc: Global, effects: &Vec<Effect>) -> Result<String, AllocError> {
    let mut text = String::new(alloc);
    for effect in effects.iter() {
        let line = of(alloc, effect)?;
        text.push_str("    ")?;
        text.push_str(line.as_str())?;
        text.push_str("\n")?;
    }
    Ok(text)
}

fn of(alloc: Global, effect: &Effect) -> Result<String, AllocError> {
    match effect {
        Effect::Emit { segment } => segment_text(alloc, segment),
        Effect::TimerAt { at } => {
            let at = milliseconds(*at);
            format!(in alloc; "timer at {at}")
        }
        Effect::Connected => format!(in alloc; "connected"),
        Effect::Room { free } => format!(in alloc; "room {free}"),
        Effect::Deliver { bytes } => {
            let size = bytes.len();
            format!(in alloc; "deliver {size}")
        }
        Effect::End => format!(in alloc; "end"),
        Effect::Reset => format!(in alloc; "reset"),
        Effect::Dropped => format!(in alloc; "dropped"),
    }
}

fn milliseconds(time: Time) -> u64 {
    time.0 / 1_000_000
}

/// A segment's position, flags, acknowledgement, greatest segment size and bytes.
fn segment_text(alloc: Global, segment: &Outgoing) -> Result<String, AllocError> {
    let position = segment.position;
    let flags = flags(segment.syn, segment.fin, segment.ack.is_some());
    let ack = segment.ack.unwrap_or(0);
    let mss = segment.mss.unwrap_or(0);
    let bytes = segment.bytes;
    format!(in alloc; "emit {position} {flags} ack {ack} mss {mss} bytes {bytes}")
}

fn flags(syn: bool, fin: bool, ack: bool) -> &'static str {
    match (syn, fin, ack) {
        (true, _, true) => "SA",
        (true, _, false) => "S",
        (false, true, _) => "FA",
        (false, false, _) => "A",
    }
}
