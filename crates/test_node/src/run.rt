//! A run of a few events, as text.

use node_step::{Effects, Event, FireStop, Load, Part};
use pkt_face::{Line, Pkt, PlainPkt};
use sim_base::{NoMemory, Time};
use std::alloc::Global;

/// More events than a run here has.
const MOST_EVENTS: u32 = 100;

/// How many bytes of a saved frame are written.
const SHOWN: usize = 58;

/// Fires the least event, of these and of those that follow, again and again, and says what fires and what is saved; then what is counted.
pub fn run(
    alloc: Global,
    part: Part<PlainPkt>,
    first: Vec<Event<PlainPkt>>,
) -> Result<String, NoMemory> {
    let mut part = part;
    let mut text = String::new(alloc);
    let mut pending = first;
    for _ in 0..MOST_EVENTS {
        pending.as_mut_slice().sort_by(
            alloc,
            |a: &Event<PlainPkt>, b: &Event<PlainPkt>| b.key.cmp(&a.key),
        )?;
        let Some(ev) = pending.pop() else {
            break;
        };
        let mut sends = fire(alloc, &mut part, ev, &mut text)?;
        pending.append(&mut sends)?;
    }
    add_counts(alloc, &part, &mut text)?;
    Ok(text)
}

/// Fires an event, says so, and gives what it schedules.
fn fire(
    alloc: Global,
    part: &mut Part<PlainPkt>,
    ev: Event<PlainPkt>,
    text: &mut String,
) -> Result<Vec<Event<PlainPkt>>, NoMemory> {
    let mut out = Effects {
        sends: Vec::new(alloc),
        lines: Vec::new(alloc),
    };
    let said = event_text(alloc, &ev)?;
    text.push_str(said.as_str())?;
    if !part.can_fire(&ev) {
        text.push_str("it is for nobody\n")?;
        return Ok(out.sends);
    }
    match part.fire(ev, &mut out) {
        Ok(()) => {}
        Err(FireStop::NoMemory) => return Err(NoMemory),
        Err(FireStop::Limit { .. }) => text.push_str("it is one too many\n")?,
    }
    for line in &out.lines {
        let saved = line_text(alloc, line)?;
        text.push_str(saved.as_str())?;
    }
    Ok(out.sends)
}

/// Seconds, with nine decimals.
fn time_text(alloc: Global, time: Time) -> Result<String, NoMemory> {
    let seconds = time.0 / 1_000_000_000;
    let nanoseconds = time.0 % 1_000_000_000;
    Ok(format!(in alloc; "{seconds}.{nanoseconds:09}")?)
}

fn event_text(alloc: Global, ev: &Event<PlainPkt>) -> Result<String, NoMemory> {
    let time = time_text(alloc, ev.key.time)?;
    let node = ev.key.node.0;
    Ok(match &ev.load {
        Load::Arrive { iface, .. } => {
            format!(in alloc; "{time} node {node}: a frame arrives at interface {iface}\n")?
        }
        Load::Sent { iface } => {
            format!(in alloc; "{time} node {node}: a frame has left interface {iface}\n")?
        }
        Load::BusFree { iface } => {
            format!(in alloc; "{time} node {node}: the bus of interface {iface} is free\n")?
        }
        Load::BackoffOver { iface } => {
            format!(in alloc; "{time} node {node}: interface {iface} has waited\n")?
        }
        Load::DiscReady { iface } => {
            format!(in alloc; "{time} node {node}: the disc of interface {iface} is asked again\n")?
        }
        Load::ArpTimer { iface, addr, .. } => {
            format!(in alloc; "{time} node {node}: no answer from {addr} at interface {iface}\n")?
        }
        Load::FragTimer { .. } => {
            format!(in alloc; "{time} node {node}: the time for a datagram's fragments is over\n")?
        }
        Load::TcpTimer { conn, .. } => {
            format!(in alloc; "{time} node {node}: the timer of connection {conn} fires\n")?
        }
        Load::Tick { app } => format!(in alloc; "{time} node {node}: application {app} ticks\n")?,
    })
}

fn line_text(alloc: Global, line: &Line<PlainPkt>) -> Result<String, NoMemory> {
    let len = line.packet.len();
    let mut front = [0; SHOWN];
    let shown = (len as usize).min(SHOWN);
    line.packet.peek(0, &mut front[..shown]);
    let bytes = hex::encode(alloc, &front[..shown])?;
    let iface = line.iface;
    Ok(format!(in alloc; "  saved at interface {iface}, {len} bytes: {bytes}\n")?)
}

/// How many packets were dropped, and what applications have sent and got.
fn add_counts(alloc: Global, part: &Part<PlainPkt>, text: &mut String) -> Result<(), NoMemory> {
    let drops = part.drops();
    let dropped = format!(in alloc; "drops {drops}\n")?;
    text.push_str(dropped.as_str())?;
    for count in &part.counts()? {
        let (app, sent, got) = (count.app, count.sent, count.got);
        let (sent_bytes, got_bytes) = (count.sent_bytes, count.got_bytes);
        let counted = format!(in alloc;
            "app {app} sent {sent} {sent_bytes} received {got} {got_bytes}\n"
        )?;
        text.push_str(counted.as_str())?;
    }
    Ok(())
}
