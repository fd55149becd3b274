//! A transfer between two nodes: whatever comes next in time happens, until nothing is left to happen.

ghost use Rattle.std.specs.Prelude.{◌≤◌, ◌^◌, IfSome};

use crate::digest::digest_of;
use crate::host::Host;
use crate::way::Way;
use sim_base::{NoMemory, Time};
use std::alloc::Global;
use tcp_wire::SocketPair;

/// No transfer goes on for longer, in nanoseconds.
const END: u64 = 1 << 59;

/// The opener's address and port, and the sink's.
const PAIR: SocketPair = SocketPair {
    addr: 0x0a01_0101,
    port: 49153,
    other_addr: 0x0a01_0102,
    other_port: 80,
};

/// What became of a transfer.
#[derive(Clone, Copy)]
pub struct Report {
    pub delivered: u64,
    pub packets: u64,
    pub lost: u64,
    /// Whether all bytes were delivered as they were written, and then the end.
    pub is_whole: bool,
}

/// What happens next.
#[derive(Clone, Copy)]
enum Next {
    AtSink,
    AtOpener,
    OpenerTimer,
    SinkTimer,
}

/// Carries the first `bytes` bytes of the stream.
pub fn run(alloc: Global, bytes: u64, every: u64) -> Result<Report, NoMemory> {
    let mut to_sink = Way::new(alloc, every);
    let mut to_opener = Way::new(alloc, 0);
    let mut sink = listen(alloc)?;
    let mut opener = connect(alloc, bytes, &mut to_sink)?;
    'events: for _ in 0..u64::MAX {
        let Some((now, next)) = first_of_all(&opener, &sink, &to_sink, &to_opener) else {
            break;
        };
        happen(
            alloc,
            now,
            next,
            &mut opener,
            &mut sink,
            &mut to_sink,
            &mut to_opener,
        )?;
    }
    Ok(Report {
        delivered: sink.delivered,
        packets: to_sink.sent,
        lost: to_sink.lost,
        is_whole: sink.ended && sink.delivered == bytes && sink.digest == digest_of(bytes),
    })
}

fn listen(alloc: Global) -> Result<Host, NoMemory> {
    let mut host = Host::new(alloc, 1, 0);
    host.listen(alloc, PAIR.other_port)?;
    Ok(host)
}

fn connect(alloc: Global, bytes: u64, to_sink: &mut Way) -> Result<Host, NoMemory> {
    let mut host = Host::new(alloc, 0, bytes);
    host.connect(alloc, PAIR, to_sink)?;
    Ok(host)
}

/// What is next happens.
fn happen(
    alloc: Global,
    now: Time,
    next: Next,
    opener: &mut Host,
    sink: &mut Host,
    to_sink: &mut Way,
    to_opener: &mut Way,
) -> Result<(), NoMemory>
    requires { now.0 ≤ 2 ^ 59 }
{
    match next {
        Next::AtSink => sink.hear(alloc, now, to_sink, to_opener),
        Next::AtOpener => opener.hear(alloc, now, to_opener, to_sink),
        Next::OpenerTimer => opener.time_out(alloc, now, to_sink),
        Next::SinkTimer => sink.time_out(alloc, now, to_opener),
    }
}

/// The earlier of two happenings.
fn earlier(a: Option<(Time, Next)>, b: Option<(Time, Next)>) -> Option<(Time, Next)> {
    match (a, b) {
        (Some((s, x)), Some((t, _))) if s.0 <= t.0 => Some((s, x)),
        (a, None) => a,
        (_, b) => b,
    }
}

/// What happens next and when, unless nothing does, or not before the end.
fn first_of_all(opener: &Host, sink: &Host, to_sink: &Way, to_opener: &Way) -> Option<(Time, Next)>
    ensures { IfSome result (λ n. n.0.0 ≤ 2 ^ 59) }
{
    let mut first = to_sink.next_at().map(|at| (at, Next::AtSink));
    first = earlier(first, to_opener.next_at().map(|at| (at, Next::AtOpener)));
    first = earlier(first, opener.timer_at().map(|at| (at, Next::OpenerTimer)));
    first = earlier(first, sink.timer_at().map(|at| (at, Next::SinkTimer)));
    match first {
        Some((at, next)) if at.0 <= END => Some((at, next)),
        _ => None,
    }
}
