//! Applications of a node, one of each kind.

ghost use Rattle.std.specs.Prelude.{IfOk, ◌≤◌, ◌^◌};
ghost use Rattle.traffic_apps.specs.App.{IsSchedule};
ghost use Rattle.traffic_apps.specs.Seen.{plain_in};
ghost use Rattle.traffic_apps.specs.Step.{CanTake};

use crate::packets;
use anyhow::{Context, Result, bail, ensure};
use pkt_face::{Pkt, PlainPkt};
use sim_base::{Numbers, Rate, Time};
use std::alloc::{AllocError, Global};
use traffic_apps::{Act, App, AppKind, In, Schedule};

/// The other end of what is sent.
const SERVER: u32 = 0x0a01_0102;

/// Payloads a millisecond apart.
fn schedule(size: u32, count: u64, priority: u64) -> Schedule
    requires size { size ≤ 65507 }
    requires count { count ≤ 10 ^ 9 }
    ensures { IsSchedule result }
{
    Schedule {
        size,
        count,
        interval: Time(1_000_000),
        priority,
    }
}

pub fn apps(alloc: Global) -> Result<Vec<App>, AllocError> {
    let client = AppKind::UdpEchoClient {
        dst: SERVER,
        port: 9,
        schedule: schedule(1024, 1, 0),
    };
    let sender = AppKind::UdpSend {
        dst: SERVER,
        port: 9,
        schedule: schedule(70, 2, 6),
    };
    let ping = AppKind::Ping {
        dst: SERVER,
        schedule: schedule(56, 2, 0),
    };
    let in_turn = AppKind::on_off(
        SERVER,
        9,
        1000,
        5,
        3,
        Rate(8_000_000),
        Time(2_500_000),
        Time(1_000_000),
    );
    let apps = vec![in alloc;
        App::make(0, AppKind::UdpEchoServer),
        App::make(1, client),
        App::make(2, sender),
        App::make(3, ping),
        App::make(4, AppKind::UdpSink),
        App::make(5, in_turn),
        App::make(
            6,
            AppKind::TcpBulk {
                dst: SERVER,
                port: 80,
                bytes: 260,
                mss: 536,
            }
        ),
        App::make(7, AppKind::TcpSink),
    ]?;
    Ok(apps)
}

/// `N tick NOW`, `N got SRC SPORT PACKET`, `N connected`, `N room FREE`, `N end` or `N reset` of application N.
pub fn answer(
    alloc: Global,
    apps: &mut [App],
    numbers: &mut Numbers,
    words: &[&str],
) -> Result<String> {
    match *words {
        [number, ref input @ ..] => {
            let number = number.parse::<usize>()?;
            let app = apps.get_mut(number).context("no such application")?;
            step_answer(alloc, app, numbers, input)
        }
        [] => bail!("no application"),
    }
}

fn step_answer(
    alloc: Global,
    app: &mut App,
    numbers: &mut Numbers,
    words: &[&str],
) -> Result<String> {
    let mut maker = PlainPkt::maker(alloc);
    let mut acts = Vec::new(alloc);
    let input = input::<PlainPkt>(alloc, words)?;
    app.step(input, &mut maker, numbers, &mut acts)
        .ok()
        .context("no memory")?;
    let counts = app.counts();
    let (sent, sent_bytes) = (counts.sent, counts.sent_bytes);
    let (got, got_bytes) = (counts.got, counts.got_bytes);
    let mut text = format!(in alloc; "sent {sent} {sent_bytes} received {got} {got_bytes}")?;
    for act in &acts {
        text.push_str("; ")?;
        text.push_str(act_text(alloc, act)?.as_str())?;
    }
    Ok(text)
}

fn input<P: Pkt>(alloc: Global, words: &[&str]) -> Result<In<P>>
    ensures { IfOk result (λ input. CanTake (plain_in P.plain input)) }
{
    match *words {
        ["tick", now] => {
            let now = now.parse::<u64>()?;
            ensure!(now <= 1_000_000_000_000, "no time of a run");
            Ok(In::Tick { now: Time(now) })
        }
        ["got", src, sport, packet] => {
            let src = packets::address(src)?;
            let sport = sport.parse::<u16>()?;
            let mut packet: P = packets::read(alloc, packet)?;
            packet.replace_tag(1, 7).ok().context("no memory")?;
            ensure!(packet.len() <= 65_507, "too long for a datagram");
            Ok(In::Got { src, sport, packet })
        }
        ["connected"] => Ok(In::Connected),
        ["room", free] => Ok(In::Room {
            free: free.parse::<u32>()?,
        }),
        ["end"] => Ok(In::End),
        ["reset"] => Ok(In::Reset),
        _ => bail!("no input of an application"),
    }
}

fn act_text<P: Pkt>(alloc: Global, act: &Act<P>) -> Result<String, AllocError> {
    match act {
        Act::UdpSend { dst, port, packet } => {
            let packet = tagged(alloc, packet)?;
            format!(in alloc; "udp {dst:08x} {port} {packet}")
        }
        Act::PingSend { dst, rest, packet } => {
            let packet = tagged(alloc, packet)?;
            format!(in alloc; "ping {dst:08x} {rest:08x} {packet}")
        }
        Act::TickAt { at } => {
            let at = at.0;
            format!(in alloc; "tick {at}")
        }
        Act::Connect { dst, port, mss } => format!(in alloc; "connect {dst:08x} {port} {mss}"),
        Act::Write { bytes } => {
            let digits = hex::encode(alloc, bytes.as_slice())?;
            format!(in alloc; "write {digits}")
        }
        Act::Close => format!(in alloc; "close"),
    }
}

/// A packet with its number, how many byte tags it has, and its priority.
fn tagged<P: Pkt>(alloc: Global, packet: &P) -> Result<String, AllocError> {
    let count = packet.uid().count;
    let byte_tags = packet.byte_tags().len();
    let priority = packet.tag(1);
    let packet = packets::written(alloc, packet)?;
    format!(in alloc; "{packet} packet {count} byte tags {byte_tags} priority {priority:?}")
}
