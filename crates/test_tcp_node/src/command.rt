//! The lines of a play.

use anyhow::{Context, Result, bail};
use std::str::Split;
use tcp_conn::Heard;
use tcp_wire::SocketPair;

/// What happens to the connections of a node, at a time in milliseconds.
#[derive(Clone, Copy)]
pub enum Command {
    /// What follows happens to another node, which has no connection.
    Node,
    Connect {
        now: u32,
        app: u32,
        src: Option<u32>,
        sport: u16,
        dst: u32,
        port: u16,
        mss: u32,
    },
    Listen {
        app: u32,
        port: u16,
    },
    /// A segment comes from the one to the other, with so many bytes.
    Segment {
        now: u32,
        pair: SocketPair,
        heard: Heard,
        bytes: u16,
    },
    Garbage {
        now: u32,
        src: u32,
        dst: u32,
    },
    Timer {
        now: u32,
        conn: u32,
        stamp: u32,
    },
    Write {
        now: u32,
        app: u32,
        bytes: u16,
    },
    Close {
        now: u32,
        app: u32,
    },
}

/// The command of a line; there is none on an empty line or a remark.
pub fn read(line: &str) -> Result<Option<Command>> {
    let mut words = line.split(' ');
    match words.next() {
        Some("node") => Ok(Some(Command::Node)),
        Some("connect") => connect(words),
        Some("listen") => {
            let app = number(words.next())?;
            let port = small(words.next())?;
            Ok(Some(Command::Listen { app, port }))
        }
        Some("segment") => segment(words),
        Some("garbage") => {
            let now = number(words.next())?;
            let src = number(words.next())?;
            let dst = number(words.next())?;
            Ok(Some(Command::Garbage { now, src, dst }))
        }
        Some("timer") => {
            let now = number(words.next())?;
            let conn = number(words.next())?;
            let stamp = number(words.next())?;
            Ok(Some(Command::Timer { now, conn, stamp }))
        }
        Some("write") => {
            let now = number(words.next())?;
            let app = number(words.next())?;
            let bytes = small(words.next())?;
            Ok(Some(Command::Write { now, app, bytes }))
        }
        Some("close") => {
            let now = number(words.next())?;
            let app = number(words.next())?;
            Ok(Some(Command::Close { now, app }))
        }
        Some("" | "#") => Ok(None),
        _ => bail!("no such command"),
    }
}

fn connect(mut words: Split<'_, char>) -> Result<Option<Command>> {
    let now = number(words.next())?;
    let app = number(words.next())?;
    let src = source(words.next())?;
    let sport = small(words.next())?;
    let dst = number(words.next())?;
    let port = small(words.next())?;
    let mss = number(words.next())?;
    Ok(Some(Command::Connect {
        now,
        app,
        src,
        sport,
        dst,
        port,
        mss,
    }))
}

fn segment(mut words: Split<'_, char>) -> Result<Option<Command>> {
    let now = number(words.next())?;
    let addr = number(words.next())?;
    let port = small(words.next())?;
    let other_addr = number(words.next())?;
    let other_port = small(words.next())?;
    let pair = SocketPair {
        addr,
        port,
        other_addr,
        other_port,
    };
    let flags = words.next().context("flags are missing")?;
    let seq = number(words.next())?;
    let ack = number(words.next())?;
    let mss = small(words.next())?;
    let bytes = small(words.next())?;
    Ok(Some(Command::Segment {
        now,
        pair,
        heard: heard(flags, seq, ack, mss),
        bytes,
    }))
}

fn heard(flags: &str, seq: u32, ack: u32, mss: u16) -> Heard {
    Heard {
        seq,
        ack,
        window: u16::MAX,
        mss: if mss == 0 { None } else { Some(mss) },
        syn: flags.contains('S'),
        has_ack: flags.contains('A'),
        fin: flags.contains('F'),
        rst: flags.contains('R'),
    }
}

/// An address, or none.
fn source(word: Option<&str>) -> Result<Option<u32>> {
    match word {
        Some("-") => Ok(None),
        word => Ok(Some(number(word)?)),
    }
}

fn number(word: Option<&str>) -> Result<u32> {
    word.context("a number is missing")?
        .parse::<u32>()
        .context("no number")
}

fn small(word: Option<&str>) -> Result<u16> {
    word.context("a number is missing")?
        .parse::<u16>()
        .context("no small number")
}
