//! The lines of a play.

use anyhow::{Context, Result, bail};
use tcp_conn::Heard;

/// What happens to one end of a connection, at a time in milliseconds.
#[derive(Clone, Copy)]
pub enum Command {
    Open { now: u32, mss: u32 },
    Accept { now: u32 },
    Hears { now: u32, heard: Heard, bytes: u16 },
    TimesOut { now: u32 },
    Write { now: u32, bytes: u16 },
    Close { now: u32 },
}

/// The command of a line; there is none on an empty line or a remark.
pub fn read(line: &str) -> Result<Option<Command>> {
    let mut words = line.split(' ');
    let command = match words.next() {
        Some("open") => Command::Open {
            now: time(words.next())?,
            mss: u32::from(number(words.next())?),
        },
        Some("accept") => Command::Accept {
            now: time(words.next())?,
        },
        Some("hears") => {
            let now = time(words.next())?;
            let flags = words.next().context("flags are missing")?;
            let seq = u32::from(number(words.next())?);
            let ack = u32::from(number(words.next())?);
            let mss = number(words.next())?;
            let bytes = number(words.next())?;
            Command::Hears {
                now,
                heard: heard(flags, seq, ack, mss),
                bytes,
            }
        }
        Some("times_out") => Command::TimesOut {
            now: time(words.next())?,
        },
        Some("write") => Command::Write {
            now: time(words.next())?,
            bytes: number(words.next())?,
        },
        Some("close") => Command::Close {
            now: time(words.next())?,
        },
        Some("" | "#") => return Ok(None),
        _ => bail!("no such command"),
    };
    Ok(Some(command))
}

fn heard(flags: &str, seq: u32, ack: u32, mss: u16) -> Heard {
    Heard {
        seq,
        ack,
        window: u16::MAX,
        mss: if mss == 0 { None } else { Some(mss) },
        syn: flags.contains('S'),
        has_ack: flags.contains('A'),
        fin: flags.contains('F'),
        rst: flags.contains('R'),
    }
}

fn number(word: Option<&str>) -> Result<u16> {
    word.context("a number is missing")?
        .parse::<u16>()
        .context("no number")
}

/// A time in milliseconds.
fn time(word: Option<&str>) -> Result<u32> {
    word.context("a time is missing")?
        .parse::<u32>()
        .context("no time")
}
