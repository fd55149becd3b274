//! The calls, as words. Packets have numbers, in the order in which they were made.

use anyhow::{Context, Result, bail};
use sim_base::Kind;
use std::alloc::Global;

#[derive(Drop)]
pub enum Command {
    /// `zeros N`
    Zeros {
        n: u32,
    },
    /// `bytes HEX`
    FromBytes {
        bytes: Vec<u8>,
    },
    /// `copy PACKET`
    Copy {
        packet: usize,
    },
    /// `front PACKET KIND HEX`
    PushFront {
        packet: usize,
        kind: Kind,
        bytes: Vec<u8>,
    },
    /// `back PACKET KIND HEX`
    PushBack {
        packet: usize,
        kind: Kind,
        bytes: Vec<u8>,
    },
    /// `cut PACKET FROM TO`
    Cut {
        packet: usize,
        from: u32,
        to: u32,
    },
    /// `join PACKET OTHER`
    Join {
        packet: usize,
        other: usize,
    },
    /// `pop-front PACKET KIND N`
    PopFront {
        packet: usize,
        kind: Kind,
        n: u32,
    },
    /// `pop-back PACKET KIND N`
    PopBack {
        packet: usize,
        kind: Kind,
        n: u32,
    },
    /// `tag-bytes PACKET TAG VALUE`
    AddByteTag {
        packet: usize,
        tag: u32,
        value: u64,
    },
    /// `tag PACKET TAG VALUE`
    AddTag {
        packet: usize,
        tag: u32,
        value: u64,
    },
    /// `replace-tag PACKET TAG VALUE`
    ReplaceTag {
        packet: usize,
        tag: u32,
        value: u64,
    },
    /// `remove-tag PACKET TAG`
    RemoveTag {
        packet: usize,
        tag: u32,
    },
}

fn word<'a>(words: &[&'a str], at: usize) -> Result<&'a str> {
    words.get(at).copied().context("too few words")
}

fn number(words: &[&str], at: usize) -> Result<u32> {
    word(words, at)?.parse::<u32>().context("no number")
}

/// The packet on which the call is made.
fn packet(words: &[&str]) -> Result<usize> {
    Ok(number(words, 1)? as usize)
}

fn value(words: &[&str], at: usize) -> Result<u64> {
    Ok(number(words, at)? as u64)
}

fn bytes(alloc: Global, words: &[&str], at: usize) -> Result<Vec<u8>> {
    Ok(hex::decode(alloc, word(words, at)?.as_bytes())?)
}

fn kind(words: &[&str]) -> Result<Kind> {
    Ok(match word(words, 2)? {
        "ppp" => Kind::Ppp,
        "ethernet" => Kind::Ethernet,
        "trailer" => Kind::Trailer,
        "ipv4" => Kind::Ipv4,
        "udp" => Kind::Udp,
        "payload" => Kind::Payload,
        "pad" => Kind::Pad,
        _ => bail!("no kind"),
    })
}

impl Command {
    /// The packet on which the call is made.
    pub fn packet(&self) -> usize {
        match self {
            Command::Zeros { .. } | Command::FromBytes { .. } => usize::MAX,
            Command::Copy { packet }
            | Command::PushFront { packet, .. }
            | Command::PushBack { packet, .. }
            | Command::Cut { packet, .. }
            | Command::Join { packet, .. }
            | Command::PopFront { packet, .. }
            | Command::PopBack { packet, .. }
            | Command::AddByteTag { packet, .. }
            | Command::AddTag { packet, .. }
            | Command::ReplaceTag { packet, .. }
            | Command::RemoveTag { packet, .. } => *packet,
        }
    }

    pub fn read(alloc: Global, line: &str) -> Result<Command> {
        let mut words = Vec::new(alloc);
        for word in line.split(" ") {
            words.push(word)?;
        }
        Command::of_words(alloc, words.as_slice())
    }

    fn of_words(alloc: Global, words: &[&str]) -> Result<Command> {
        match word(words, 0)? {
            "zeros" => Ok(Command::Zeros {
                n: number(words, 1)?,
            }),
            "bytes" => Ok(Command::FromBytes {
                bytes: bytes(alloc, words, 1)?,
            }),
            "copy" => Ok(Command::Copy {
                packet: packet(words)?,
            }),
            "front" | "back" => Command::of_push(alloc, words),
            "cut" | "join" | "pop-front" | "pop-back" => Command::of_cut(words),
            _ => Command::of_tag(words),
        }
    }

    fn of_push(alloc: Global, words: &[&str]) -> Result<Command> {
        let packet = packet(words)?;
        let kind = kind(words)?;
        let bytes = bytes(alloc, words, 3)?;
        Ok(if word(words, 0)? == "front" {
            Command::PushFront {
                packet,
                kind,
                bytes,
            }
        } else {
            Command::PushBack {
                packet,
                kind,
                bytes,
            }
        })
    }

    fn of_cut(words: &[&str]) -> Result<Command> {
        let packet = packet(words)?;
        match word(words, 0)? {
            "cut" => Ok(Command::Cut {
                packet,
                from: number(words, 2)?,
                to: number(words, 3)?,
            }),
            "join" => Ok(Command::Join {
                packet,
                other: number(words, 2)? as usize,
            }),
            "pop-front" => Ok(Command::PopFront {
                packet,
                kind: kind(words)?,
                n: number(words, 3)?,
            }),
            _ => Ok(Command::PopBack {
                packet,
                kind: kind(words)?,
                n: number(words, 3)?,
            }),
        }
    }

    fn of_tag(words: &[&str]) -> Result<Command> {
        let packet = packet(words)?;
        let tag = number(words, 2)?;
        match word(words, 0)? {
            "tag-bytes" => Ok(Command::AddByteTag {
                packet,
                tag,
                value: value(words, 3)?,
            }),
            "tag" => Ok(Command::AddTag {
                packet,
                tag,
                value: value(words, 3)?,
            }),
            "replace-tag" => Ok(Command::ReplaceTag {
                packet,
                tag,
                value: value(words, 3)?,
            }),
            "remove-tag" => Ok(Command::RemoveTag { packet, tag }),
            _ => bail!("no such call"),
        }
    }
}
