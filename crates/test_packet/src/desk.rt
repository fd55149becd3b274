//! The packets that were made, and the calls on them.

use crate::calls::{self, Answer, LONGEST};
use crate::command::Command;
use crate::text::text_of;
use pkt_face::Pkt;
use sim_base::{NoMemory, NodeId, Uid};
use std::alloc::Global;

#[derive(Drop)]
pub struct Desk<P: Pkt> {
    alloc: Global,
    maker: P::Maker,
    packets: Vec<P>,
}

/// Makes the packet that a command asks for.
fn made<P: Pkt>(
    alloc: Global,
    maker: &mut P::Maker,
    packets: &mut [P],
    command: &Command,
) -> Result<Option<P>, NoMemory> {
    let uid = Uid {
        node: NodeId(1),
        count: packets.len() as u64,
    };
    match command {
        Command::Zeros { n } if *n as usize <= LONGEST => {
            Ok(Some(P::zeros(alloc, maker, uid, *n)?))
        }
        Command::FromBytes { bytes } if bytes.len() <= LONGEST => {
            Ok(Some(P::from_bytes(alloc, maker, uid, bytes)?))
        }
        Command::Copy { packet } => copied(maker, packets, *packet),
        _ => Ok(None),
    }
}

fn copied<P: Pkt>(
    maker: &mut P::Maker,
    packets: &mut [P],
    at: usize,
) -> Result<Option<P>, NoMemory> {
    match packets.get_mut(at) {
        Some(packet) => Ok(Some(packet.copy(maker)?)),
        None => Ok(None),
    }
}

/// Makes a call on a packet.
fn changed<P: Pkt>(
    maker: &mut P::Maker,
    packet: &mut P,
    command: &Command,
) -> Result<Answer, NoMemory> {
    match command {
        Command::PushFront { kind, bytes, .. } => calls::push_front(maker, packet, *kind, bytes),
        Command::PushBack { kind, bytes, .. } => calls::push_back(maker, packet, *kind, bytes),
        Command::Cut { from, to, .. } => Ok(calls::cut(packet, *from, *to)),
        Command::PopFront { kind, n, .. } => Ok(calls::pop_front(packet, *kind, *n)),
        Command::PopBack { kind, n, .. } => Ok(calls::pop_back(packet, *kind, *n)),
        Command::AddByteTag { tag, value, .. } => {
            packet.add_byte_tag(*tag, *value)?;
            Ok(Answer::Done)
        }
        Command::AddTag { tag, value, .. } => calls::add_tag(packet, *tag, *value),
        Command::ReplaceTag { tag, value, .. } => {
            packet.replace_tag(*tag, *value)?;
            Ok(Answer::Done)
        }
        Command::RemoveTag { tag, .. } => Ok(calls::remove_tag(packet, *tag)),
        _ => Ok(Answer::NoPacket),
    }
}

impl<P: Pkt> Desk<P> {
    pub fn new(alloc: Global) -> Desk<P> {
        Desk {
            alloc,
            maker: P::maker(alloc),
            packets: Vec::new(alloc),
        }
    }

    /// Makes the call, and writes its answer and the packet after it.
    pub fn run(&mut self, command: &Command) -> Result<String, NoMemory> {
        let made = made(
            self.alloc,
            &mut self.maker,
            self.packets.as_mut_slice(),
            command,
        )?;
        if let Some(packet) = made {
            let text = text_of(self.alloc, &packet)?;
            self.packets.push(packet)?;
            return Ok(text);
        }
        let at = command.packet();
        let answer = self.change(at, command)?;
        let alloc = self.alloc;
        let Some(packet) = self.packets.get(at) else {
            return Ok(format!(in alloc; "{answer:?}")?);
        };
        let text = text_of(alloc, packet)?;
        Ok(format!(in alloc; "{answer:?} {text}")?)
    }

    fn change(&mut self, at: usize, command: &Command) -> Result<Answer, NoMemory> {
        let other = match command {
            Command::Join { other, .. } => {
                copied(&mut self.maker, self.packets.as_mut_slice(), *other)?
            }
            _ => None,
        };
        let Some(packet) = self.packets.get_mut(at) else {
            return Ok(Answer::NoPacket);
        };
        match other {
            Some(other) => calls::join(&mut self.maker, packet, &other),
            None => changed(&mut self.maker, packet, command),
        }
    }
}
