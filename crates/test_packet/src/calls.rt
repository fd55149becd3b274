//! The calls of a packet, each made where its conditions hold.

use pkt_face::Pkt;
use sim_base::{Kind, NoMemory, TagStop};

/// What a call answered.
#[derive(Clone, Copy, Debug)]
pub enum Answer {
    Done,
    Whole(bool),
    Value(u64),
    Present { value: u64 },
    Absent,
    /// The call was not made: the packet has fewer bytes, or would have more than 131,072.
    Length,
    /// There is no packet of that number.
    NoPacket,
}

/// The most bytes of a packet.
pub const LONGEST: usize = 131_072;

pub fn push_front<P: Pkt>(
    maker: &mut P::Maker,
    packet: &mut P,
    kind: Kind,
    bytes: &[u8],
) -> Result<Answer, NoMemory> {
    if bytes.len() > LONGEST - packet.len() as usize {
        return Ok(Answer::Length);
    }
    packet.push_front(maker, kind, bytes)?;
    Ok(Answer::Done)
}

pub fn push_back<P: Pkt>(
    maker: &mut P::Maker,
    packet: &mut P,
    kind: Kind,
    bytes: &[u8],
) -> Result<Answer, NoMemory> {
    if bytes.len() > LONGEST - packet.len() as usize {
        return Ok(Answer::Length);
    }
    packet.push_back(maker, kind, bytes)?;
    Ok(Answer::Done)
}

pub fn cut<P: Pkt>(packet: &mut P, from: u32, to: u32) -> Answer {
    if from > to || to > packet.len() {
        return Answer::Length;
    }
    packet.cut(from, to);
    Answer::Done
}

pub fn join<P: Pkt>(maker: &mut P::Maker, packet: &mut P, other: &P) -> Result<Answer, NoMemory> {
    if other.len() as usize > LONGEST - packet.len() as usize {
        return Ok(Answer::Length);
    }
    packet.join(maker, other)?;
    Ok(Answer::Done)
}

pub fn pop_front<P: Pkt>(packet: &mut P, kind: Kind, n: u32) -> Answer {
    if n > packet.len() {
        return Answer::Length;
    }
    Answer::Whole(packet.pop_front(n, kind))
}

pub fn pop_back<P: Pkt>(packet: &mut P, kind: Kind, n: u32) -> Answer {
    if n > packet.len() {
        return Answer::Length;
    }
    Answer::Whole(packet.pop_back(n, kind))
}

pub fn add_tag<P: Pkt>(packet: &mut P, tag: u32, value: u64) -> Result<Answer, NoMemory> {
    match packet.add_tag(tag, value) {
        Ok(()) => Ok(Answer::Done),
        Err(TagStop::Present { value }) => Ok(Answer::Present { value }),
        Err(TagStop::NoMemory) => Err(NoMemory),
    }
}

pub fn remove_tag<P: Pkt>(packet: &mut P, tag: u32) -> Answer {
    match packet.remove_tag(tag) {
        Ok(value) => Answer::Value(value),
        Err(_) => Answer::Absent,
    }
}
