//! The calls that change one packet.

use pkt_face::Pkt;
use rand_core::Rng;
use rand_xoshiro::SplitMix64;
use sim_base::{Kind, NoMemory};

/// A call on a packet, whose bytes are all one value.
#[derive(Clone, Copy)]
pub enum Call {
    PushFront { n: u32, byte: u8 },
    PushBack { n: u32, byte: u8 },
    PopFront { n: u32 },
    PopBack { n: u32 },
    Cut { from: u32, n: u32 },
    Tag { value: u64 },
}

/// A packet gets no longer than this.
const LONG: u32 = 2000;

/// The most bytes of one push.
const MOST: u32 = 24;

/// A number below `end`, or 0 where that is 0.
pub fn below(random: &mut SplitMix64, end: u32) -> u32 {
    if end == 0 {
        return 0;
    }
    (random.next_u64() % end as u64) as u32
}

impl Call {
    pub fn draw(random: &mut SplitMix64) -> Call {
        let n = below(random, MOST + 1);
        let byte = (random.next_u64() % 256) as u8;
        match below(random, 8) {
            0 | 1 => Call::PushFront { n, byte },
            2 | 3 => Call::PushBack { n, byte },
            4 => Call::PopFront { n },
            5 => Call::PopBack { n },
            6 => Call::Cut {
                from: n,
                n: below(random, LONG),
            },
            _ => Call::Tag { value: byte as u64 },
        }
    }

    /// Makes the call, as far as the packet has the bytes and the room.
    pub fn make<P: Pkt>(self, maker: &mut P::Maker, packet: &mut P) -> Result<(), NoMemory> {
        match self {
            Call::PushFront { n, byte } => push_front(maker, packet, n, byte),
            Call::PushBack { n, byte } => push_back(maker, packet, n, byte),
            Call::PopFront { n } => {
                packet.pop_front(n.min(packet.len()), Kind::Udp);
                Ok(())
            }
            Call::PopBack { n } => {
                packet.pop_back(n.min(packet.len()), Kind::Trailer);
                Ok(())
            }
            Call::Cut { from, n } => {
                cut(packet, from, n);
                Ok(())
            }
            Call::Tag { value } => packet.add_byte_tag(3, value),
        }
    }
}

fn push_front<P: Pkt>(
    maker: &mut P::Maker,
    packet: &mut P,
    n: u32,
    byte: u8,
) -> Result<(), NoMemory> {
    if packet.len() > LONG {
        return Ok(());
    }
    let bytes = [byte; 24];
    packet.push_front(maker, Kind::Udp, &bytes[..n.min(MOST) as usize])
}

fn push_back<P: Pkt>(
    maker: &mut P::Maker,
    packet: &mut P,
    n: u32,
    byte: u8,
) -> Result<(), NoMemory> {
    if packet.len() > LONG {
        return Ok(());
    }
    let bytes = [byte; 24];
    packet.push_back(maker, Kind::Trailer, &bytes[..n.min(MOST) as usize])
}

// Keeps `n` bytes from `from` on, or as many as there are.
fn cut<P: Pkt>(packet: &mut P, from: u32, n: u32) {
    let len = packet.len();
    let from = from.min(len);
    let n = n.min(len - from);
    packet.cut(from, from + n);
}

/// Appends a packet to another, where both are short enough.
pub fn join<P: Pkt>(maker: &mut P::Maker, packet: &mut P, other: &P) -> Result<(), NoMemory> {
    if packet.len() > LONG || other.len() > LONG {
        return Ok(());
    }
    packet.join(maker, other)
}
