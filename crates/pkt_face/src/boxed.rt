//! A packet in a box, which is moved as one word.

use crate::face::Pkt;
use sim_base::{Absent, ByteTag, Item, Kind, NoMemory, TagStop, Uid};
use std::alloc::Global;

/// A packet in a box. It takes memory for the box when it is made and when it is copied, and is what the
/// packet in it is.
///
/// ```text
/// event, act, queue place: | box |
///                             |
///                             v
///                          | uid | window | tags .. | items .. |
/// ```
#[derive(Drop)]
pub struct BoxedPkt<P: Pkt> {
    alloc: Global,
    packet: Box<P, Global>,
}

impl<P: Pkt> Pkt for BoxedPkt<P> {
    type Maker = P::Maker;

    ghost plain = { λ b. P.plain b.packet.value };

    ghost SharesStore = { λ b c. P.SharesStore b.packet.value c.packet.value };

    ghost valid = { λ b. P.valid b.packet.value };

    fn maker(alloc: Global) -> P::Maker {
        P::maker(alloc)
    }

    fn zeros(
        alloc: Global,
        maker: &mut P::Maker,
        uid: Uid,
        n: u32,
    ) -> Result<BoxedPkt<P>, NoMemory> {
        let packet = P::zeros(alloc, maker, uid, n)?;
        Ok(BoxedPkt {
            alloc,
            packet: Box::new(alloc, packet)?,
        })
    }

    fn from_bytes(
        alloc: Global,
        maker: &mut P::Maker,
        uid: Uid,
        bytes: &[u8],
    ) -> Result<BoxedPkt<P>, NoMemory> {
        let packet = P::from_bytes(alloc, maker, uid, bytes)?;
        Ok(BoxedPkt {
            alloc,
            packet: Box::new(alloc, packet)?,
        })
    }

    fn copy(&mut self, maker: &mut P::Maker) -> Result<BoxedPkt<P>, NoMemory> {
        let packet = self.packet.copy(maker)?;
        Ok(BoxedPkt {
            alloc: self.alloc,
            packet: Box::new(self.alloc, packet)?,
        })
    }

    fn push_front(
        &mut self,
        maker: &mut P::Maker,
        kind: Kind,
        bytes: &[u8],
    ) -> Result<(), NoMemory> {
        self.packet.push_front(maker, kind, bytes)
    }

    fn push_back(
        &mut self,
        maker: &mut P::Maker,
        kind: Kind,
        bytes: &[u8],
    ) -> Result<(), NoMemory> {
        self.packet.push_back(maker, kind, bytes)
    }

    fn cut(&mut self, from: u32, to: u32) {
        self.packet.cut(from, to);
    }

    fn join(&mut self, maker: &mut P::Maker, other: &BoxedPkt<P>) -> Result<(), NoMemory> {
        self.packet.join(maker, &other.packet)
    }

    fn add_byte_tag(&mut self, tag: u32, value: u64) -> Result<(), NoMemory> {
        self.packet.add_byte_tag(tag, value)
    }

    fn add_tag(&mut self, tag: u32, value: u64) -> Result<(), TagStop> {
        self.packet.add_tag(tag, value)
    }

    fn replace_tag(&mut self, tag: u32, value: u64) -> Result<(), NoMemory> {
        self.packet.replace_tag(tag, value)
    }

    fn remove_tag(&mut self, tag: u32) -> Result<u64, Absent> {
        self.packet.remove_tag(tag)
    }

    fn tag(&self, tag: u32) -> Option<u64> {
        self.packet.tag(tag)
    }

    fn pop_front(&mut self, n: u32, kind: Kind) -> bool {
        self.packet.pop_front(n, kind)
    }

    fn pop_back(&mut self, n: u32, kind: Kind) -> bool {
        self.packet.pop_back(n, kind)
    }

    fn peek(&self, at: u32, buf: &mut [u8]) {
        self.packet.peek(at, buf);
    }

    fn len(&self) -> u32 {
        self.packet.len()
    }

    fn uid(&self) -> Uid {
        self.packet.uid()
    }

    fn items(&self) -> &[Item] {
        self.packet.items()
    }

    fn byte_tags(&self) -> &[ByteTag] {
        self.packet.byte_tags()
    }
}
