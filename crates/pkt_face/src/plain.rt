//! The packet that copies everything.

ghost use Rattle.sim_base.specs.Packet.{IsPacket};
ghost use Rattle.sim_base.proofs.ApartLaws.{packet_props};

use crate::face::Pkt;
use crate::lists::{
    clip_tags, cut_bytes, cut_item_list, joined_bytes, joined_items, position_of_tag,
};
use sim_base::{Absent, ByteTag, Item, Kind, NoMemory, PacketTag, TagStop, Uid};
use std::alloc::Global;

/// A packet with lists of its own.
#[derive(Drop)]
pub struct PlainPkt {
    uid: Uid,
    bytes: Vec<u8>,
    byte_tags: Vec<ByteTag>,
    tags: Vec<PacketTag>,
    items: Vec<Item>,
    ghost valid: { IsPacket (record { uid = uid; bytes = bytes.items; byte_tags = byte_tags.items; tags = tags.items; items = items.items }) } by { Prim.hlevel packet_props },
}

impl Pkt for PlainPkt {
    type Maker = ();

    ghost plain = { λ p. record { uid = p.uid; bytes = p.bytes.items; byte_tags = p.byte_tags.items; tags = p.tags.items; items = p.items.items } };

    ghost SharesStore = { λ p q. Unit {0} };

    ghost valid = { λ p. p.valid };

    fn maker(_alloc: Global) -> () {}

    fn zeros(alloc: Global, _maker: &mut (), uid: Uid, n: u32) -> Result<PlainPkt, NoMemory> {
        let mut bytes = Vec::new(alloc);
        bytes.resize(n as usize, 0)?;
        PlainPkt::whole(alloc, uid, bytes)
    }

    fn from_bytes(
        alloc: Global,
        _maker: &mut (),
        uid: Uid,
        bytes: &[u8],
    ) -> Result<PlainPkt, NoMemory> {
        PlainPkt::whole(alloc, uid, Vec::from_slice(alloc, bytes)?)
    }

    fn copy(&mut self, _maker: &mut ()) -> Result<PlainPkt, NoMemory> {
        let alloc = *self.bytes.allocator();
        Ok(PlainPkt {
            uid: self.uid,
            bytes: Vec::from_slice(alloc, &self.bytes)?,
            byte_tags: Vec::from_slice(alloc, &self.byte_tags)?,
            tags: Vec::from_slice(alloc, &self.tags)?,
            items: Vec::from_slice(alloc, &self.items)?,
        })
    }

    fn push_front(&mut self, _maker: &mut (), kind: Kind, bytes: &[u8]) -> Result<(), NoMemory> {
        if bytes.is_empty() {
            return Ok(());
        }
        let size = bytes.len() as u32;
        let longer = joined_bytes(*self.bytes.allocator(), bytes, &self.bytes)?;
        self.items.insert(0, Item::whole(kind, size))?;
        ByteTag::shift_all(self.byte_tags.as_mut_slice(), size);
        self.bytes = longer;
        Ok(())
    }

    fn push_back(&mut self, _maker: &mut (), kind: Kind, bytes: &[u8]) -> Result<(), NoMemory> {
        if bytes.is_empty() {
            return Ok(());
        }
        let longer = joined_bytes(*self.bytes.allocator(), &self.bytes, bytes)?;
        self.items.push(Item::whole(kind, bytes.len() as u32))?;
        self.bytes = longer;
        Ok(())
    }

    fn cut(&mut self, from: u32, to: u32) {
        cut_bytes(&mut self.bytes, from as usize, to as usize);
        clip_tags(&mut self.byte_tags, from, to);
        cut_item_list(&mut self.items, from, to);
    }

    fn join(&mut self, _maker: &mut (), other: &PlainPkt) -> Result<(), NoMemory> {
        let alloc = *self.bytes.allocator();
        let bytes = joined_bytes(alloc, &self.bytes, &other.bytes)?;
        let items = joined_items(alloc, &self.items, &other.items)?;
        let mut later = Vec::from_slice(alloc, &other.byte_tags)?;
        ByteTag::shift_all(later.as_mut_slice(), self.len());
        self.byte_tags.extend_from_slice(&later)?;
        self.bytes = bytes;
        self.items = items;
        Ok(())
    }

    fn add_byte_tag(&mut self, tag: u32, value: u64) -> Result<(), NoMemory> {
        let to = self.len();
        if to > 0 {
            self.byte_tags.push(ByteTag {
                tag,
                from: 0,
                to,
                value,
            })?;
        }
        Ok(())
    }

    fn add_tag(&mut self, tag: u32, value: u64) -> Result<(), TagStop> {
        match self.tag(tag) {
            Some(value) => Err(TagStop::Present { value }),
            None => match self.tags.push(PacketTag { tag, value }) {
                Ok(()) => Ok(()),
                Err(_) => Err(TagStop::NoMemory),
            },
        }
    }

    fn replace_tag(&mut self, tag: u32, value: u64) -> Result<(), NoMemory> {
        match position_of_tag(&self.tags, tag) {
            Some(place) => self.tags[place] = PacketTag { tag, value },
            None => self.tags.push(PacketTag { tag, value })?,
        }
        Ok(())
    }

    fn remove_tag(&mut self, tag: u32) -> Result<u64, Absent> {
        let held = self.tag(tag);
        self.tags.retain(|other| other.tag != tag);
        held.ok_or(Absent)
    }

    fn tag(&self, tag: u32) -> Option<u64> {
        let place = position_of_tag(&self.tags, tag)?;
        Some(self.tags[place].value)
    }

    fn pop_front(&mut self, n: u32, kind: Kind) -> bool {
        let whole = self
            .items
            .first()
            .is_some_and(|item| item.is_whole(kind, n));
        self.cut(n, self.len());
        whole
    }

    fn pop_back(&mut self, n: u32, kind: Kind) -> bool {
        let whole = self.items.last().is_some_and(|item| item.is_whole(kind, n));
        self.cut(0, self.len() - n);
        whole
    }

    fn peek(&self, at: u32, buf: &mut [u8]) {
        let at = at as usize;
        buf.copy_from_slice(&self.bytes[at..at + buf.len()]);
    }

    fn len(&self) -> u32 {
        self.bytes.len() as u32
    }

    fn uid(&self) -> Uid {
        self.uid
    }

    fn items(&self) -> &[Item] {
        &self.items
    }

    fn byte_tags(&self) -> &[ByteTag] {
        &self.byte_tags
    }
}

impl PlainPkt {
    ghost use Rattle.std.specs.Prelude.{◌≡◌, ◌≤◌, IfOk, length};
    ghost use Rattle.sim_base.specs.Packet as packet;
    ghost use Rattle.pkt_face.specs.Plain.{plain_packet};

    /// A packet of one whole item, or of none where there are no bytes.
    fn whole(alloc: Global, uid: Uid, bytes: Vec<u8>) -> Result<PlainPkt, NoMemory>
        requires { length bytes.items ≤ packet.longest }
        ensures { IfOk result (λ p. plain_packet p ≡ packet.from_bytes uid bytes.items) }
    {
        let mut items = Vec::new(alloc);
        if !bytes.is_empty() {
            items.push(Item::whole(Kind::Payload, bytes.len() as u32))?;
        }
        Ok(PlainPkt {
            uid,
            bytes,
            byte_tags: Vec::new(alloc),
            tags: Vec::new(alloc),
            items,
        })
    }
}
