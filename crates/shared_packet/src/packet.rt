//! A packet over a buffer, its tags and its items.

ghost use Rattle.sim_base.specs.Packet.{IsPacket};
ghost use Rattle.sim_base.proofs.ApartLaws.{packet_props};

use block_pool::Pool;
use packet_meta::Meta;
use pkt_face::Pkt;
use sim_base::{Absent, ByteTag, Item, Kind, NoMemory, TagStop, Uid};
use std::alloc::Global;
use tag_lists::Tags;
use zero_buffer::Buffer;

/// A packet whose copies share a block of bytes, and never see each other's changes.
#[derive(Drop)]
pub struct SharedPkt {
    uid: Uid,
    bytes: Buffer,
    tags: Tags,
    items: Meta,
    ghost valid: { IsPacket (record { uid = uid; bytes = bytes.bytes; byte_tags = tags.byte_tags; tags = tags.packet_tags; items = items }) } by { Prim.hlevel packet_props },
}

impl Pkt for SharedPkt {
    ghost use Rattle.std.specs.Prelude.{◌≡◌, ◌+◌, ◌<◌, ◌≤◌, length, IfOk, IsOk, OnOk, OnErr};
    ghost use Rattle.block_pool.specs.Spare.{taken, taken_for, HasSpareFor, TakesOne};
    ghost use Rattle.block_pool.specs.declared.class.Class.TheVariants.{Small};
    ghost use Rattle.sim_base.specs.Packet as packet;
    ghost use Rattle.sim_base.specs.Packet.{len, longest};
    ghost use Rattle.shared_packet.specs.Shared.{plain_packet, SharesBlock, ready_of, PutsInPlace};
    ghost use Rattle.packet_meta.specs.Meta.{INLINE};

    type Maker = Pool;

    ghost plain = { plain_packet };

    ghost SharesStore = { SharesBlock };

    ghost valid = { λ p. p.valid };

    fn maker(alloc: Global) -> Pool {
        Pool::make(alloc)
    }

    /// With a spare small block it takes no memory, nor does the first header of up to 64 bytes in front.
    fn zeros(alloc: Global, maker: &mut Pool, uid: Uid, n: u32) -> Result<SharedPkt, NoMemory>
        requires { n ≤ longest }
        ensures plain { IfOk result (λ p. plain_packet p ≡ packet.zeros uid n) }
        ensures ready { IfOk result (λ p. ready_of p ≡ 64) }
        ensures succeeds { 0 < maker.old.small → IsOk result }
        ensures taken { maker.new ≡ taken Small maker.old }
    {
        let mut items = Meta::new(alloc);
        items.push_back(Kind::Payload, n)?;
        Ok(SharedPkt {
            uid,
            bytes: Buffer::zeros(alloc, maker, n)?,
            tags: Tags::new(alloc),
            items,
        })
    }

    /// With a spare block of the class that fits it takes no memory, nor does the first header of up to 64
    /// bytes in front.
    fn from_bytes(
        alloc: Global,
        maker: &mut Pool,
        uid: Uid,
        bytes: &[u8],
    ) -> Result<SharedPkt, NoMemory>
        requires { length bytes.now ≤ longest }
        ensures plain { IfOk result (λ p. plain_packet p ≡ packet.from_bytes uid bytes.now) }
        ensures ready { IfOk result (λ p. ready_of p ≡ 64) }
        ensures succeeds { HasSpareFor (length bytes.now) maker.old → IsOk result }
        ensures taken { maker.new ≡ taken_for (length bytes.now) maker.old }
    {
        let mut items = Meta::new(alloc);
        items.push_back(Kind::Payload, bytes.len() as u32)?;
        Ok(SharedPkt {
            uid,
            bytes: Buffer::from_bytes(alloc, maker, bytes)?,
            tags: Tags::new(alloc),
            items,
        })
    }

    /// A copy takes no block.
    fn copy(&mut self, _maker: &mut Pool) -> Result<SharedPkt, NoMemory>
        ensures same { plain_packet self.new ≡ plain_packet self.old }
        ensures copy { IfOk result (λ p. plain_packet p ≡ plain_packet self.old) }
        ensures shares { IfOk result (λ p. SharesBlock self.new p) }
        ensures kept { _maker.new ≡ _maker.old }
    {
        let tags = self.tags.copy()?;
        let items = self.items.copy()?;
        Ok(SharedPkt {
            uid: self.uid,
            bytes: self.bytes.copy()?,
            tags,
            items,
        })
    }

    /// Where the packet is ready for so many bytes and has fewer than eight items, it takes no memory.
    fn push_front(&mut self, maker: &mut Pool, kind: Kind, bytes: &[u8]) -> Result<(), NoMemory>
        requires { length bytes.now + len (plain_packet self.old) ≤ longest }
        ensures ok { OnOk result (plain_packet self.new ≡ packet.push_front kind bytes.now (plain_packet self.old)) }
        ensures err { OnErr result (plain_packet self.new ≡ plain_packet self.old) }
        ensures ready { 0 < length bytes.now → length bytes.now ≤ ready_of self.old → length self.old.items < INLINE → (IsOk result) × (maker.new ≡ maker.old) × PutsInPlace (length bytes.now) self.old self.new }
        ensures taken { TakesOne maker.old maker.new }
    {
        let size = bytes.len() as u32;
        let len = self.bytes.len();
        self.items.push_front(kind, size)?;
        match self.bytes.push_front(maker, bytes) {
            Ok(_) => {
                self.tags.shift(size);
                Ok(())
            }
            Err(stop) => {
                self.items.cut(size, size + len);
                Err(stop)
            }
        }
    }

    fn push_back(&mut self, maker: &mut Pool, kind: Kind, bytes: &[u8]) -> Result<(), NoMemory>
        requires { len (plain_packet self.old) + length bytes.now ≤ longest }
        ensures ok { OnOk result (plain_packet self.new ≡ packet.push_back kind bytes.now (plain_packet self.old)) }
        ensures err { OnErr result (plain_packet self.new ≡ plain_packet self.old) }
        ensures taken { TakesOne maker.old maker.new }
    {
        let len = self.bytes.len();
        self.items.push_back(kind, bytes.len() as u32)?;
        match self.bytes.push_back(maker, bytes) {
            Ok(_) => Ok(()),
            Err(stop) => {
                self.items.cut(0, len);
                Err(stop)
            }
        }
    }

    fn cut(&mut self, from: u32, to: u32) {
        if from == 0 && to == self.bytes.len() {
            return;
        }
        self.bytes.cut(from, to);
        self.tags.clip(from, to);
        self.items.cut(from, to);
    }

    fn join(&mut self, maker: &mut Pool, other: &SharedPkt) -> Result<(), NoMemory>
        requires { len (plain_packet self.old) + len (plain_packet other.now) ≤ longest }
        ensures ok { OnOk result (plain_packet self.new ≡ packet.join (plain_packet self.old) (plain_packet other.now)) }
        ensures err { OnErr result (plain_packet self.new ≡ plain_packet self.old) }
        ensures taken { TakesOne maker.old maker.new }
    {
        let mut tags = self.tags.copy()?;
        tags.append(&other.tags, self.bytes.len())?;
        let mut items = self.items.copy()?;
        items.join(&other.items)?;
        self.bytes.join(maker, &other.bytes)?;
        self.tags = tags;
        self.items = items;
        Ok(())
    }

    fn add_byte_tag(&mut self, tag: u32, value: u64) -> Result<(), NoMemory> {
        let len = self.bytes.len();
        self.tags.add_byte(len, tag, value)
    }

    fn add_tag(&mut self, tag: u32, value: u64) -> Result<(), TagStop> {
        self.tags.add(tag, value)
    }

    fn replace_tag(&mut self, tag: u32, value: u64) -> Result<(), NoMemory> {
        self.tags.replace(tag, value)
    }

    fn remove_tag(&mut self, tag: u32) -> Result<u64, Absent> {
        self.tags.remove(tag)
    }

    fn tag(&self, tag: u32) -> Option<u64> {
        self.tags.find(tag)
    }

    fn pop_front(&mut self, n: u32, kind: Kind) -> bool {
        let first = self.items.list().first();
        if first.is_some_and(|item| item.is_whole(kind, n)) {
            self.leave_off_first(n);
            return true;
        }
        self.cut(n, self.len());
        false
    }

    fn pop_back(&mut self, n: u32, kind: Kind) -> bool {
        let last = self.items.list().last();
        let whole = last.is_some_and(|item| item.is_whole(kind, n));
        self.cut(0, self.len() - n);
        whole
    }

    fn peek(&self, at: u32, buf: &mut [u8]) {
        self.bytes.peek(at, buf);
    }

    fn len(&self) -> u32 {
        self.bytes.len()
    }

    fn uid(&self) -> Uid {
        self.uid
    }

    fn items(&self) -> &[Item] {
        self.items.list()
    }

    fn byte_tags(&self) -> &[ByteTag] {
        self.tags.byte_list()
    }
}

impl SharedPkt {
    ghost use Rattle.std.specs.Prelude.{◌≡◌, IfSome, IsSome, slice_get};
    ghost use Rattle.sim_base.specs.Items.{left};
    ghost use Rattle.sim_base.specs.Packet as packet;
    ghost use Rattle.shared_packet.specs.Shared.{plain_packet};

    // Leaves off the first item, of which `n` bytes are left.
    fn leave_off_first(&mut self, n: u32)
        requires some { IsSome (slice_get self.old.items 0) }
        requires left { IfSome (slice_get self.old.items 0) (λ item. left item ≡ n) }
        ensures { plain_packet self.new ≡ packet.pop_front n (plain_packet self.old) }
    {
        let len = self.bytes.len();
        self.bytes.leave_off(n);
        self.tags.clip(n, len);
        self.items.leave_off_first();
    }
}
