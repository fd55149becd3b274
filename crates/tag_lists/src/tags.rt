//! Both lists, and what pushes, cuts and joins of the packet do to them.

ghost use Rattle.std.specs.Prelude.{◌≡◌, ◌+◌, ◌-◌, ◌^◌, ◌<◌, ◌≤◌, ◌++◌, length, All, Option, None, position, IfOk, IsOk, OnOk, OnErr};
ghost use Rattle.sim_base.specs.ByteTags as on_bytes;
ghost use Rattle.sim_base.specs.ByteTags.{IsTagWithin};
ghost use Rattle.sim_base.specs.Packet.{longest};
ghost use Rattle.sim_base.specs.PacketTags as on_packets;
ghost use Rattle.sim_base.specs.PacketTags.{has_tag, find_tag};
ghost use Rattle.pkt_face.specs.Face.{StopsAtHeld, GivesHeld};
ghost use Rattle.tag_lists.specs.TagLists.{TagLists, no_tags, with_byte_tags, with_packet_tags, INLINE};

use sim_base::{Absent, ByteTag, NoMemory, PacketTag, TagStop};
use smallvec::SmallVec;
use std::alloc::Global;
use std::marker::Model;

/// The tags of one packet. A call that answers want of memory leaves them as they were.
#[derive(Drop)]
pub struct Tags {
    byte_tags: SmallVec<ByteTag, 4>,
    packet_tags: SmallVec<PacketTag, 4>,
}

impl Model for Tags {
    ghost use Rattle.tag_lists.specs.TagLists.{TagLists};
    ghost use Rattle.tag_lists.specs.Inline.{HasInline};

    ghost Value = { TagLists };

    ghost view = { λ t. record { byte_tags = t.byte_tags.items; packet_tags = t.packet_tags.items } };

    ghost invariant = { HasInline };
}

impl Tags {
    pub fn new(alloc: Global) -> Tags
        ensures { result ≡ no_tags }
    {
        Tags {
            byte_tags: SmallVec::new(alloc),
            packet_tags: SmallVec::new(alloc),
        }
    }

    /// Moves the byte tags up by `n` bytes, which come in front. No tag may end beyond 131,072 then.
    pub fn shift(&mut self, n: u32)
        requires { All (IsTagWithin (longest - n)) self.old.byte_tags }
        ensures { self.new ≡ with_byte_tags (on_bytes.shift n self.old.byte_tags) self.old }
    {
        if self.byte_tags.is_empty() {
            return;
        }
        ByteTag::shift_all(self.byte_tags.as_mut_slice(), n);
    }

    /// Keeps the parts of the byte tags on the bytes from `from` up to `to`, with their places counted
    /// from `from`. A tag with no byte there vanishes.
    pub fn clip(&mut self, from: u32, to: u32)
        requires { from ≤ to }
        ensures { self.new ≡ with_byte_tags (on_bytes.clip from to self.old.byte_tags) self.old }
    {
        if self.byte_tags.is_empty() {
            return;
        }
        ByteTag::part_all(self.byte_tags.as_mut_slice(), from, to);
        self.byte_tags.retain(|tag| tag.covers_a_byte());
    }

    /// Adds the byte tags of a packet whose bytes come behind the first `by`. No tag may end beyond
    /// 131,072 then.
    pub fn append(&mut self, other: &Tags, by: u32) -> Result<(), NoMemory>
        requires { All (IsTagWithin (longest - by)) other.now.byte_tags }
        ensures ok { OnOk result (self.new ≡ with_byte_tags (self.old.byte_tags ++ on_bytes.shift by other.now.byte_tags) self.old) }
        ensures err { OnErr result (self.new ≡ self.old) }
        ensures inline { length self.old.byte_tags + length other.now.byte_tags ≤ INLINE → IsOk result }
    {
        let first = self.byte_tags.len();
        self.byte_tags
            .extend_from_slice(other.byte_tags.as_slice())?;
        let (_, appended) = self.byte_tags.as_mut_slice().split_at_mut(first);
        ByteTag::shift_all(appended, by);
        Ok(())
    }

    pub fn copy(&self) -> Result<Tags, NoMemory>
        ensures ok { IfOk result (λ t. t ≡ self.now) }
        ensures inline { length self.now.byte_tags ≤ INLINE → length self.now.packet_tags ≤ INLINE → IsOk result }
    {
        let alloc = *self.byte_tags.allocator();
        Ok(Tags {
            byte_tags: SmallVec::from_slice(alloc, self.byte_tags.as_slice())?,
            packet_tags: SmallVec::from_slice(alloc, self.packet_tags.as_slice())?,
        })
    }

    /// Tags the first `len` bytes, or nothing where `len` is 0. A packet has at most 131,072 bytes.
    pub fn add_byte(&mut self, len: u32, tag: u32, value: u64) -> Result<(), NoMemory>
        requires { len ≤ longest }
        ensures ok { OnOk result (self.new ≡ with_byte_tags (self.old.byte_tags ++ on_bytes.tag_over len tag value) self.old) }
        ensures err { OnErr result (self.new ≡ self.old) }
        ensures inline { length (self.old.byte_tags ++ on_bytes.tag_over len tag value) ≤ INLINE → IsOk result }
    {
        if len > 0 {
            self.byte_tags.push(ByteTag {
                tag,
                from: 0,
                to: len,
                value,
            })?;
        }
        Ok(())
    }

    /// Tags the packet, unless it has a tag of this number.
    pub fn add(&mut self, tag: u32, value: u64) -> Result<(), TagStop>
        ensures held { StopsAtHeld (find_tag tag self.old.packet_tags) result }
        ensures ok { OnOk result (self.new ≡ with_packet_tags (on_packets.add_tag tag value self.old.packet_tags) self.old) }
        ensures err { OnErr result (self.new ≡ self.old) }
        ensures inline { find_tag tag self.old.packet_tags ≡ None → length self.old.packet_tags < INLINE → IsOk result }
    {
        match self.find(tag) {
            Some(value) => Err(TagStop::Present { value }),
            None => match self.packet_tags.push(PacketTag { tag, value }) {
                Ok(()) => Ok(()),
                Err(_) => Err(TagStop::NoMemory),
            },
        }
    }

    /// Gives the tag of this number another value in its place, or adds it where there is none.
    pub fn replace(&mut self, tag: u32, value: u64) -> Result<(), NoMemory>
        ensures ok { OnOk result (self.new ≡ with_packet_tags (on_packets.replace_tag tag value self.old.packet_tags) self.old) }
        ensures err { OnErr result (self.new ≡ self.old) }
        ensures inline { length (on_packets.replace_tag tag value self.old.packet_tags) ≤ INLINE → IsOk result }
    {
        match self.place_of(tag) {
            Some(place) => self.packet_tags[place] = PacketTag { tag, value },
            None => self.packet_tags.push(PacketTag { tag, value })?,
        }
        Ok(())
    }

    /// Takes the tag of this number off, and gives its value.
    pub fn remove(&mut self, tag: u32) -> Result<u64, Absent>
        ensures held { GivesHeld (find_tag tag self.old.packet_tags) result }
        ensures after { self.new ≡ with_packet_tags (on_packets.remove_tag tag self.old.packet_tags) self.old }
    {
        let held = self.find(tag);
        self.packet_tags.retain(|other| other.tag != tag);
        held.ok_or(Absent)
    }

    /// The value of the tag of this number.
    pub fn find(&self, tag: u32) -> Option<u64>
        ensures { result ≡ find_tag tag self.now.packet_tags }
    {
        let place = self.place_of(tag)?;
        Some(self.packet_tags[place].value)
    }

    pub fn byte_list(&self) -> &[ByteTag]
        ensures { result.now ≡ self.now.byte_tags }
    {
        self.byte_tags.as_slice()
    }

    // Where the packet's tag of this number stands.
    fn place_of(&self, tag: u32) -> Option<usize>
        ensures { result ≡ position (has_tag tag) self.now.packet_tags }
    {
        self.packet_tags
            .as_slice()
            .iter()
            .position(|held| held.tag == tag)
    }
}
