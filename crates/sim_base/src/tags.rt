//! Tags on ranges of a packet's bytes, and on whole packets.

ghost use Rattle.std.specs.Prelude.{◌≡◌, ◌+◌, ◌-◌, ◌^◌, ◌<◌, All};
ghost use Rattle.sim_base.specs.ByteTags.{moved_up, shift, part_within, parts_within, covers_a_byte, IsTagWithin};

/// A tag on the bytes from `from` up to `to`.
#[derive(Clone, Copy, Debug, Default, PartialEq, Eq)]
pub struct ByteTag {
    pub tag: u32,
    pub from: u32,
    pub to: u32,
    pub value: u64,
}

/// A tag on a whole packet.
#[derive(Clone, Copy, Debug, Default, PartialEq, Eq)]
pub struct PacketTag {
    pub tag: u32,
    pub value: u64,
}

/// Why a tag was not added: the packet has one of that number, or memory ran out.
#[derive(Clone, Copy, Debug, PartialEq, Eq)]
pub enum TagStop {
    Present { value: u64 },
    NoMemory,
}

/// The packet has no tag of that number.
#[derive(Clone, Copy, Debug, PartialEq, Eq)]
pub struct Absent;

impl ByteTag {
    /// The tag, `n` bytes further up.
    pub fn moved_up(self, n: u32) -> ByteTag
        requires from_fits { self.from + n < 2 ^ 32 }
        requires to_fits { self.to + n < 2 ^ 32 }
        ensures { result ≡ moved_up n self }
    {
        ByteTag {
            from: self.from + n,
            to: self.to + n,
            ..self
        }
    }

    /// The part of the tag on the bytes from `from` up to `to`, with its places counted from `from`. It
    /// may cover no byte.
    pub fn part_within(self, from: u32, to: u32) -> ByteTag
        ensures { result ≡ part_within from to self }
    {
        ByteTag {
            from: self.from.saturating_sub(from),
            to: self.to.min(to).saturating_sub(from),
            ..self
        }
    }

    pub fn covers_a_byte(&self) -> bool
        ensures { result ≡ covers_a_byte self.now }
    {
        self.from < self.to
    }

    /// Moves all tags up by `n` bytes.
    pub fn shift_all(tags: &mut [ByteTag], n: u32)
        requires { All (IsTagWithin (2 ^ 32 - 1 - n)) tags.old }
        ensures { tags.new ≡ shift n tags.old }
    {
        for tag in tags.iter_mut() {
            *tag = tag.moved_up(n);
        }
    }

    /// Leaves of each tag its part within the bytes from `from` up to `to`.
    pub fn part_all(tags: &mut [ByteTag], from: u32, to: u32)
        ensures { tags.new ≡ parts_within from to tags.old }
    {
        for tag in tags.iter_mut() {
            *tag = tag.part_within(from, to);
        }
    }
}
