//! The three sizes of blocks.

ghost use Rattle.std.specs.Prelude.{◌≡◌};
ghost use Rattle.block_pool.specs.Class as sizes;

/// A size of blocks: 128, 512 or 2048 places.
#[derive(Clone, Copy, Debug, PartialEq, Eq)]
pub enum Class {
    Small,
    Middle,
    Large,
}

// How many places are free in front of a packet's first bytes, and behind its last.
pub(crate) const FRONT: u32 = 64;

pub(crate) const BACK: u32 = 16;

impl Class {
    pub(crate) fn places(self) -> u32
        ensures { result ≡ sizes.places self }
    {
        match self {
            Class::Small => 128,
            Class::Middle => 512,
            Class::Large => 2048,
        }
    }

    /// The class of the least blocks in which so many bytes have 64 places in front and 16 behind.
    pub(crate) fn for_len(len: u32) -> Option<Class>
        ensures { result ≡ sizes.class_for len }
    {
        if len > 1968 {
            return None;
        }
        Some(if len > 432 {
            Class::Large
        } else if len > 48 {
            Class::Middle
        } else {
            Class::Small
        })
    }
}
