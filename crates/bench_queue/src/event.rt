//! Events of the size of a packet.

ghost use Rattle.std.specs.Prelude.{◌≡◌};

use sim_base::{Key, NodeId, Time};

/// 400 bytes.
#[derive(Clone, Copy, PartialEq, Eq, PartialOrd, Ord)]
pub struct Load {
    pub words: [u64; 50],
}

/// The load of an event with this number.
pub fn load_of(count: u64) -> Load {
    Load { words: [count; 50] }
}

/// The key of an event with this number.
pub fn key(time: u64, count: u64) -> Key
    ensures { result.count ≡ count }
{
    Key {
        time: Time(time),
        node: NodeId((time & 1023) as u32),
        sent: Time(0),
        by: NodeId(0),
        count,
    }
}

/// The state of a linear congruential generator after this one.
pub fn next(state: u64) -> u64 {
    state
        .wrapping_mul(6_364_136_223_846_793_005)
        .wrapping_add(1_442_695_040_888_963_407)
}

/// Up to 2^24 nanoseconds after a time.
pub fn later(time: u64, state: u64) -> u64 {
    time.saturating_add(1 + (state >> 40))
}

/// A digest with one more event.
pub fn digest_with(digest: u64, key: &Key, load: &Load) -> u64 {
    digest.rotate_left(5) ^ key.time.0 ^ key.count ^ load.words[49]
}
