//! The numbers of new packets, and the stamps of timers.

ghost use Rattle.std.specs.Prelude.{◌≡◌};
ghost use Rattle.layer_words.specs.Counting.{new_uid, with_packet, with_stamp};

use sim_base::{Numbers, Uid};

/// Takes the identity of the next packet that a node makes.
pub fn next_uid(numbers: &mut Numbers) -> Uid
    ensures uid { result ≡ new_uid numbers.old }
    ensures taken { numbers.new ≡ with_packet numbers.old }
{
    let uid = Uid {
        node: numbers.node,
        count: numbers.packets,
    };
    numbers.packets = numbers.packets.saturating_add(1);
    uid
}

/// Takes the stamp of the next timer that a node starts.
pub fn next_stamp(numbers: &mut Numbers) -> u64
    ensures stamp { result ≡ numbers.old.stamps }
    ensures taken { numbers.new ≡ with_stamp numbers.old }
{
    let stamp = numbers.stamps;
    numbers.stamps = numbers.stamps.saturating_add(1);
    stamp
}
