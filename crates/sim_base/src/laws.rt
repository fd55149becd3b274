//! What holds of keys, and of plain packets, whatever represents them. The functions do nothing: their contracts
//! are the laws.

ghost use Rattle.std.specs.Prelude.{◌≡◌, ◌+◌, ◌≤◌, ◌<◌, ℕ, true, false, None, List, [], length, slice_range};
ghost use Rattle.sim_base.specs.declared.item.Kind.{Kind};
ghost use Rattle.sim_base.specs.declared.numbers.Uid.{Uid};
ghost use Rattle.sim_base.specs.declared.key.Key.{Key};
ghost use Rattle.sim_base.specs.KeyOrder.{before};
ghost use Rattle.sim_base.specs.Items.{first_is_whole, last_is_whole};
ghost use Rattle.sim_base.specs.PacketTags.{find_tag};
ghost use Rattle.sim_base.specs.Packet.{Packet, IsPacket, len, longest, from_bytes, push_front, push_back, cut, pop_front, pop_back, join, add_byte_tag, add_tag, replace_tag, remove_tag};

/// The order of events is total: of two keys that aren't the same one comes before the other, and never both; time
/// comes first.
pub fn keys_are_totally_ordered()
    ensures one_way { (a b : Key) → before a b ≡ true → before b a ≡ false }
    ensures through { (a b c : Key) → before a b ≡ true → before b c ≡ true → before a c ≡ true }
    ensures total { (a b : Key) → before a b ≡ false → before b a ≡ false → a ≡ b }
    ensures time_first { (a b : Key) → a.time.0 < b.time.0 → before a b ≡ true }
{}

/// Every call makes packets of packets: the length is small, each byte tag lies on bytes, no two packet
/// tags have one number, and the items cover the bytes, each with a byte left and none going on in the
/// next.
pub fn packets_stay_packets()
    ensures from_bytes { (uid : Uid) (bytes : List ℕ) → length bytes ≤ longest → IsPacket (from_bytes uid bytes) }
    ensures push_front { (kind : Kind) (bytes : List ℕ) (p : Packet) → IsPacket p → length bytes + len p ≤ longest → IsPacket (push_front kind bytes p) }
    ensures push_back { (kind : Kind) (bytes : List ℕ) (p : Packet) → IsPacket p → len p + length bytes ≤ longest → IsPacket (push_back kind bytes p) }
    ensures cut { (a b : ℕ) (p : Packet) → IsPacket p → a ≤ b → b ≤ len p → IsPacket (cut a b p) }
    ensures join { (p q : Packet) → IsPacket p → IsPacket q → len p + len q ≤ longest → IsPacket (join p q) }
    ensures add_byte_tag { (tag value : ℕ) (p : Packet) → IsPacket p → IsPacket (add_byte_tag tag value p) }
    ensures add_tag { (tag value : ℕ) (p : Packet) → IsPacket p → find_tag tag p.tags ≡ None → IsPacket (add_tag tag value p) }
    ensures replace_tag { (tag value : ℕ) (p : Packet) → IsPacket p → IsPacket (replace_tag tag value p) }
    ensures remove_tag { (tag : ℕ) (p : Packet) → IsPacket p → IsPacket (remove_tag tag p) }
{}

/// What was pushed is there, and a pop gives the packet back as it was. What changes nothing leaves the
/// packet.
pub fn calls_are_undone()
    ensures pop_front { (kind : Kind) (bytes : List ℕ) (p : Packet) → IsPacket p → pop_front (length bytes) (push_front kind bytes p) ≡ p }
    ensures pop_back { (kind : Kind) (bytes : List ℕ) (p : Packet) → IsPacket p → pop_back (length bytes) (push_back kind bytes p) ≡ p }
    ensures whole_front { (kind : Kind) (bytes : List ℕ) (p : Packet) → 0 < length bytes → first_is_whole kind (length bytes) (push_front kind bytes p).items ≡ true }
    ensures whole_back { (kind : Kind) (bytes : List ℕ) (p : Packet) → 0 < length bytes → last_is_whole kind (length bytes) (push_back kind bytes p).items ≡ true }
    ensures peek { (kind : Kind) (bytes : List ℕ) (p : Packet) → slice_range (push_front kind bytes p).bytes 0 (length bytes) ≡ bytes }
    ensures nothing_in_front { (kind : Kind) (p : Packet) → push_front kind [] p ≡ p }
    ensures nothing_behind { (kind : Kind) (p : Packet) → push_back kind [] p ≡ p }
    ensures nothing_to_tag { (tag value : ℕ) (p : Packet) → len p ≡ 0 → add_byte_tag tag value p ≡ p }
    ensures absent_tag { (tag : ℕ) (p : Packet) → find_tag tag p.tags ≡ None → remove_tag tag p ≡ p }
{}

/// A cut of what was cut is a cut of the whole, a cut after a join gives both packets again, and a
/// packet that was cut in two is joined again.
pub fn cuts_and_joins_are_undone()
    ensures all { (p : Packet) → IsPacket p → cut 0 (len p) p ≡ p }
    ensures twice { (a b c d : ℕ) (p : Packet) → c ≤ d → a + d ≤ b → cut c d (cut a b p) ≡ cut (a + c) (a + d) p }
    ensures first { (p q : Packet) → IsPacket p → IsPacket q → cut 0 (len p) (join p q) ≡ p }
    ensures second { (p q : Packet) → IsPacket p → IsPacket q → cut (len p) (len p + len q) (join p q) ≡ record q { uid = p.uid; tags = p.tags } }
    ensures halves { (a b c : ℕ) (p : Packet) → IsPacket p → p.byte_tags ≡ [] → a ≤ b → b ≤ c → join (cut a b p) (cut b c p) ≡ cut a c p }
{}
