//! Fields of a capture file, by their place.

ghost use Rattle.std.specs.Prelude.{◌≡◌, ◌+◌, ◌≤◌, length, drop};
ghost use Rattle.pcap_form.specs.CaptureHead.{number, short_number};

/// The number of 32 bits at a place.
#[tactic(auto, unfolding(crate::specs::CaptureHead::number))]
pub(crate) fn read_u32(bytes: &[u8], at: usize, big: bool) -> u32
    requires { at + 4 ≤ length bytes.now }
    ensures { result ≡ number big (drop at bytes.now) }
{
    let four = [bytes[at], bytes[at + 1], bytes[at + 2], bytes[at + 3]];
    if big {
        u32::from_be_bytes(four)
    } else {
        u32::from_le_bytes(four)
    }
}

/// The number of 16 bits at a place.
#[tactic(auto, unfolding(crate::specs::CaptureHead::short_number))]
pub(crate) fn read_u16(bytes: &[u8], at: usize, big: bool) -> u16
    requires { at + 2 ≤ length bytes.now }
    ensures { result ≡ short_number big (drop at bytes.now) }
{
    let two = [bytes[at], bytes[at + 1]];
    if big {
        u16::from_be_bytes(two)
    } else {
        u16::from_le_bytes(two)
    }
}
