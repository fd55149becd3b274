//! The Internet checksum of bytes and the packet behind them, summed where the packet's bytes lie.

ghost use Rattle.std.specs.Prelude.{◌≡◌, ◌+◌, ◌≤◌, ◌<◌, ◌++◌, All, length, slice_range};
ghost use Rattle.sim_base.specs.Packet.{len};
ghost use Rattle.header_forms.specs.Checksum.{checksum, with_bytes};
ghost use Rattle.layer_words.specs.Covered.{pseudo_header};

use header_forms::Sum;
use pkt_face::Pkt;

/// How many bytes of a packet are looked at in one step.
const PIECE: usize = 256;

/// The pseudo-header of UDP and TCP: source, destination, a zero, the protocol, and the length of header
/// and data in bytes (RFC 768; RFC 9293, section 3.1).
#[tactic(auto, unfolding(crate::specs::Covered::pseudo_header))]
pub fn pseudo_header(src: u32, dst: u32, proto: u8, length: u16) -> [u8; 12]
    ensures { result ≡ pseudo_header src dst proto length }
{
    let src = src.to_be_bytes();
    let dst = dst.to_be_bytes();
    let length = length.to_be_bytes();
    [
        src[0], src[1], src[2], src[3], dst[0], dst[1], dst[2], dst[3], 0, proto, length[0],
        length[1],
    ]
}

/// The Internet checksum of bytes and the packet behind them (RFC 1071). It is 0 exactly where a checksum
/// among them is right.
pub fn checksum_behind<P: Pkt>(front: &[u8], packet: &P) -> u16
    ensures { result ≡ checksum (front.now ++ (P.plain packet.now).bytes) }
{
    let mut sum = Sum::start();
    sum.add(front);
    add_packet(&mut sum, packet);
    sum.finish()
}

/// The same with a pseudo-header before the bytes.
pub fn checksum_behind_header<P: Pkt>(pseudo: &[u8], header: &[u8], packet: &P) -> u16
    ensures { result ≡ checksum ((pseudo.now ++ header.now) ++ (P.plain packet.now).bytes) }
{
    let mut sum = Sum::start();
    sum.add(pseudo);
    sum.add(header);
    add_packet(&mut sum, packet);
    sum.finish()
}

/// Adds a packet's bytes, piece by piece.
fn add_packet<P: Pkt>(sum: &mut Sum, packet: &P)
    ensures sum { sum.new ≡ with_bytes sum.old (P.plain packet.now).bytes }
    ensures bytes { All (λ b. b < 256) (P.plain packet.now).bytes }
{
    let mut buffer = [0; PIECE];
    let len = packet.len() as usize;
    let mut at = 0;
    while at < len {
        let size = (len - at).min(PIECE);
        add_piece(sum, packet, at as u32, &mut buffer[..size]);
        at += size;
    }
}

/// Adds as many of a packet's bytes from `at` on as the buffer has places.
fn add_piece<P: Pkt>(sum: &mut Sum, packet: &P, at: u32, buffer: &mut [u8])
    requires { at + length buffer.old ≤ len (P.plain packet.now) }
    ensures sum { sum.new ≡ with_bytes sum.old (slice_range (P.plain packet.now).bytes at (at + length buffer.old)) }
    ensures bytes { All (λ b. b < 256) (slice_range (P.plain packet.now).bytes at (at + length buffer.old)) }
{
    packet.peek(at, buffer);
    sum.add(buffer);
}
