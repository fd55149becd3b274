//! Packets are read as segments.

ghost use Rattle.std.specs.Prelude.{◌≡◌, ◌+◌, ◌/◌, ◌%◌, ◌==◌, ◌++◌, ◌≤◌, ◌<◌, length, IfOk, IfSome, min, slice_range};
ghost use Rattle.sim_base.specs.Packet.{len};
ghost use Rattle.header_forms.specs.Tcp.{tcp_of};
ghost use Rattle.tcp_wire.specs.Segment.{arrived, has_flag, is_intact, said_by, with_head};

use crate::words::Arrived;
use crate::write::PROTOCOL;
use header_forms::Tcp;
use layer_words::{checksum_behind, pseudo_header};
use pkt_face::Pkt;
use sim_base::{NoMemory, Sequence};
use std::alloc::Global;
use tcp_conn::Heard;

/// The longest header that is read.
const LONGEST: u32 = 60;

/// The segment that a packet, which is without its IPv4 header, brings from one address to another. There is none where
/// the header can't be read or the checksum is wrong.
#[tactic(auto, unfolding(crate::specs::Segment::arrived))]
pub fn read_segment<P: Pkt>(
    alloc: Global,
    src: u32,
    dst: u32,
    packet: &P,
) -> Result<Option<Arrived>, NoMemory>
    requires { len (P.plain packet.now) ≤ 65515 }
    ensures { IfOk result (λ found. found ≡ arrived src dst (P.plain packet.now)) }
{
    let Some(tcp) = read_header(packet) else {
        return Ok(None);
    };
    if !is_intact(src, dst, packet) {
        return Ok(None);
    }
    Ok(Some(behind(alloc, tcp, packet)?))
}

/// The header that a packet begins with.
fn read_header<P: Pkt>(packet: &P) -> Option<Tcp>
    ensures value { result ≡ tcp_of (slice_range (P.plain packet.now).bytes 0 (min (len (P.plain packet.now)) 60)) }
    ensures inside { IfSome result (λ tcp. tcp.size ≤ len (P.plain packet.now)) }
{
    let mut buffer = [0; LONGEST as usize];
    let front = &mut buffer[..packet.len().min(LONGEST) as usize];
    packet.peek(0, front);
    Tcp::read(front).ok()
}

/// Whether all that the checksum covers sums to all ones.
fn is_intact<P: Pkt>(src: u32, dst: u32, packet: &P) -> bool
    requires { len (P.plain packet.now) ≤ 65515 }
    ensures { result ≡ is_intact src dst (P.plain packet.now) }
{
    let length = packet.len() as u16;
    checksum_behind(&pseudo_header(src, dst, PROTOCOL, length), packet) == 0
}

/// What the header says, with the bytes behind it.
fn behind<P: Pkt>(alloc: Global, tcp: Tcp, packet: &P) -> Result<Arrived, NoMemory>
    requires { tcp.size ≤ len (P.plain packet.now) }
    ensures { IfOk result (λ arrived. arrived ≡ with_head (P.plain packet.now) tcp) }
{
    let size = (packet.len() - tcp.size) as usize;
    let mut bytes = vec![in alloc; 0; size]?;
    packet.peek(tcp.size, &mut bytes);
    Ok(Arrived {
        sport: tcp.sport,
        dport: tcp.dport,
        says: said_by(&tcp),
        bytes: Sequence::from_vec(bytes),
    })
}

/// What a header says.
fn said_by(tcp: &Tcp) -> Heard
    ensures { result ≡ said_by tcp.now }
{
    Heard {
        seq: tcp.seq,
        ack: tcp.ack,
        window: tcp.window,
        mss: tcp.mss,
        syn: has_flag(2, tcp.flags),
        has_ack: has_flag(16, tcp.flags),
        fin: has_flag(1, tcp.flags),
        rst: has_flag(4, tcp.flags),
    }
}

fn has_flag(bit: u8, flags: u8) -> bool
    requires { 0 < bit }
    ensures { result ≡ has_flag bit flags }
{
    flags / bit % 2 == 1
}
