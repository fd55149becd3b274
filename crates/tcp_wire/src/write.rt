//! Segments become packets.

ghost use Rattle.std.specs.Prelude.{◌≡◌, ◌+◌, ◌≤◌, ◌++◌, length, IfOk, OnOk};
ghost use Rattle.sim_base.specs.declared.item.Kind.TheVariants.{Tcp as TcpItem};
ghost use Rattle.sim_base.specs.Packet.{len, push_front};
ghost use Rattle.header_forms.specs.Checksum.{checksum};
ghost use Rattle.header_forms.specs.Tcp.{tcp_bytes, written_size};
ghost use Rattle.layer_words.specs.Covered.{pseudo_header};
ghost use Rattle.tcp_wire.specs.Segment.{checksum_of, flag, flags_of, head_of, segment};

use crate::words::SocketPair;
use header_forms::Tcp;
use layer_words::{checksum_behind_header, pseudo_header};
use pkt_face::Pkt;
use sim_base::{Kind, NoMemory, Uid};
use std::alloc::Global;
use tcp_conn::Heard;

/// The protocol's number in IPv4.
pub(crate) const PROTOCOL: u8 = 6;

/// The byte tag of data, whose value is the number of the application that wrote it.
const APPLICATION: u32 = 1;

/// The longest header that is written.
const LONGEST: usize = 24;

/// Makes a packet of a segment. Its data is copied once.
#[tactic(auto, unfolding(crate::specs::Segment::segment))]
pub fn write_segment<P: Pkt>(
    alloc: Global,
    maker: &mut P::Maker,
    uid: Uid,
    app: u32,
    pair: &SocketPair,
    says: &Heard,
    bytes: &[u8],
) -> Result<P, NoMemory>
    requires { length bytes.now ≤ 9000 }
    ensures { IfOk result (λ packet. P.plain packet ≡ segment uid app pair.now says.now bytes.now) }
{
    let mut packet = P::from_bytes(alloc, maker, uid, bytes)?;
    packet.add_byte_tag(APPLICATION, u64::from(app))?;
    put_header(maker, pair, says, &mut packet)?;
    Ok(packet)
}

/// Puts the header in front of the data.
fn put_header<P: Pkt>(
    maker: &mut P::Maker,
    pair: &SocketPair,
    says: &Heard,
    packet: &mut P,
) -> Result<(), NoMemory>
    requires { len (P.plain packet.old) ≤ 9000 }
    ensures { OnOk result (P.plain packet.new ≡ push_front TcpItem (tcp_bytes (head_of pair.now says.now (checksum_of pair.now says.now (P.plain packet.old).bytes))) (P.plain packet.old)) }
{
    let tcp = header_of(pair, says, packet);
    let mut bytes = [0; LONGEST];
    let header = spell(&tcp, &mut bytes);
    packet.push_front(maker, Kind::Tcp, header)
}

/// Writes a header to the front of a buffer.
fn spell<'a>(tcp: &Tcp, buffer: &'a mut [u8; LONGEST]) -> &'a [u8]
    ensures value { result.now ≡ tcp_bytes tcp.now }
    ensures short { length result.now ≤ 24 }
{
    let header = &mut buffer[..tcp.written_size()];
    tcp.write(header);
    header
}

/// The header of some data, with its checksum.
fn header_of<P: Pkt>(pair: &SocketPair, says: &Heard, packet: &P) -> Tcp
    requires { len (P.plain packet.now) ≤ 9000 }
    ensures { result ≡ head_of pair.now says.now (checksum_of pair.now says.now (P.plain packet.now).bytes) }
{
    let mut tcp = unsummed(pair, says);
    tcp.checksum = checksum_of(pair, &tcp, packet);
    tcp
}

/// The header that says this, with 0 in the checksum's place.
fn unsummed(pair: &SocketPair, says: &Heard) -> Tcp
    ensures { result ≡ head_of pair.now says.now 0 }
{
    Tcp {
        sport: pair.port,
        dport: pair.other_port,
        seq: says.seq,
        ack: says.ack,
        flags: flags_of(says),
        window: says.window,
        checksum: 0,
        mss: says.mss,
        size: if says.mss.is_some() { 24 } else { 20 },
    }
}

fn flags_of(says: &Heard) -> u8
    ensures { result ≡ flags_of says.now }
{
    flag(1, says.fin) + flag(2, says.syn) + flag(4, says.rst) + flag(16, says.has_ack)
}

fn flag(bit: u8, stands: bool) -> u8
    ensures value { result ≡ flag bit stands }
    ensures small { result ≤ bit }
{
    if stands { bit } else { 0 }
}

/// The checksum over pseudo-header, header and data.
fn checksum_of<P: Pkt>(pair: &SocketPair, tcp: &Tcp, packet: &P) -> u16
    requires { len (P.plain packet.now) ≤ 9000 }
    ensures { result ≡ checksum ((pseudo_header pair.now.addr pair.now.other_addr 6 (written_size tcp.now.mss + len (P.plain packet.now)) ++ tcp_bytes tcp.now) ++ (P.plain packet.now).bytes) }
{
    let length = (tcp.written_size() as u32 + packet.len()) as u16;
    let mut bytes = [0; LONGEST];
    let header = spell(tcp, &mut bytes);
    checksum_behind_header(
        &pseudo_header(pair.addr, pair.other_addr, PROTOCOL, length),
        header,
        packet,
    )
}
