//! Echo, and reports of what became of a packet: RFC 792.

ghost use Rattle.std.specs.Prelude.{◌≡◌, ◌+◌, ◌≤◌, ◌<◌, OnOk, IfOk, IfSome, length, slice_range, slice_index};
ghost use Rattle.sim_base.specs.Packet.{len, from_bytes};
ghost use Rattle.header_forms.specs.Checksum.{checksum};
ghost use Rattle.header_forms.specs.Icmp.{icmp_bytes, icmp_of};
ghost use Rattle.layer_words.specs.Acts.{Appends};
ghost use Rattle.udp_icmp.specs.Icmp.{given, icmp_arrived, icmp_checksum, icmp_head, is_icmp_error, message, ping_sent, quoted, replied, reported, understood};
ghost use Rattle.udp_icmp.specs.Seen.{plain_act};

use crate::ports::{Act, Ports};
use header_forms::{Icmp, Ipv4};
use layer_words::{checksum_behind, next_uid};
use pkt_face::Pkt;
use sim_base::{Kind, NoMemory, Numbers, Uid};
use std::alloc::Global;

/// The protocol's number in IPv4.
const PROTOCOL: u8 = 1;

/// The length of a header, and how many bytes behind an IPv4 header a report quotes.
const HEADER: u32 = 8;

const QUOTED: u32 = 8;

/// The kinds of an echo reply and of an echo request.
const REPLY: u8 = 0;

const REQUEST: u8 = 8;

/// Makes a payload an echo request.
pub(crate) fn ping<P: Pkt>(
    dst: u32,
    rest: u32,
    packet: P,
    maker: &mut P::Maker,
) -> Result<Act<P>, NoMemory>
    requires { len (P.plain packet) ≤ 65507 }
    ensures { IfOk result (λ act. plain_act P.plain act ≡ ping_sent dst rest (P.plain packet)) }
{
    Ok(Act::ToIp {
        src: None,
        dst,
        proto: PROTOCOL,
        packet: message(REQUEST, 0, rest, packet, maker)?,
    })
}

/// Answers an echo request, and hands a reply to its `ping`.
pub(crate) fn arrive<P: Pkt>(
    ports: &Ports,
    head: Ipv4,
    packet: P,
    maker: &mut P::Maker,
    numbers: &mut Numbers,
    out: &mut Vec<Act<P>>,
) -> Result<(), NoMemory>
    requires { len (P.plain packet) ≤ 65515 }
    ensures numbers { OnOk result (numbers.new ≡ (icmp_arrived ports.now head (P.plain packet) numbers.old).numbers) }
    ensures acts { OnOk result (Appends (plain_act P.plain) out.old.items out.new.items (icmp_arrived ports.now head (P.plain packet) numbers.old).acts) }
{
    let Some(icmp) = read_header(&packet) else {
        out.push(Act::Dropped)?;
        return Ok(());
    };
    if checksum_behind(&[], &packet) != 0 {
        out.push(Act::Dropped)?;
        return Ok(());
    }
    understand(ports, head, icmp, packet, maker, numbers, out)
}

fn understand<P: Pkt>(
    ports: &Ports,
    head: Ipv4,
    icmp: Icmp,
    packet: P,
    maker: &mut P::Maker,
    numbers: &mut Numbers,
    out: &mut Vec<Act<P>>,
) -> Result<(), NoMemory>
    requires some { 8 ≤ len (P.plain packet) }
    requires fits { len (P.plain packet) ≤ 65515 }
    ensures numbers { OnOk result (numbers.new ≡ (understood ports.now head icmp (P.plain packet) numbers.old).numbers) }
    ensures acts { OnOk result (Appends (plain_act P.plain) out.old.items out.new.items (understood ports.now head icmp (P.plain packet) numbers.old).acts) }
{
    if icmp.kind == REQUEST && icmp.code == 0 {
        return reply(head, icmp, &packet, maker, numbers, out);
    }
    if icmp.kind == REPLY && icmp.code == 0 {
        let number = (icmp.rest / 0x1_0000) as u16;
        return give(head, packet, ports.ping_with(number), out);
    }
    Ok(())
}

/// Sends the data back in a new packet, from the address that the request was sent to.
fn reply<P: Pkt>(
    head: Ipv4,
    icmp: Icmp,
    request: &P,
    maker: &mut P::Maker,
    numbers: &mut Numbers,
    out: &mut Vec<Act<P>>,
) -> Result<(), NoMemory>
    requires some { 8 ≤ len (P.plain request.now) }
    requires fits { len (P.plain request.now) ≤ 65515 }
    ensures numbers { OnOk result (numbers.new ≡ (replied head icmp (P.plain request.now) numbers.old).numbers) }
    ensures acts { OnOk result (Appends (plain_act P.plain) out.old.items out.new.items (replied head icmp (P.plain request.now) numbers.old).acts) }
{
    let alloc = *out.allocator();
    let data = bytes_between(request, HEADER, request.len(), alloc)?;
    let packet = new_packet(next_uid(numbers), &data, alloc, maker)?;
    out.push(Act::ToIp {
        src: Some(head.dst),
        dst: head.src,
        proto: PROTOCOL,
        packet: message(REPLY, 0, icmp.rest, packet, maker)?,
    })?;
    Ok(())
}

/// Some of a packet's bytes.
fn bytes_between<P: Pkt>(packet: &P, from: u32, to: u32, alloc: Global) -> Result<Vec<u8>, NoMemory>
    requires order { from ≤ to }
    requires inside { to ≤ len (P.plain packet.now) }
    ensures value { IfOk result (λ bytes. bytes.items ≡ slice_range (P.plain packet.now).bytes from to) }
    ensures size { IfOk result (λ bytes. length bytes.items + from ≡ to) }
{
    let size = (to - from) as usize;
    let mut bytes = vec![in alloc; 0; size]?;
    packet.peek(from, &mut bytes);
    Ok(bytes)
}

/// A new packet of some bytes.
fn new_packet<P: Pkt>(
    uid: Uid,
    bytes: &[u8],
    alloc: Global,
    maker: &mut P::Maker,
) -> Result<P, NoMemory>
    requires { length bytes.now ≤ 65535 }
    ensures value { IfOk result (λ packet. P.plain packet ≡ from_bytes uid bytes.now) }
    ensures size { IfOk result (λ packet. len (P.plain packet) ≡ length bytes.now) }
{
    P::from_bytes(alloc, maker, uid, bytes)
}

/// Hands the data of a reply to its `ping`, if it stands on this node.
fn give<P: Pkt>(
    head: Ipv4,
    mut packet: P,
    app: Option<u32>,
    out: &mut Vec<Act<P>>,
) -> Result<(), NoMemory>
    requires { 8 ≤ len (P.plain packet) }
    ensures { OnOk result (Appends (plain_act P.plain) out.old.items out.new.items (given head (P.plain packet) app)) }
{
    let Some(app) = app else {
        return Ok(());
    };
    packet.pop_front(HEADER, Kind::Icmp);
    out.push(Act::ToApp {
        app,
        src: head.src,
        sport: 0,
        packet,
    })?;
    Ok(())
}

/// Tells the source of a packet what became of it, unless the packet is a later fragment or a report.
pub(crate) fn report<P: Pkt>(
    kind: u8,
    code: u8,
    head: Ipv4,
    packet: &P,
    maker: &mut P::Maker,
    numbers: &mut Numbers,
    out: &mut Vec<Act<P>>,
) -> Result<(), NoMemory>
    ensures numbers { OnOk result (numbers.new ≡ (reported kind code head (P.plain packet.now) numbers.old).numbers) }
    ensures acts { OnOk result (Appends (plain_act P.plain) out.old.items out.new.items (reported kind code head (P.plain packet.now) numbers.old).acts) }
{
    if head.offset != 0 || is_error(head.proto, packet) {
        return Ok(());
    }
    let quote = quote(head, packet, next_uid(numbers), *out.allocator(), maker)?;
    out.push(Act::ToIp {
        src: None,
        dst: head.src,
        proto: PROTOCOL,
        packet: message(kind, code, 0, quote, maker)?,
    })?;
    Ok(())
}

/// A new packet with the header as it was received, and the first bytes behind it.
fn quote<P: Pkt>(
    head: Ipv4,
    packet: &P,
    uid: Uid,
    alloc: Global,
    maker: &mut P::Maker,
) -> Result<P, NoMemory>
    ensures value { IfOk result (λ quote. P.plain quote ≡ from_bytes uid (quoted head (P.plain packet.now))) }
    ensures short { IfOk result (λ quote. len (P.plain quote) ≤ 28) }
{
    let mut header = [0; 20];
    head.write(&mut header);
    let mut bytes = Vec::from_slice(alloc, &header)?;
    let data = bytes_between(packet, 0, packet.len().min(QUOTED), alloc)?;
    bytes.extend_from_slice(&data)?;
    let quote = new_packet(uid, &bytes, alloc, maker)?;
    Ok(quote)
}

/// Whether a packet is a message of ICMP other than an echo.
fn is_error<P: Pkt>(proto: u8, packet: &P) -> bool
    ensures { result ≡ is_icmp_error proto (P.plain packet.now) }
{
    proto == PROTOCOL
        && {
            let kind = first_byte(packet);
            kind != REPLY && kind != REQUEST
        }
}

/// The first byte of a packet, or 0 where it has none.
fn first_byte<P: Pkt>(packet: &P) -> u8
    ensures { result ≡ slice_index (P.plain packet.now).bytes 0 }
{
    let mut byte = [0];
    if packet.len() > 0 {
        packet.peek(0, &mut byte);
    }
    byte[0]
}

/// Puts the header of a message in front of its data.
fn message<P: Pkt>(
    kind: u8,
    code: u8,
    rest: u32,
    mut packet: P,
    maker: &mut P::Maker,
) -> Result<P, NoMemory>
    requires { len (P.plain packet) ≤ 65535 }
    ensures { IfOk result (λ whole. P.plain whole ≡ message kind code rest (P.plain packet)) }
{
    let bytes = header_of(kind, code, rest, &packet);
    packet.push_front(maker, Kind::Icmp, &bytes)?;
    Ok(packet)
}

/// The header of a message, with its checksum.
fn header_of<P: Pkt>(kind: u8, code: u8, rest: u32, packet: &P) -> [u8; 8]
    ensures { result ≡ icmp_bytes (icmp_head kind code rest (icmp_checksum kind code rest (P.plain packet.now))) }
{
    let mut icmp = Icmp {
        kind,
        code,
        checksum: 0,
        rest,
    };
    let mut bytes = [0; 8];
    icmp.write(&mut bytes);
    icmp.checksum = checksum_behind(&bytes, packet);
    icmp.write(&mut bytes);
    bytes
}

/// The header that a message begins with.
fn read_header<P: Pkt>(packet: &P) -> Option<Icmp>
    ensures value { result ≡ icmp_of (slice_range (P.plain packet.now).bytes 0 8) }
    ensures long { IfSome result (λ _. 8 ≤ len (P.plain packet.now)) }
{
    if packet.len() < HEADER {
        return None;
    }
    let mut bytes = [0; 8];
    packet.peek(0, &mut bytes);
    Icmp::read(&bytes).ok()
}
