//! Datagrams between ports: RFC 768.

ghost use Rattle.std.specs.Prelude.{◌≡◌, ◌≤◌, ◌<◌, ◌++◌, OnOk, IfOk, IfSome, slice_range};
ghost use Rattle.sim_base.specs.Packet.{len};
ghost use Rattle.header_forms.specs.Checksum.{checksum};
ghost use Rattle.header_forms.specs.Udp.{udp_bytes, udp_of};
ghost use Rattle.layer_words.specs.Acts.{Appends};
ghost use Rattle.layer_words.specs.Covered.{pseudo_header};
ghost use Rattle.udp_icmp.specs.Seen.{plain_act};
ghost use Rattle.udp_icmp.specs.Udp.{delivered, checked, is_intact, never_zero, udp_arrived, udp_checksum, udp_head, udp_sent};

use crate::ports::{Act, Ports};
use header_forms::{Ipv4, Udp};
use layer_words::{checksum_behind, checksum_behind_header, pseudo_header};
use pkt_face::Pkt;
use sim_base::{Kind, NoMemory};

/// The protocol's number in IPv4.
const PROTOCOL: u8 = 17;

/// The length of a header.
const HEADER: u32 = 8;

/// Puts the header in front of a payload. Where no route gives it a source it is dropped.
pub(crate) fn send<P: Pkt>(
    src: Option<u32>,
    sport: u16,
    dst: u32,
    port: u16,
    mut packet: P,
    maker: &mut P::Maker,
) -> Result<Act<P>, NoMemory>
    requires { len (P.plain packet) ≤ 65507 }
    ensures { IfOk result (λ act. plain_act P.plain act ≡ udp_sent src sport dst port (P.plain packet)) }
{
    let Some(src) = src else {
        return Ok(Act::Dropped);
    };
    let bytes = header_of(src, dst, sport, port, &packet);
    packet.push_front(maker, Kind::Udp, &bytes)?;
    Ok(Act::ToIp {
        src: Some(src),
        dst,
        proto: PROTOCOL,
        packet,
    })
}

/// The header of a payload, with its checksum.
fn header_of<P: Pkt>(src: u32, dst: u32, sport: u16, port: u16, packet: &P) -> [u8; 8]
    requires { len (P.plain packet.now) ≤ 65507 }
    ensures { result ≡ udp_bytes (udp_head sport port (P.plain packet.now) (udp_checksum src dst sport port (P.plain packet.now))) }
{
    let mut udp = Udp {
        sport,
        dport: port,
        length: (HEADER + packet.len()) as u16,
        checksum: 0,
    };
    udp.checksum = never_zero(checksum_of(src, dst, udp, packet));
    let mut bytes = [0; 8];
    udp.write(&mut bytes);
    bytes
}

/// The checksum over pseudo-header, header and payload.
fn checksum_of<P: Pkt>(src: u32, dst: u32, udp: Udp, packet: &P) -> u16
    ensures { result ≡ checksum ((pseudo_header src dst 17 udp.length ++ udp_bytes udp) ++ (P.plain packet.now).bytes) }
{
    let mut header = [0; 8];
    udp.write(&mut header);
    checksum_behind_header(
        &pseudo_header(src, dst, PROTOCOL, udp.length),
        &header,
        packet,
    )
}

/// A checksum that is 0 is sent as all ones.
fn never_zero(sum: u16) -> u16
    ensures { result ≡ never_zero sum }
{
    if sum == 0 { u16::MAX } else { sum }
}

/// Hands the data of a datagram to the application at its port.
pub(crate) fn arrive<P: Pkt>(
    ports: &Ports,
    head: Ipv4,
    mut packet: P,
    out: &mut Vec<Act<P>>,
) -> Result<(), NoMemory>
    ensures { OnOk result (Appends (plain_act P.plain) out.old.items out.new.items (udp_arrived ports.now head (P.plain packet))) }
{
    let Some(udp) = read_header(&packet) else {
        out.push(Act::Dropped)?;
        return Ok(());
    };
    if packet.len() < u32::from(udp.length) {
        out.push(Act::Dropped)?;
        return Ok(());
    }
    packet.cut(0, u32::from(udp.length));
    check(ports, head, udp, packet, out)
}

/// Drops a datagram whose checksum is wrong.
fn check<P: Pkt>(
    ports: &Ports,
    head: Ipv4,
    udp: Udp,
    packet: P,
    out: &mut Vec<Act<P>>,
) -> Result<(), NoMemory>
    requires { 8 ≤ len (P.plain packet) }
    ensures { OnOk result (Appends (plain_act P.plain) out.old.items out.new.items (checked ports.now head udp (P.plain packet))) }
{
    if !is_intact(head, udp, &packet) {
        out.push(Act::Dropped)?;
        return Ok(());
    }
    deliver(head, udp, packet, ports.app_at_port(udp.dport), out)
}

/// Whether a datagram has no checksum, or the right one.
fn is_intact<P: Pkt>(head: Ipv4, udp: Udp, packet: &P) -> bool
    ensures { result ≡ is_intact head udp (P.plain packet.now) }
{
    udp.checksum == 0
        || checksum_behind(
            &pseudo_header(head.src, head.dst, PROTOCOL, udp.length),
            packet,
        ) == 0
}

/// Hands the data to the application, or tells the sender that there is none.
fn deliver<P: Pkt>(
    head: Ipv4,
    udp: Udp,
    mut packet: P,
    app: Option<u32>,
    out: &mut Vec<Act<P>>,
) -> Result<(), NoMemory>
    requires { 8 ≤ len (P.plain packet) }
    ensures { OnOk result (Appends (plain_act P.plain) out.old.items out.new.items (delivered head udp (P.plain packet) app)) }
{
    let Some(app) = app else {
        out.push(Act::Report {
            kind: 3,
            code: 3,
            head,
            packet,
        })?;
        out.push(Act::Dropped)?;
        return Ok(());
    };
    packet.pop_front(HEADER, Kind::Udp);
    out.push(Act::ToApp {
        app,
        src: head.src,
        sport: udp.sport,
        packet,
    })?;
    Ok(())
}

/// The header that a packet begins with.
fn read_header<P: Pkt>(packet: &P) -> Option<Udp>
    ensures value { result ≡ udp_of (slice_range (P.plain packet.now).bytes 0 8) }
    ensures length { IfSome result (λ udp. 8 ≤ udp.length) }
{
    if packet.len() < HEADER {
        return None;
    }
    let mut bytes = [0; 8];
    packet.peek(0, &mut bytes);
    Udp::read(&bytes).ok()
}
