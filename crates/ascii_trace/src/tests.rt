//! Lines as they stand in the file of a run.

use crate::write_line;
use pkt_face::{Line, Pkt, PlainPkt, Sign};
use sim_base::{Key, Kind, NodeId, Time, Uid};
use std::test::Fail;

const NODE: NodeId = NodeId(0);

/// The echo of 1024 bytes over one link of 5 Mbit/s and 2 ms.
const ECHO: &str = "\
+ 2.000000000 n0 i0 p0.0 1054 ppp:2 ipv4:20 udp:8 payload:1024
- 2.000000000 n0 i0 p0.0 1054 ppp:2 ipv4:20 udp:8 payload:1024
r 2.003686400 n1 i0 p0.0 1054 ppp:2 ipv4:20 udp:8 payload:1024
+ 2.003686400 n1 i0 p0.0 1054 ppp:2 ipv4:20 udp:8 payload:1024
- 2.003686400 n1 i0 p0.0 1054 ppp:2 ipv4:20 udp:8 payload:1024
r 2.007372800 n0 i0 p0.0 1054 ppp:2 ipv4:20 udp:8 payload:1024
";

fn line(sign: Sign, time: u64, node: u32, packet: PlainPkt) -> Line<PlainPkt> {
    let key = Key {
        time: Time(time),
        node: NODE,
        sent: Time(0),
        by: NODE,
        count: 0,
    };
    Line {
        key,
        index: 0,
        node: NodeId(node),
        iface: 0,
        sign,
        packet,
    }
}

#[test]
fn echo_has_six_lines(rt: HostRuntime) -> Result<(), Fail> {
    let mut maker = PlainPkt::maker(rt.alloc());
    let uid = Uid {
        node: NODE,
        count: 0,
    };
    let mut frame = PlainPkt::zeros(rt.alloc(), &mut maker, uid, 1024)?;
    assert_eq!(rt; frame.len(), 1024);
    frame.push_front(&mut maker, Kind::Udp, &[0; 8])?;
    assert_eq!(rt; frame.len(), 1032);
    frame.push_front(&mut maker, Kind::Ipv4, &[0; 20])?;
    assert_eq!(rt; frame.len(), 1052);
    frame.push_front(&mut maker, Kind::Ppp, &[0; 2])?;
    let rows = [
        (Sign::Enqueue, 2_000_000_000, 0),
        (Sign::Dequeue, 2_000_000_000, 0),
        (Sign::Save, 2_000_000_000, 0),
        (Sign::Receive, 2_003_686_400, 1),
        (Sign::Enqueue, 2_003_686_400, 1),
        (Sign::Dequeue, 2_003_686_400, 1),
        (Sign::Receive, 2_007_372_800, 0),
    ];
    let mut text = Vec::new(rt.alloc());
    for (sign, time, node) in rows {
        let packet = frame.copy(&mut maker)?;
        write_line(&line(sign, time, node, packet), &mut text)?;
    }
    assert_eq!(rt; text.as_slice(), ECHO.as_bytes());
    Ok(())
}

/// An item of which bytes were cut has both cuts behind it, and a time has nine digits behind the point.
#[test]
fn cuts_and_fractions_are_written(rt: HostRuntime) -> Result<(), Fail> {
    let mut maker = PlainPkt::maker(rt.alloc());
    let uid = Uid {
        node: NodeId(999),
        count: u64::MAX,
    };
    let mut packet = PlainPkt::zeros(rt.alloc(), &mut maker, uid, 512)?;
    assert_eq!(rt; packet.len(), 512);
    packet.cut(480, 488);
    let mut text = Vec::new(rt.alloc());
    write_line(&line(Sign::Drop, 1_012_000_000_007, 12, packet), &mut text)?;
    let expected = "d 1012.000000007 n12 i0 p999.18446744073709551615 8 payload:512[480,24]\n";
    assert_eq!(rt; text.as_slice(), expected.as_bytes());
    Ok(())
}
