//! Captured packets as other tools read them.

use crate::write_packet;
use pkt_face::{Pkt, PlainPkt};
use sim_base::{NodeId, Time, Uid};
use std::test::Fail;

/// 0x1_0000 is the first length that is cut: 65,535 bytes are captured of 65,536.
#[test]
fn a_packet_has_its_time_its_lengths_and_its_first_bytes(rt: HostRuntime) -> Result<(), Fail> {
    let uid = Uid {
        node: NodeId(0),
        count: 0,
    };
    let mut maker = PlainPkt::maker(rt.alloc());
    let mut out = Vec::new(rt.alloc());
    let short = PlainPkt::from_bytes(rt.alloc(), &mut maker, uid, &[0x45, 0, 0x2a])?;
    write_packet(Time(2_000_000_001), &short, &mut out)?;
    let head = [2, 0, 0, 0, 1, 0, 0, 0, 3, 0, 0, 0, 3, 0, 0, 0];
    assert_eq!(rt; out.len(), 19);
    assert_eq!(rt; &out[..16], head.as_slice());
    assert_eq!(rt; &out[16..], [0x45, 0, 0x2a].as_slice());
    out.clear();
    let long = PlainPkt::zeros(rt.alloc(), &mut maker, uid, 65_536)?;
    write_packet(Time(0), &long, &mut out)?;
    let lengths = [0xff, 0xff, 0, 0, 0, 0, 1, 0];
    assert_eq!(rt; out.len(), 16 + 65_535);
    assert_eq!(rt; &out[8..16], lengths.as_slice());
    Ok(())
}
