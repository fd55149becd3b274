//! Lines as they are kept.

use crate::{KeptLines, LineOut};
use pkt_face::{Line, Pkt, PlainPkt, Sign};
use sim_base::{Key, NodeId, Time, Uid};

/// The event at which the lines of this test were written.
const AT: Key = Key {
    time: Time(2_000_000_000),
    node: NodeId(1),
    sent: Time(1_000_000_000),
    by: NodeId(0),
    count: 5,
};

#[test]
fn lines_are_kept_as_they_come(rt: HostRuntime) {
    let alloc = rt.alloc();
    let mut maker = PlainPkt::maker(alloc);
    let uid = Uid {
        node: NodeId(0),
        count: 7,
    };
    let packet = PlainPkt::from_bytes(alloc, &mut maker, uid, &[0x00, 0x21, 0x45]).expect(
        &rt, "memory",
    );
    let line = Line {
        key: AT,
        index: 1,
        node: NodeId(1),
        iface: 2,
        sign: Sign::Save,
        packet,
    };
    let mut lines = KeptLines::make(alloc);
    lines.put(&[line]).expect(&rt, "memory");
    let kept = lines.lines();
    assert_eq!(rt; kept.len(), 1);
    assert_eq!(rt; kept[0].key, AT);
    assert_eq!(rt; (kept[0].index, kept[0].iface), (1, 2));
    assert!(rt; kept[0].node == NodeId(1) && kept[0].sign == Sign::Save && kept[0].uid == uid);
    assert_eq!(rt; kept[0].bytes.as_slice(), [0x00, 0x21, 0x45].as_slice());
}
