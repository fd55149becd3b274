//! A run over packets that refuse ends for want of memory.

use crate::runs::{changed, run_with};
use crate::scenarios::ECHO;
use outside::OpenGate;
use pkt_face::{Pkt, PlainPkt};
use sim_base::{Absent, ByteTag, Item, Kind, NoMemory, TagStop, Uid};
use sim_run::Status;
use std::alloc::Global;
use std::process::Abort;
use std::thread::Threads;

/// The call that is refused: a packet of zeros or of bytes,
const MAKING: u32 = 0;

/// a header in front,
const PUSHING: u32 = 1;

/// a copy.
const COPYING: u32 = 2;

/// A packet of which one call answers `NoMemory`.
#[derive(Drop)]
struct RefusingPkt<P: Pkt, const CALL: u32> {
    packet: P,
}

impl<P: Pkt, const CALL: u32> Pkt for RefusingPkt<P, CALL> {
    type Maker = P::Maker;

    ghost plain = { λ p. P.plain p.packet };

    ghost SharesStore = { λ p q. P.SharesStore p.packet q.packet };

    ghost valid = { λ p. P.valid p.packet };

    fn maker(alloc: Global) -> P::Maker {
        P::maker(alloc)
    }

    fn zeros(
        alloc: Global,
        maker: &mut P::Maker,
        uid: Uid,
        n: u32,
    ) -> Result<RefusingPkt<P, CALL>, NoMemory> {
        if CALL == MAKING {
            return Err(NoMemory);
        }
        let packet = P::zeros(alloc, maker, uid, n)?;
        Ok(RefusingPkt { packet })
    }

    fn from_bytes(
        alloc: Global,
        maker: &mut P::Maker,
        uid: Uid,
        bytes: &[u8],
    ) -> Result<RefusingPkt<P, CALL>, NoMemory> {
        if CALL == MAKING {
            return Err(NoMemory);
        }
        let packet = P::from_bytes(alloc, maker, uid, bytes)?;
        Ok(RefusingPkt { packet })
    }

    fn copy(&mut self, maker: &mut P::Maker) -> Result<RefusingPkt<P, CALL>, NoMemory> {
        if CALL == COPYING {
            return Err(NoMemory);
        }
        let packet = self.packet.copy(maker)?;
        Ok(RefusingPkt { packet })
    }

    fn push_front(
        &mut self,
        maker: &mut P::Maker,
        kind: Kind,
        bytes: &[u8],
    ) -> Result<(), NoMemory> {
        if CALL == PUSHING {
            return Err(NoMemory);
        }
        self.packet.push_front(maker, kind, bytes)
    }

    fn push_back(
        &mut self,
        maker: &mut P::Maker,
        kind: Kind,
        bytes: &[u8],
    ) -> Result<(), NoMemory> {
        self.packet.push_back(maker, kind, bytes)
    }

    fn cut(&mut self, from: u32, to: u32) {
        self.packet.cut(from, to);
    }

    fn join(&mut self, maker: &mut P::Maker, other: &RefusingPkt<P, CALL>) -> Result<(), NoMemory> {
        self.packet.join(maker, &other.packet)
    }

    fn add_byte_tag(&mut self, tag: u32, value: u64) -> Result<(), NoMemory> {
        self.packet.add_byte_tag(tag, value)
    }

    fn add_tag(&mut self, tag: u32, value: u64) -> Result<(), TagStop> {
        self.packet.add_tag(tag, value)
    }

    fn replace_tag(&mut self, tag: u32, value: u64) -> Result<(), NoMemory> {
        self.packet.replace_tag(tag, value)
    }

    fn remove_tag(&mut self, tag: u32) -> Result<u64, Absent> {
        self.packet.remove_tag(tag)
    }

    fn tag(&self, tag: u32) -> Option<u64> {
        self.packet.tag(tag)
    }

    fn pop_front(&mut self, n: u32, kind: Kind) -> bool {
        self.packet.pop_front(n, kind)
    }

    fn pop_back(&mut self, n: u32, kind: Kind) -> bool {
        self.packet.pop_back(n, kind)
    }

    fn peek(&self, at: u32, buf: &mut [u8]) {
        self.packet.peek(at, buf);
    }

    fn len(&self) -> u32 {
        self.packet.len()
    }

    fn uid(&self) -> Uid {
        self.packet.uid()
    }

    fn items(&self) -> &[Item] {
        self.packet.items()
    }

    fn byte_tags(&self) -> &[ByteTag] {
        self.packet.byte_tags()
    }
}

/// Asserts that the echo over packets that refuse a call ends for want of memory.
fn assert_no_memory<P: Pkt>(rt: &(impl Abort + Threads + Sync), alloc: Global) {
    let input = changed(rt, alloc, ECHO, "ascii = false", "ascii = true");
    let (status, _, sink) = run_with::<P, _, _>(
        rt,
        alloc,
        &["run"],
        input.as_bytes(),
        (&[], &[]),
        &OpenGate,
    );
    assert_eq!(rt; status, Status::NoMemory);
    assert!(rt; sink.bytes().is_empty());
}

#[test]
fn a_run_over_packets_that_refuse_ends_for_want_of_memory(rt: HostRuntime) {
    assert_no_memory::<RefusingPkt<PlainPkt, MAKING>>(&rt, rt.alloc());
    assert_no_memory::<RefusingPkt<PlainPkt, PUSHING>>(&rt, rt.alloc());
    assert_no_memory::<RefusingPkt<PlainPkt, COPYING>>(&rt, rt.alloc());
}
