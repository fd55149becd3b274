//! The lines of a run, kept in memory.

ghost use Rattle.std.specs.Prelude.{◌≡◌, [], false};

use crate::out::LineOut;
use outside::StoreStop;
use pkt_face::{Line, Pkt, Sign};
use sim_base::{Key, NodeId, Sequence, Uid};
use std::alloc::Global;

/// What is kept of a line: where it stands, what became of the packet, and the packet's bytes.
#[derive(Drop)]
pub struct KeptLine {
    pub key: Key,
    pub index: u32,
    pub node: NodeId,
    pub iface: u32,
    pub sign: Sign,
    pub uid: Uid,
    pub bytes: Sequence<u8>,
}

/// Lines that are kept as they come. It tells all of a line but the tags and items of its packet.
#[derive(Drop)]
pub struct KeptLines {
    alloc: Global,
    lines: Vec<KeptLine>,
    failed: bool,
}

impl KeptLines {
    ghost use Rattle.trace_merge.specs.Kept.{lines_kept};

    /// Keeps no line yet.
    pub fn make(alloc: Global) -> KeptLines
        ensures lines { lines_kept result ≡ [] }
        ensures going { result.failed ≡ false }
    {
        KeptLines {
            alloc,
            lines: Vec::new(alloc),
            failed: false,
        }
    }

    /// The lines, in the order in which they came.
    pub fn lines(&self) -> &[KeptLine]
        ensures { result.now ≡ lines_kept self.now }
    {
        &self.lines
    }
}

impl<P: Pkt> LineOut<P> for KeptLines {
    ghost use Rattle.trace_merge.specs.Kept.{AreKept, kept-none};

    ghost Making = { Unit {0} };

    ghost made_with = { λ s. tt };

    ghost has_failed = { λ s. s.failed };

    ghost HasPut = { λ start s lines. AreKept s.failed start.lines.items s.lines.items lines };

    ghost faults = { λ s. 0 };

    ghost begins = { λ s. kept-none s.failed s.lines.items };

    fn put(&mut self, lines: &[Line<P>]) -> Result<(), StoreStop> {
        self.failed = true;
        for line in lines {
            let mut bytes = Vec::new(self.alloc);
            let Ok(()) = bytes.resize(line.packet.len() as usize, 0) else {
                return Err(StoreStop::NoMemory);
            };
            line.packet.peek(0, bytes.as_mut_slice());
            let kept = KeptLine {
                key: line.key,
                index: line.index,
                node: line.node,
                iface: line.iface,
                sign: line.sign,
                uid: line.packet.uid(),
                bytes: Sequence::from_vec(bytes),
            };
            let Ok(()) = self.lines.push(kept) else {
                return Err(StoreStop::NoMemory);
            };
        }
        self.failed = false;
        Ok(())
    }
}
