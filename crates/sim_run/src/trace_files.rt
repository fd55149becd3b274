//! The files of a run, as the kernel sees them: each line that saves a packet goes to the capture of its interface, and
//! each other line to the text trace.

ghost use Rattle.std.specs.Prelude.{◌≡◌, ◌+◌, ◌≤◌, ◌^◌, false, length, OnOk, OnErr};
ghost use Rattle.outside.specs.Causes.{HasCause};
ghost use Rattle.sim_run.specs.Captures.{is_save};
ghost use Rattle.sim_run.specs.Pieces.{HasGrownByFronts, HasGrownFrom};

use crate::output::append_all;
use crate::pieces::Pieces;
use ascii_trace::Entry;
use outside::{StoreStop, TraceStore};
use pkt_face::{Line, Pkt, Sign};
use trace_merge::LineOut;

/// Puts each piece behind its file, the first of which has this number.
pub fn append_pieces<F: TraceStore>(
    store: &mut F,
    first: u64,
    pieces: &Pieces,
) -> Result<(), StoreStop>
    requires made { first + length pieces.now.traces ≤ F.made store.old }
    requires numbers { first + length pieces.now.traces ≤ 2 ^ 64 }
    ensures ok { OnOk result (HasGrownFrom (F.files store.old) (F.files store.new) first pieces.now.pieces) }
    ensures err { OnErr result (HasGrownByFronts (F.files store.old) (F.files store.new) first pieces.now.pieces) }
    ensures made { F.made store.new ≡ F.made store.old }
    ensures cause { HasCause StoreStop.Failed (F.faults store.old) (F.faults store.new) result }
{
    for place in 0..pieces.count() {
        match append_all(store, first + place as u64, pieces.piece(place)) {
            Ok(()) => {}
            Err(stop) => return Err(stop),
        }
    }
    Ok(())
}

/// The files of a store to which lines are written. The first has the number `first`; `frame` is room for the bytes of
/// one packet.
#[derive(Drop)]
pub struct TraceFiles<'a, F: TraceStore> {
    pub store: &'a mut F,
    pub first: u64,
    pub pieces: &'a mut Pieces,
    pub frame: &'a mut Vec<u8>,
    pub failed: bool,
}

impl<'a, F: TraceStore> TraceFiles<'a, F> {
    ghost use Rattle.sim_run.specs.Pieces.{takes_no_more};

    /// Over the files that were opened in this store.
    pub fn new(
        store: &'a mut F,
        first: u64,
        pieces: &'a mut Pieces,
        frame: &'a mut Vec<u8>,
    ) -> TraceFiles<'a, F>
        requires made { first + length pieces.old.traces ≤ F.made store.old }
        requires numbers { first + length pieces.old.traces ≤ 2 ^ 64 }
        ensures same_reference { result.store.ghost_name ≡ store.entry.ghost_name }
        ensures store { result.store.now ≡ store.old }
        ensures first { result.first ≡ first }
        ensures traces { result.pieces.now.traces ≡ pieces.old.traces }
        ensures going { takes_no_more result.failed result.first (length result.pieces.now.traces) (F.made result.store.now) ≡ false }
    {
        TraceFiles {
            store,
            first,
            pieces,
            frame,
            failed: false,
        }
    }
}

impl<'a, F: TraceStore, P: Pkt> LineOut<P> for TraceFiles<'a, F> {
    ghost use Rattle.std.specs.Prelude.{length};
    ghost use Rattle.sim_run.specs.Pieces.{Made, takes_no_more, HaveWritten};
    ghost use Rattle.sim_run.specs.Grown.{written-none};

    ghost Making = { Made };

    ghost made_with = { λ s. record { store = s.store.ghost_name; first = s.first; traces = s.pieces.now.traces } };

    ghost has_failed = { λ s. takes_no_more s.failed s.first (length s.pieces.now.traces) (F.made s.store.now) };

    ghost HasPut = { λ start s lines. HaveWritten s.failed s.pieces.now.traces s.first (F.files start.store.now) (F.files s.store.now) lines };

    ghost faults = { λ s. F.faults s.store.now };

    ghost begins = { λ s. written-none s.failed s.pieces.now.traces s.first (F.files s.store.now) };

    fn put(&mut self, lines: &[Line<P>]) -> Result<(), StoreStop> {
        self.failed = true;
        self.pieces.clear();
        for line in lines {
            let Some(place) = self.pieces.place_for(line.sign, line.node, line.iface) else {
                continue;
            };
            if saves(line.sign) {
                let Ok(()) = self.frame.resize(line.packet.len() as usize, 0) else {
                    return Err(StoreStop::NoMemory);
                };
                let frame = self.frame.as_mut_slice();
                line.packet.peek(0, frame);
                let Ok(()) = self.pieces.add_packet(place, line.key.time, frame) else {
                    return Err(StoreStop::NoMemory);
                };
            } else {
                let entry = Entry {
                    sign: line.sign,
                    time: line.key.time,
                    node: line.node,
                    iface: line.iface,
                    uid: line.packet.uid(),
                    length: line.packet.len(),
                };
                let Ok(()) = self.pieces.add_text(place, &entry, line.packet.items()) else {
                    return Err(StoreStop::NoMemory);
                };
            }
        }
        append_pieces(self.store, self.first, self.pieces)?;
        self.failed = false;
        Ok(())
    }
}

/// Whether a line saves a packet.
fn saves(sign: Sign) -> bool
    ensures { result ≡ is_save sign }
{
    match sign {
        Sign::Save => true,
        Sign::Enqueue | Sign::Dequeue | Sign::Drop | Sign::Receive => false,
    }
}
