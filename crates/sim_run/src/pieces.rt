//! What is to be put behind the files of a run: one piece for each trace, and for each line which one is its own.

ghost use Rattle.std.specs.Prelude.{◌≡◌, ℕ, ◌<◌, ◌≤◌, ◌*◌, ◌^◌, ◌++◌, [], IfOk, IfSome, OnOk, length, map, slice_set, slice_index_or, vec_len};
ghost use Rattle.ascii_trace.specs.Text.{entry_text};
ghost use Rattle.pcap_form.specs.Capture.{captured_packet};
ghost use Rattle.sim_run.specs.Places.{Piece};

use crate::places::Places;
use crate::traces::{Trace, write_trace_head};
use ascii_trace::{Entry, write_entry};
use pcap_form::write_bytes;
use pkt_face::Sign;
use sim_base::{Item, NoMemory, NodeId, Time};
use std::alloc::Global;
use std::marker::Model;

/// A piece that is longer than this grows by long stretches.
const SHORT: usize = 4096;

/// How many bytes such a piece gets room for at once: so many that the C library moves a piece that grows further by its
/// pages, and copies nothing.
const STRETCH: usize = 262_144;

/// Traces, and what is to be put behind the file of each. The pieces keep their room.
#[derive(Drop)]
pub struct Pieces {
    traces: Vec<Trace>,
    places: Places,
    pieces: Vec<Vec<u8>>,
}

impl Model for Pieces {
    ghost use Rattle.std.specs.Prelude.{map};
    ghost use Rattle.sim_run.specs.Pieces.{PlainPieces};
    ghost use Rattle.sim_run.specs.Places.{HasPlaces};

    ghost Value = { PlainPieces };

    ghost view = { λ p. record { traces = p.traces.items; pieces = map (λ piece. piece.items) p.pieces.items } };

    ghost invariant = { λ p. HasPlaces p.traces.items p.places p.pieces.items };
}

impl Pieces {
    ghost use Rattle.sim_run.specs.Pieces.{PlainPieces};
    ghost use Rattle.sim_run.specs.Traces.{HaveOwnLines, place_for, trace_head};

    /// The heads of the files, as their first pieces.
    pub fn make(alloc: Global, traces: Vec<Trace>) -> Result<Pieces, NoMemory>
        requires { HaveOwnLines traces.items }
        ensures { IfOk result (λ p. p ≡ record { traces = traces.items; pieces = map trace_head traces.items }) }
    {
        let mut places = Places::make(alloc);
        let mut pieces = Vec::new(alloc);
        for (place, trace) in traces.iter().enumerate() {
            places.note(trace, place)?;
            let mut piece = Vec::new(alloc);
            write_trace_head(trace, &mut piece)?;
            pieces.push(piece)?;
        }
        Ok(Pieces {
            traces,
            places,
            pieces,
        })
    }

    /// How many pieces there are.
    pub fn count(&self) -> usize
        ensures pieces { result ≡ length self.now.pieces }
        ensures traces { result ≡ length self.now.traces }
    {
        self.pieces.len()
    }

    /// Empties the pieces.
    pub fn clear(&mut self)
        ensures { self.new ≡ record self.old { pieces = map (λ t. []) self.old.traces } }
    {
        clear_all(&mut self.pieces);
    }

    /// Which piece a line goes to: that of its interface, where it saves a packet, and else that of the text.
    pub fn place_for(&self, sign: Sign, node: NodeId, iface: u32) -> Option<usize>
        ensures value { result ≡ place_for sign node.0 iface self.now.traces }
        ensures within { IfSome result (λ place. place < length self.now.pieces) }
        ensures own { HaveOwnLines self.now.traces }
    {
        self.places.find(sign, node, iface)
    }

    /// Puts a captured packet behind a piece.
    pub fn add_packet(&mut self, place: usize, time: Time, frame: &[u8]) -> Result<(), NoMemory>
        requires within { place < length self.old.pieces }
        requires time { time.0 < 2 ^ 32 * 10 ^ 9 }
        requires size { length frame.now ≤ 131072 }
        ensures traces { self.new.traces ≡ self.old.traces }
        ensures ok { OnOk result (self.new.pieces ≡ slice_set self.old.pieces place (slice_index_or self.old.pieces place [] ++ captured_packet time.0 frame.now)) }
    {
        let piece = &mut self.pieces[place];
        make_room(piece, frame.len());
        write_bytes(time, frame, piece)
    }

    /// Puts the text of a line behind a piece.
    pub fn add_text(&mut self, place: usize, entry: &Entry, items: &[Item]) -> Result<(), NoMemory>
        requires { place < length self.old.pieces }
        ensures traces { self.new.traces ≡ self.old.traces }
        ensures ok { OnOk result (self.new.pieces ≡ slice_set self.old.pieces place (slice_index_or self.old.pieces place [] ++ entry_text entry.now items.now)) }
    {
        let piece = &mut self.pieces[place];
        write_entry(entry, items, piece)
    }

    /// A piece.
    pub fn piece(&self, place: usize) -> &[u8]
        requires { place < length self.now.pieces }
        ensures { result.now ≡ slice_index_or self.now.pieces place [] }
    {
        &self.pieces[place]
    }
}

/// Empties each piece, and keeps its room.
fn clear_all(pieces: &mut Vec<Vec<u8>>)
    ensures count { vec_len pieces.new ≡ vec_len pieces.old }
    ensures empty { (k : ℕ) (d : Piece) → k < vec_len pieces.new → (slice_index_or pieces.new.items k d).items ≡ [] }
{
    for place in 0..pieces.len() {
        pieces[place].clear();
    }
}

/// Makes room in a piece that is about to grow by some bytes and has grown long. Where memory is wanting there is no more
/// room than before.
fn make_room(piece: &mut Vec<u8>, count: usize)
    ensures { piece.new.items ≡ piece.old.items }
{
    let room = piece.capacity() - piece.len();
    if room < count && SHORT < piece.len() {
        let _ = piece.reserve(STRETCH);
    }
}
