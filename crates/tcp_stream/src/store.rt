//! The bytes that a sink holds: what came out of order waits until the hole before it is filled.

ghost use Rattle.std.specs.Prelude.{◌≡◌, ◌+◌, ◌-◌, ◌<◌, ◌^◌, ◌++◌, ℕ, length, take, drop, max, nat_le, IfOk, OnErr, OnOk, IfSome, IfNone, [], ◌∷◌};
ghost use Rattle.std.specs.VecDeque.{deque_len};
ghost use Rattle.std.specs.FinMap.{empty, retain_keys};
ghost use Rattle.tcp_stream.specs.Held.{front, taken_in, window};
ghost use Rattle.tcp_stream.specs.Pieces.{behind, joined, merge, piece_at};

use crate::cuts::{behind_first, first_of};
use crate::piece::Piece;
use sim_base::NoMemory;
use std::alloc::Global;
use std::collections::VecDeque;
use std::marker::Model;
use std::mem;

/// How many positions, from the next one on, a sink takes in.
pub const WINDOW: u64 = 65535;

/// The next position that a sink waits for, and the bytes that it holds from there on.
#[derive(Drop)]
pub struct ReceiveStore {
    next: u64,
    pieces: VecDeque<Piece>,
}

impl Model for ReceiveStore {
    ghost use Rattle.std.specs.Prelude.{◌+◌, ◌<◌, ◌^◌, ℕ};
    ghost use Rattle.std.specs.Coded.{coded_ℕ, coded×};
    ghost use Rattle.std.specs.FinMap.{code};
    ghost use Rattle.tcp_stream.specs.Held.{Held, window};
    ghost use Rattle.tcp_stream.specs.Pieces.{InOrder, held_of};

    ghost Value = { ℕ × Held };

    ghost coded = { coded× coded_ℕ (code coded_ℕ coded_ℕ) };

    ghost view = { λ s. (s.next, held_of s.pieces.items) };

    ghost invariant = { λ s. (s.next < 2 ^ 63) × InOrder s.next (s.next + window) s.pieces.items };
}

impl ReceiveStore {
    /// An empty store that waits for a position.
    pub fn new(alloc: Global, next: u64) -> Self
        requires { next < 2 ^ 63 }
        ensures { result ≡ (next, empty) }
    {
        ReceiveStore {
            next,
            pieces: VecDeque::new(alloc),
        }
    }

    /// The position that the store waits for.
    pub fn next(&self) -> u64
        ensures value { result ≡ self.now.0 }
        ensures small { result < 2 ^ 63 }
    {
        self.next
    }

    /// Holds the bytes of a segment at those positions of the window that have none yet.
    pub fn take_in(&mut self, alloc: Global, position: u64, bytes: &[u8]) -> Result<(), NoMemory>
        requires { position + length bytes.now < 2 ^ 63 }
        ensures { OnOk result (self.new ≡ (self.old.0, taken_in self.old.0 self.old.1 position bytes.now)) }
    {
        let bytes = behind_first(bytes, self.next.saturating_sub(position));
        let start = position.max(self.next);
        let bytes = first_of(bytes, (self.next + WINDOW).saturating_sub(start));
        merge_in(alloc, &mut self.pieces, start, bytes)?;
        Ok(())
    }

    /// Takes out the bytes that are held from the next position on without a hole, and waits for the one behind them.
    pub fn take_front(&mut self, alloc: Global) -> Result<Vec<u8>, NoMemory>
        ensures bytes { IfOk result (λ bytes. bytes.items ≡ front window self.old.1 self.old.0) }
        ensures after { IfOk result (λ bytes. self.new ≡ (
          self.old.0 + length bytes.items,
          retain_keys self.old.1 (λ p. nat_le (self.old.0 + length bytes.items) p),
        )) }
    {
        let mut bytes = Vec::new(alloc);
        while let Some(piece) = pop_at(&mut self.pieces, self.next) {
            self.next = piece.end();
            append(&mut bytes, piece.into_bytes())?;
        }
        Ok(bytes)
    }
}

/// Adds a piece with these bytes, if there are any.
fn push_piece(
    alloc: Global,
    pieces: &mut VecDeque<Piece>,
    start: u64,
    bytes: &[u8],
) -> Result<(), NoMemory>
    requires { start + length bytes.now < 2 ^ 63 }
    ensures ok { OnOk result (pieces.new.items ≡ pieces.old.items ++ piece_at start bytes.now) }
    ensures err { OnErr result (pieces.new.items ≡ pieces.old.items) }
{
    if !bytes.is_empty() {
        let piece = Piece::new(alloc, start, bytes)?;
        pieces.push_back(piece)?;
    }
    Ok(())
}

/// Puts those new bytes that lie in the holes between the pieces among them.
fn merge_in(
    alloc: Global,
    pieces: &mut VecDeque<Piece>,
    start: u64,
    bytes: &[u8],
) -> Result<(), NoMemory>
    requires { start + length bytes.now < 2 ^ 63 }
    ensures ok { OnOk result (pieces.new.items ≡ merge pieces.old.items start bytes.now) }
    ensures err { OnErr result (pieces.new.items ≡ []) }
{
    if pieces.is_empty() {
        return push_piece(alloc, pieces, start, bytes);
    }
    let held = mem::replace(pieces, VecDeque::new(alloc));
    *pieces = merged(alloc, held, start, bytes)?;
    Ok(())
}

/// The pieces with those new bytes that lie in the holes between them.
fn merged(
    alloc: Global,
    mut pieces: VecDeque<Piece>,
    mut start: u64,
    mut bytes: &[u8],
) -> Result<VecDeque<Piece>, NoMemory>
    requires { start + length bytes.now < 2 ^ 63 }
    ensures { IfOk result (λ all. all.items ≡ merge pieces.items start bytes.now) }
{
    let mut all = VecDeque::new(alloc);
    while let Some(piece) = pieces.pop_front() {
        let end = piece.end();
        push_piece(
            alloc,
            &mut all,
            start,
            first_of(bytes, piece.start().saturating_sub(start)),
        )?;
        all.push_back(piece)?;
        bytes = behind_first(bytes, end.saturating_sub(start));
        start = start.max(end);
    }
    push_piece(alloc, &mut all, start, bytes)?;
    Ok(all)
}

/// Takes out the first piece, if it begins at this position.
fn pop_at(pieces: &mut VecDeque<Piece>, position: u64) -> Option<Piece>
    ensures first { IfSome result (λ piece. (piece.start ≡ position) × (pieces.old.items ≡ piece ∷ pieces.new.items)) }
    ensures none { IfNone result ((joined position pieces.old.items ≡ []) × (behind position pieces.old.items ≡ pieces.old.items) × (pieces.new.items ≡ pieces.old.items)) }
    ensures len { IfSome result (λ piece. deque_len pieces.new < deque_len pieces.old) }
{
    match pieces.front() {
        Some(piece) if piece.start() == position => pieces.pop_front(),
        _ => None,
    }
}

/// Puts bytes behind others; where there are none yet they become the whole.
fn append(bytes: &mut Vec<u8>, more: Vec<u8>) -> Result<(), NoMemory>
    ensures { OnOk result (bytes.new.items ≡ bytes.old.items ++ more.items) }
{
    if bytes.is_empty() {
        *bytes = more;
        return Ok(());
    }
    bytes.extend_from_slice(&more)?;
    Ok(())
}
