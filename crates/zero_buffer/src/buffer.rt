//! The buffer: its two parts, the zeros between them, and what pushes, cuts and joins do to them.

ghost use Rattle.std.specs.Prelude.{◌≡◌, ◌+◌, ◌-◌, ◌<◌, ◌≤◌, ◌++◌, length, take, drop, min, replicate, slice_range, IfOk, IsOk, OnOk, OnErr, Ok};
ghost use Rattle.block_pool.specs.Spare.{taken, taken_for, HasSpareFor, TakesOne};
ghost use Rattle.block_pool.specs.declared.class.Class.TheVariants.{Small};
ghost use Rattle.edge_claims.specs.Grown.{copied, shared, GrownFront};
ghost use Rattle.zero_buffer.specs.Contents.{Contents, ready, with_window, ZerosMeet, LONGEST};
ghost use Rattle.zero_buffer.specs.Pushed.{PushedFront, PushedBack, RefusedFront, RefusedBack};
ghost use Rattle.zero_buffer.specs.declared.growth.Grown.TheVariants.{InPlace};

use crate::growth::{Grown, grow_back, grow_front};
use block_pool::{Class, Pool};
use edge_claims::Window;
use sim_base::NoMemory;
use std::alloc::Global;
use std::marker::Model;

/// A packet's bytes, of which there are at most 131,072.
///
/// ```text
/// | first part | zeros .. | last part |      the buffer's bytes
/// | first part | last part |               the bytes of its window on a block
/// ```
///
/// Copies of a buffer share its block. A call that answers `NoMemory` leaves the bytes as they were.
#[derive(Drop)]
pub struct Buffer {
    alloc: Global,
    window: Window,
    first: u32,
    zeros: u32,
}

impl Model for Buffer {
    ghost use Rattle.zero_buffer.specs.Buffers.{IsBuffer};
    ghost use Rattle.zero_buffer.specs.Contents.{Contents, with_zeros};

    ghost Value = { Contents };

    ghost view = { λ b. record { bytes = with_zeros b.first b.zeros b.window.bytes; window = b.window; before = b.first; zeros = b.zeros } };

    ghost invariant = { IsBuffer };
}

impl Buffer {
    /// A buffer of `n` zeros. With a spare small block it takes no memory.
    pub fn zeros(alloc: Global, pool: &mut Pool, n: u32) -> Result<Buffer, NoMemory>
        requires { n ≤ LONGEST }
        ensures bytes { IfOk result (λ b. b.bytes ≡ replicate n 0) }
        ensures zeros { IfOk result (λ b. b.zeros ≡ n) }
        ensures ready { IfOk result (λ b. ready b ≡ 64) }
        ensures succeeds { 0 < pool.old.small → IsOk result }
        ensures pool { pool.new ≡ taken Small pool.old }
    {
        Ok(Buffer {
            alloc,
            window: pool.take(Class::Small)?,
            first: 0,
            zeros: n,
        })
    }

    /// A buffer of these bytes. With a spare block of the class that fits it takes no memory.
    pub fn from_bytes(alloc: Global, pool: &mut Pool, bytes: &[u8]) -> Result<Buffer, NoMemory>
        requires { length bytes.now ≤ LONGEST }
        ensures bytes { IfOk result (λ b. b.bytes ≡ bytes.now) }
        ensures zeros { IfOk result (λ b. b.zeros ≡ 0) }
        ensures ready { IfOk result (λ b. ready b ≡ 64) }
        ensures succeeds { HasSpareFor (length bytes.now) pool.old → IsOk result }
        ensures pool { pool.new ≡ taken_for (length bytes.now) pool.old }
    {
        Ok(Buffer {
            alloc,
            window: pool.make_in(bytes)?,
            first: bytes.len() as u32,
            zeros: 0,
        })
    }

    /// Another buffer of the same bytes on the same block. From here on neither is ready.
    pub fn copy(&mut self) -> Result<Buffer, NoMemory>
        ensures copy { IfOk result (λ b. b ≡ with_window (copied self.old.window) self.old) }
        ensures ok { OnOk result (self.new ≡ with_window (shared self.old.window) self.old) }
        ensures err { OnErr result (self.new ≡ self.old) }
    {
        Ok(Buffer {
            alloc: self.alloc,
            window: self.window.copy()?,
            first: self.first,
            zeros: self.zeros,
        })
    }

    /// Puts the bytes in front: on the buffer's block where it has the room and no copy was there before,
    /// and else on a new one.
    pub fn push_front(&mut self, pool: &mut Pool, bytes: &[u8]) -> Result<Grown, NoMemory>
        requires { length bytes.now + length self.old.bytes ≤ LONGEST }
        ensures bytes { OnOk result (self.new.bytes ≡ bytes.now ++ self.old.bytes) }
        ensures window { IfOk result (PushedFront bytes.now self.old.window self.new.window) }
        ensures err { OnErr result ((self.new.bytes ≡ self.old.bytes) × RefusedFront (length bytes.now) self.old.window self.new.window) }
        ensures empty { length bytes.now ≡ 0 → (result ≡ Ok InPlace) × (self.new ≡ self.old) }
        ensures ready { 0 < length bytes.now → length bytes.now ≤ ready self.old → (result ≡ Ok InPlace) × (ready self.new + length bytes.now ≡ ready self.old) }
        ensures pool { result ≡ Ok InPlace → pool.new ≡ pool.old }
        ensures taken { TakesOne pool.old pool.new }
    {
        let grown = grow_front(&mut self.window, self.alloc, pool, bytes)?;
        self.first += bytes.len() as u32;
        Ok(grown)
    }

    /// Puts the bytes behind, in the same way.
    pub fn push_back(&mut self, pool: &mut Pool, bytes: &[u8]) -> Result<Grown, NoMemory>
        requires { length self.old.bytes + length bytes.now ≤ LONGEST }
        ensures bytes { OnOk result (self.new.bytes ≡ self.old.bytes ++ bytes.now) }
        ensures window { IfOk result (PushedBack bytes.now self.old.window self.new.window) }
        ensures err { OnErr result ((self.new.bytes ≡ self.old.bytes) × RefusedBack (length bytes.now) self.old.window self.new.window) }
        ensures empty { length bytes.now ≡ 0 → (result ≡ Ok InPlace) × (self.new ≡ self.old) }
        ensures pool { result ≡ Ok InPlace → pool.new ≡ pool.old }
        ensures taken { TakesOne pool.old pool.new }
    {
        grow_back(&mut self.window, self.alloc, pool, bytes)
    }

    /// Keeps the bytes from `from` up to `to`.
    pub fn cut(&mut self, from: u32, to: u32)
        requires order { from ≤ to }
        requires inside { to ≤ length self.old.bytes }
        ensures { self.new.bytes ≡ slice_range self.old.bytes from to }
    {
        self.keep(to);
        self.leave_off(from);
    }

    /// Leaves off the first `n` bytes.
    pub fn leave_off(&mut self, n: u32)
        requires { n ≤ length self.old.bytes }
        ensures { self.new.bytes ≡ drop n self.old.bytes }
    {
        let beyond = n.saturating_sub(self.first);
        let of_last = beyond.saturating_sub(self.zeros);
        self.window.trim_front(n.min(self.first) + of_last);
        self.first = self.first.saturating_sub(n);
        self.zeros = self.zeros.saturating_sub(beyond);
    }

    /// Appends the bytes of another buffer. Its zeros stay counted where one area of zeros can hold those
    /// of both, and are written out else.
    pub fn join(&mut self, pool: &mut Pool, other: &Buffer) -> Result<(), NoMemory>
        requires { length self.old.bytes + length other.now.bytes ≤ LONGEST }
        ensures ok { OnOk result (self.new.bytes ≡ self.old.bytes ++ other.now.bytes) }
        ensures err { OnErr result (self.new.bytes ≡ self.old.bytes) }
        ensures taken { TakesOne pool.old pool.new }
    {
        if other.zeros == 0 {
            self.push_back(pool, other.window.as_slice())?;
            return Ok(());
        }
        if self.zeros == 0 || (other.first == 0 && self.first == self.shown()) {
            return self.adopt(pool, other);
        }
        let written = other.written_out()?;
        self.push_back(pool, written.as_slice())?;
        Ok(())
    }

    /// The first part, the number of zeros behind it, and the last part.
    pub fn parts(&self) -> (&[u8], u32, &[u8])
        ensures { result.0.now ++ (replicate result.1 0 ++ result.2.now) ≡ self.now.bytes }
    {
        let (first, last) = self.window.as_slice().split_at(self.first as usize);
        (first, self.zeros, last)
    }

    /// Copies the bytes from `at` on into the slice.
    pub fn peek(&self, at: u32, buf: &mut [u8])
        requires { at + length buf.old ≤ length self.now.bytes }
        ensures { buf.new ≡ slice_range self.now.bytes at (at + length buf.old) }
    {
        let (first, zeros, last) = self.parts();
        let at = at as usize;
        let of_first = piece(first, at, buf.len());
        let (front, rest) = buf.split_at_mut(of_first.len());
        front.copy_from_slice(of_first);
        let beyond = at.saturating_sub(first.len());
        let left = (zeros as usize).saturating_sub(beyond);
        let of_zeros = left.min(rest.len());
        let (middle, back) = rest.split_at_mut(of_zeros);
        clear(middle);
        let skipped = beyond.saturating_sub(zeros as usize);
        let of_last = piece(last, skipped, back.len());
        back.copy_from_slice(of_last);
    }

    pub fn len(&self) -> u32
        ensures { result ≡ length self.now.bytes }
    {
        self.shown() + self.zeros
    }

    // How many bytes are not counted zeros.
    fn shown(&self) -> u32
        ensures { result ≡ length self.now.window.bytes }
    {
        self.window.as_slice().len() as u32
    }

    // Keeps the first `n` bytes.
    fn keep(&mut self, n: u32)
        requires { n ≤ length self.old.bytes }
        ensures { self.new.bytes ≡ take n self.old.bytes }
    {
        let beyond = n.saturating_sub(self.first);
        let of_last = beyond.saturating_sub(self.zeros);
        let shown = self.window.as_slice().len() as u32;
        self.window.trim_back(shown - (n.min(self.first) + of_last));
        self.first = self.first.min(n);
        self.zeros = self.zeros.min(beyond);
    }

    // Appends the bytes of a buffer whose zeros this one can count with its own, or alone.
    fn adopt(&mut self, pool: &mut Pool, other: &Buffer) -> Result<(), NoMemory>
        requires room { length self.old.bytes + length other.now.bytes ≤ LONGEST }
        requires beside { ZerosMeet self.old other.now }
        ensures ok { OnOk result (self.new.bytes ≡ self.old.bytes ++ other.now.bytes) }
        ensures err { OnErr result (self.new.bytes ≡ self.old.bytes) }
        ensures taken { TakesOne pool.old pool.new }
    {
        let shown = self.window.as_slice().len() as u32;
        grow_back(&mut self.window, self.alloc, pool, other.window.as_slice())?;
        self.first = shown + other.first;
        self.zeros += other.zeros;
        Ok(())
    }

    // All the bytes, with the zeros among them.
    fn written_out(&self) -> Result<Vec<u8>, NoMemory>
        ensures { IfOk result (λ v. v.items ≡ self.now.bytes) }
    {
        let (first, zeros, last) = self.parts();
        let mut bytes = Vec::from_slice(self.alloc, first)?;
        bytes.resize(first.len() + zeros as usize, 0)?;
        bytes.extend_from_slice(last)?;
        Ok(bytes)
    }
}

// The bytes of a part from `at` on, and at most `n` of them.
fn piece(part: &[u8], at: usize, n: usize) -> &[u8]
    ensures bytes { result.now ≡ take n (drop at part.now) }
    ensures len { length result.now ≡ min n (length part.now - at) }
{
    let rest = &part[at.min(part.len())..];
    &rest[..n.min(rest.len())]
}

fn clear(bytes: &mut [u8])
    ensures { bytes.new ≡ replicate (length bytes.old) 0 }
{
    bytes.fill(0);
}
