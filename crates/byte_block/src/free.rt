//! Places of a block that are free still, and how they are filled.

ghost use Rattle.std.specs.Prelude.{◌≡◌, ◌+◌, ◌-◌, ◌≤◌, ◌++◌, length, take, drop, IfOk};
ghost use Rattle.byte_block.specs.Loaned.{ShownAs};
ghost use Rattle.byte_block.specs.Places.{AreApart};
ghost use Rattle.byte_block.specs.Ranges.{LARGEST, Frozen, end_of};

use crate::FrozenRange;
use crate::memory::{Loan, Memory, Shown};
use sim_base::NoMemory;
use std::alloc::Global;
use std::marker::Model;
use std::mem;
use std::sync::Arc;

/// Places of a block that no other range has: those from `from` on and below `to`.
#[derive(Drop)]
pub struct FreeRange {
    pub(crate) memory: Arc<Memory, Global>,
    pub(crate) base: *mut u8,
    pub(crate) from: u32,
    pub(crate) to: u32,
    pub(crate) loan: Loan,
}

impl Model for FreeRange {
    ghost use Rattle.byte_block.specs.Ranges.{Free, free_code, block_of_memory};

    ghost Value = { Free };

    ghost coded = { free_code };

    ghost view = { λ r. record { block = block_of_memory r.memory.value; from = r.from; to = r.to } };

    ghost use Rattle.byte_block.specs.Held.{IsLent};

    ghost invariant = { IsLent };
}

// The pointer owns nothing, and the count of owners is atomic.
unsafe impl Send for FreeRange {}

unsafe impl Sync for FreeRange {}

/// Where new blocks come from.
pub struct RawBytes;

impl RawBytes {
    /// A new block, as one free range. It has at most 16,777,216 places.
    pub fn make(alloc: Global, capacity: u32) -> Result<FreeRange, NoMemory>
        requires { capacity ≤ LARGEST }
        ensures { IfOk result (λ r. (r.from ≡ 0) × (r.to ≡ capacity)) }
    {
        let mut bytes = Vec::from_elem(alloc, 0, (capacity as usize).max(1))?;
        let base = bytes.as_mut_ptr();
        let (memory, loan) = Memory::lend(bytes);
        let (loan, _) = loan.cut(capacity as usize);
        Ok(FreeRange {
            memory: Arc::new(alloc, memory)?,
            base,
            from: 0,
            to: capacity,
            loan,
        })
    }
}

impl FreeRange {
    /// The first `n` places and the rest. After an `Err` the range is given up.
    pub fn split_at(self, n: u32) -> Result<(FreeRange, FreeRange), NoMemory>
        requires { self.from + n ≤ self.to }
        ensures { IfOk result (λ r. (r.0 ≡ record { block = self.block; from = self.from; to = self.from + n })
            × (r.1 ≡ record { block = self.block; from = self.from + n; to = self.to })) }
    {
        let second = Arc::try_clone(&self.memory)?;
        let FreeRange {
            memory,
            base,
            from,
            to,
            loan,
        } = self;
        let (front, back) = loan.cut(n as usize);
        let front = FreeRange {
            memory,
            base,
            from,
            to: from + n,
            loan: front,
        };
        let back = FreeRange {
            memory: second,
            base,
            from: from + n,
            to,
            loan: back,
        };
        Ok((front, back))
    }

    /// Two free ranges of a block that are held at once have no place in common. It does nothing.
    pub fn apart_from_free(&mut self, other: &mut FreeRange)
        requires { other.old.block ≡ self.old.block }
        ensures kept { (self.new ≡ self.old) × (other.new ≡ other.old) }
        ensures apart { AreApart self.old.from self.old.to other.old.from other.old.to }
    {
        let (nothing, _) = self.loan.nothing();
        let mine = mem::replace(&mut self.loan, nothing);
        let (nothing, _) = other.loan.nothing();
        let theirs = mem::replace(&mut other.loan, nothing);
        let (mine, theirs) = mine.apart(theirs, &self.memory);
        self.loan = mine;
        other.loan = theirs;
    }

    /// A free and a frozen range of a block that are held at once have no place in common. It does nothing.
    pub fn apart_from_frozen(&mut self, other: &FrozenRange)
        requires { other.now.block ≡ self.old.block }
        ensures kept { self.new ≡ self.old }
        ensures apart { AreApart self.old.from self.old.to other.now.from (end_of other.now) }
    {
        let (nothing, _) = self.loan.nothing();
        let mine = mem::replace(&mut self.loan, nothing);
        self.loan = mine.unseen(&other.shown, &self.memory);
    }

    /// Fills all of the range, for good.
    pub fn freeze(self, bytes: &[u8]) -> FrozenRange
        requires { self.from + length bytes.now ≡ self.to }
        ensures { result ≡ record { block = self.block; from = self.from; bytes = bytes.now } }
    {
        let FreeRange {
            memory,
            base,
            from,
            to,
            loan,
        } = self;
        let shown = fill(loan, &memory, base, from as usize, bytes);
        FrozenRange {
            memory,
            base,
            from,
            to,
            shown,
        }
    }

    /// Fills the last places. From here on they stand at the front of `next`, which begins where this range
    /// ends.
    pub fn freeze_last(&mut self, bytes: &[u8], next: &mut FrozenRange)
        requires room { self.old.from + length bytes.now ≤ self.old.to }
        requires beside { (next.old.block ≡ self.old.block) × (next.old.from ≡ self.old.to) }
        ensures free { self.new ≡ record { block = self.old.block; from = self.old.from; to = self.old.to - length bytes.now } }
        ensures frozen { next.new ≡ record { block = next.old.block; from = next.old.from - length bytes.now; bytes = bytes.now ++ next.old.bytes } }
    {
        let left = (self.to - self.from) as usize - bytes.len();
        let (nothing, _) = self.loan.nothing();
        let (front, back) = mem::replace(&mut self.loan, nothing).cut(left);
        self.loan = front;
        self.to -= bytes.len() as u32;
        next.from = self.to;
        let shown = fill(back, &self.memory, self.base, self.to as usize, bytes);
        next.shown = shown.join(next.shown.again());
    }

    /// Fills the first places. From here on they stand at the end of `before`, which ends where this range
    /// begins.
    pub fn freeze_first(&mut self, bytes: &[u8], before: &mut FrozenRange)
        requires room { self.old.from + length bytes.now ≤ self.old.to }
        requires beside { (before.old.block ≡ self.old.block) × (end_of before.old ≡ self.old.from) }
        ensures free { self.new ≡ record { block = self.old.block; from = self.old.from + length bytes.now; to = self.old.to } }
        ensures frozen { before.new ≡ record { block = before.old.block; from = before.old.from; bytes = before.old.bytes ++ bytes.now } }
    {
        let (nothing, _) = self.loan.nothing();
        let (front, back) = mem::replace(&mut self.loan, nothing).cut(bytes.len());
        let shown = fill(front, &self.memory, self.base, self.from as usize, bytes);
        self.loan = back;
        self.from += bytes.len() as u32;
        before.to = self.from;
        before.shown = before.shown.again().join(shown);
    }
}

// Writes the bytes of a loan.
pub(crate) fn fill(loan: Loan, memory: &Memory, base: *mut u8, at: usize, bytes: &[u8]) -> Shown
    requires loan { (loan.life ≡ memory.now.life) × (loan.base ≡ base) × (loan.at ≡ at) }
    requires bytes { (length loan.items ≡ length bytes.now) × (at + length bytes.now ≤ LARGEST) }
    ensures { ShownAs result loan.life base at bytes.now }
{
    let first = unsafe { base.byte_add(at) };
    loan.put(memory, first, bytes)
}
