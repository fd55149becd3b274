//! A block that has one owner.

ghost use Rattle.std.specs.Prelude.{◌≡◌, ◌+◌, ◌-◌, ◌<◌, ◌≤◌, ◌++◌, [], true, false, length, IfOk, IfErr};
ghost use Rattle.byte_block.specs.Held.{Lends};
ghost use Rattle.byte_block.specs.Ranges.{LARGEST, Free, Frozen, Whole, end_of, frozen_of, before_of, behind_of};

use crate::free::fill;
use crate::memory::{Loan, Memory, Shown};
use crate::{FreeRange, FrozenRange};
use core::mem::replace_with;
use sim_base::NoMemory;
use std::alloc::Global;
use std::marker::Model;
use std::mem;
use std::sync::Arc;

/// All the places of a block: free ones, bytes that never change, and free ones again.
///
/// ```text
/// 0            from         to           capacity
/// | free ..    | bytes      | free ..    |
/// ```
#[derive(Drop)]
pub struct WholeBlock {
    memory: Arc<Memory, Global>,
    base: *mut u8,
    from: u32,
    to: u32,
    capacity: u32,
    before: Loan,
    shown: Shown,
    behind: Loan,
}

impl Model for WholeBlock {
    ghost use Rattle.byte_block.specs.Ranges.{Whole, whole_code, block_of_memory};

    ghost Value = { Whole };

    ghost coded = { whole_code };

    ghost view = { λ r. record { block = block_of_memory r.memory.value; from = r.from; bytes = r.shown.items; capacity = r.capacity } };

    ghost use Rattle.byte_block.specs.Held.{IsWhole};

    ghost invariant = { IsWhole };
}

// The pointer owns nothing, and the count of owners is atomic.
unsafe impl Send for WholeBlock {}

unsafe impl Sync for WholeBlock {}

impl WholeBlock {
    /// A new block with these bytes, `front` free places before them and `back` behind. It has at most
    /// 16,777,216 places.
    pub fn make(alloc: Global, front: u32, bytes: &[u8], back: u32) -> Result<WholeBlock, NoMemory>
        requires { front + length bytes.now + back ≤ LARGEST }
        ensures { IfOk result (λ w. (w.from ≡ front) × (w.bytes ≡ bytes.now) × (w.capacity ≡ front + length bytes.now + back)) }
    {
        let capacity = front as usize + bytes.len() + back as usize;
        let mut places = Vec::from_elem(alloc, 0, capacity.max(1))?;
        let base = places.as_mut_ptr();
        let (memory, loan) = Memory::lend(places);
        let (loan, _) = loan.cut(capacity);
        let (before, rest) = loan.cut(front as usize);
        let (middle, behind) = rest.cut(bytes.len());
        let shown = fill(middle, &memory, base, front as usize, bytes);
        Ok(WholeBlock {
            memory: Arc::new(alloc, memory)?,
            base,
            from: front,
            to: front + bytes.len() as u32,
            capacity: capacity as u32,
            before,
            shown,
            behind,
        })
    }

    /// Gives up the bytes, so that all places are free again: `front` of them before the bytes that come, in
    /// what is from here on a block of its own. Where others share the block, it stays as it was.
    pub fn renew(&mut self, front: u32) -> bool
        requires { front ≤ self.old.capacity }
        ensures renewed { result ≡ true → (self.new.from ≡ front) × (self.new.bytes ≡ []) × (self.new.capacity ≡ self.old.capacity) }
        ensures refused { result ≡ false → self.new ≡ self.old }
    {
        let Some(memory) = Arc::get_mut(&mut self.memory) else {
            return false;
        };
        let (loan, base) = replace_with(memory, (), lent_anew);
        let (loan, _) = loan.cut(self.capacity as usize);
        let (before, behind) = loan.cut(front as usize);
        let (_, shown) = behind.nothing();
        self.base = base;
        self.before = before;
        self.shown = shown;
        self.behind = behind;
        self.from = front;
        self.to = front;
        true
    }

    /// How many places it has.
    pub fn capacity(&self) -> u32
        ensures { result ≡ self.now.capacity }
    {
        self.capacity
    }

    /// The first place of its bytes.
    pub fn start(&self) -> u32
        ensures { result ≡ self.now.from }
    {
        self.from
    }

    /// The first place behind its bytes.
    pub fn end(&self) -> u32
        ensures { result ≡ self.now.from + length self.now.bytes }
    {
        self.to
    }

    /// Its bytes.
    pub fn slice(&self) -> &[u8]
        ensures { result.now ≡ self.now.bytes }
    {
        let first = unsafe { self.base.byte_add(self.from as usize) };
        let len = (self.to - self.from) as usize;
        self.shown.read(&self.memory, first, len)
    }

    /// Fills the last of the free places before its bytes.
    pub fn freeze_before(&mut self, bytes: &[u8])
        requires { length bytes.now ≤ self.old.from }
        ensures { self.new ≡ record { block = self.old.block; from = self.old.from - length bytes.now; bytes = bytes.now ++ self.old.bytes; capacity = self.old.capacity } }
    {
        let left = self.from - bytes.len() as u32;
        let (nothing, _) = self.before.nothing();
        let (free, last) = mem::replace(&mut self.before, nothing).cut(left as usize);
        self.before = free;
        self.from = left;
        let shown = fill(last, &self.memory, self.base, left as usize, bytes);
        self.shown = shown.join(self.shown.again());
    }

    /// Fills the first of the free places behind its bytes.
    pub fn freeze_behind(&mut self, bytes: &[u8])
        requires { self.old.from + length self.old.bytes + length bytes.now ≤ self.old.capacity }
        ensures { self.new ≡ record { block = self.old.block; from = self.old.from; bytes = self.old.bytes ++ bytes.now; capacity = self.old.capacity } }
    {
        let (nothing, _) = self.behind.nothing();
        let (first, free) = mem::replace(&mut self.behind, nothing).cut(bytes.len());
        let shown = fill(first, &self.memory, self.base, self.to as usize, bytes);
        self.behind = free;
        self.to += bytes.len() as u32;
        self.shown = self.shown.again().join(shown);
    }

    /// The three ranges of the block, each with its own share of it. Where memory is wanting, the block
    /// comes back.
    pub fn into_ranges(self) -> Result<(FreeRange, FrozenRange, FreeRange), WholeBlock>
        ensures ok { IfOk result (λ r. (r.0 ≡ before_of self) × (r.1 ≡ frozen_of self) × (r.2 ≡ behind_of self)) }
        ensures err { IfErr result (λ w. w ≡ self) }
    {
        let Ok(first) = Arc::try_clone(&self.memory) else {
            return Err(self);
        };
        let Ok(second) = Arc::try_clone(&self.memory) else {
            return Err(self);
        };
        let WholeBlock {
            memory,
            base,
            from,
            to,
            capacity,
            before,
            shown,
            behind,
        } = self;
        let before = FreeRange {
            memory: first,
            base,
            from: 0,
            to: from,
            loan: before,
        };
        let bytes = FrozenRange {
            memory,
            base,
            from,
            to,
            shown,
        };
        let behind = FreeRange {
            memory: second,
            base,
            from: to,
            to: capacity,
            loan: behind,
        };
        Ok((before, bytes, behind))
    }

    /// The block of these ranges, which have all its places.
    pub fn of_ranges(before: FreeRange, bytes: FrozenRange, behind: FreeRange) -> WholeBlock
        requires first { (before.block ≡ bytes.block) × (before.from ≡ 0) × (before.to ≡ bytes.from) }
        requires last { (behind.block ≡ bytes.block) × (behind.from ≡ end_of bytes) × (end_of bytes ≤ behind.to) }
        ensures { result ≡ record { block = bytes.block; from = bytes.from; bytes = bytes.bytes; capacity = behind.to } }
    {
        let FrozenRange {
            memory,
            base,
            from,
            to,
            shown,
        } = bytes;
        WholeBlock {
            memory,
            base,
            from,
            to,
            capacity: behind.to,
            before: before.loan,
            shown,
            behind: behind.loan,
        }
    }
}

/// Ends all loans of a block's bytes, and lends them anew.
fn lent_anew(memory: Memory, _: ()) -> (Memory, (Loan, *mut u8))
    requires { 0 < memory.emptied.len }
    ensures places { result.0.emptied.len ≡ memory.emptied.len }
    ensures base { result.1.1 ≡ result.0.emptied.ptr }
    ensures lends { Lends result.0 result.1.0 0 memory.emptied.len }
{
    let mut places = memory.regain();
    let base = places.as_mut_ptr();
    let (memory, loan) = Memory::lend(places);
    (memory, (loan, base))
}
