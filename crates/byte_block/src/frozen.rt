//! Bytes of a block that never change, and may be read by several owners at once.

ghost use Rattle.std.specs.Prelude.{◌≡◌, IfOk};
ghost use Rattle.byte_block.specs.Places.{Agree};

use crate::memory::{Memory, Shown};
use sim_base::NoMemory;
use std::alloc::Global;
use std::marker::Model;
use std::sync::Arc;

/// Bytes of a block that several owners may read, in any threads.
#[derive(Drop)]
pub struct FrozenRange {
    pub(crate) memory: Arc<Memory, Global>,
    pub(crate) base: *mut u8,
    pub(crate) from: u32,
    pub(crate) to: u32,
    pub(crate) shown: Shown,
}

impl Model for FrozenRange {
    ghost use Rattle.byte_block.specs.Ranges.{Frozen, frozen_code, block_of_memory};

    ghost Value = { Frozen };

    ghost coded = { frozen_code };

    ghost view = { λ r. record { block = block_of_memory r.memory.value; from = r.from; bytes = r.shown.items } };

    ghost use Rattle.byte_block.specs.Held.{IsShown};

    ghost invariant = { IsShown };
}

// The pointer owns nothing, and the count of owners is atomic.
unsafe impl Send for FrozenRange {}

unsafe impl Sync for FrozenRange {}

impl FrozenRange {
    /// The same range again.
    pub fn share(&self) -> Result<FrozenRange, NoMemory>
        ensures { IfOk result (λ r. r ≡ self.now) }
    {
        Ok(FrozenRange {
            memory: Arc::try_clone(&self.memory)?,
            base: self.base,
            from: self.from,
            to: self.to,
            shown: self.shown.again(),
        })
    }

    /// Two frozen ranges of a block that are held at once have the same byte at each place that both have. It
    /// does nothing.
    pub fn agrees_with(&self, other: &FrozenRange)
        requires { other.now.block ≡ self.now.block }
        ensures { Agree self.now.from self.now.bytes other.now.from other.now.bytes }
    {
        let _ = self.shown.agreed(&other.shown, &self.memory);
    }

    /// The first of its places.
    pub fn start(&self) -> u32
        ensures { result ≡ self.now.from }
    {
        self.from
    }

    /// Its bytes.
    pub fn slice(&self) -> &[u8]
        ensures { result.now ≡ self.now.bytes }
    {
        let first = unsafe { self.base.byte_add(self.from as usize) };
        let len = (self.to - self.from) as usize;
        self.shown.read(&self.memory, first, len)
    }
}
