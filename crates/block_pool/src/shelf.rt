//! The spare blocks of one class.

ghost use Rattle.std.specs.Prelude.{◌≡◌, ◌+◌, ◌-◌, ◌<◌, ◌≤◌, [], max, IfOk, IsOk, OnOk, OnErr};
ghost use Rattle.byte_block.specs.Ranges.{LARGEST};
ghost use Rattle.block_pool.specs.Class as sizes;
ghost use Rattle.block_pool.specs.Pooled.{IsSpare};
ghost use Rattle.block_pool.specs.Stock.{Stock};

use crate::class::FRONT;
use edge_claims::Window;
use sim_base::NoMemory;
use std::alloc::Global;
use std::marker::Model;

/// Empty windows, each alone on a block of `places` places.
#[derive(Drop)]
pub(crate) struct Shelf {
    places: u32,
    windows: Vec<Window>,
}

impl Model for Shelf {
    ghost use Rattle.block_pool.specs.Shelves.{IsShelf};
    ghost use Rattle.block_pool.specs.Stock.{Stock};
    ghost use Rattle.std.specs.Prelude.{length};

    ghost Value = { Stock };

    ghost view = { λ s. record { places = s.places; spare = length s.windows.items } };

    ghost invariant = { IsShelf };
}

impl Shelf {
    pub(crate) fn new(alloc: Global, places: u32) -> Shelf
        ensures { result ≡ record { places = places; spare = 0 } }
    {
        Shelf {
            places,
            windows: Vec::new(alloc),
        }
    }

    /// Makes blocks until there are at least `n`. Where memory is wanting, none is kept of those.
    pub(crate) fn reserve(&mut self, n: usize) -> Result<(), NoMemory>
        requires places { (sizes.FRONT ≤ self.old.places) × (self.old.places ≤ LARGEST) }
        ensures ok { OnOk result (self.new ≡ record { places = self.old.places; spare = max n self.old.spare }) }
        ensures err { OnErr result (self.new ≡ self.old) }
    {
        let before = self.windows.len();
        let filled = self.fill(n);
        if filled.is_err() {
            self.windows.truncate(before);
        }
        filled
    }

    // Makes blocks until there are `n` or memory is wanting.
    fn fill(&mut self, n: usize) -> Result<(), NoMemory>
        requires places { (sizes.FRONT ≤ self.old.places) × (self.old.places ≤ LARGEST) }
        ensures ok { OnOk result (self.new.spare ≡ max n self.old.spare) }
        ensures more { self.old.spare ≤ self.new.spare }
        ensures same { self.new.places ≡ self.old.places }
    {
        let alloc = *self.windows.allocator();
        for _ in 0..n.saturating_sub(self.windows.len()) {
            self.windows.push(spare(alloc, self.places)?)?;
        }
        Ok(())
    }

    /// A spare block, or a new one where there is none.
    pub(crate) fn take(&mut self) -> Result<Window, NoMemory>
        requires places { (sizes.FRONT ≤ self.old.places) × (self.old.places ≤ LARGEST) }
        ensures ok { IfOk result (IsSpare self.old.places) }
        ensures succeeds { 0 < self.old.spare → IsOk result }
        ensures after { self.new ≡ record { places = self.old.places; spare = self.old.spare - 1 } }
    {
        match self.windows.pop() {
            Some(window) => Ok(window),
            None => spare(*self.windows.allocator(), self.places),
        }
    }
}

// An empty window, alone on a new block.
fn spare(alloc: Global, places: u32) -> Result<Window, NoMemory>
    requires places { (sizes.FRONT ≤ places) × (places ≤ LARGEST) }
    ensures { IfOk result (IsSpare places) }
{
    Window::with_room(alloc, &[], FRONT, places - FRONT)
}
