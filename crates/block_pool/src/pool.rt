//! The pool: spare blocks of each class, and new blocks where there are none.

ghost use Rattle.std.specs.Prelude.{◌≡◌, ◌+◌, ◌<◌, ◌≤◌, length, IfOk, IsOk, OnOk, OnErr};
ghost use Rattle.block_pool.specs.Class as sizes;
ghost use Rattle.block_pool.specs.Pooled.{IsFresh, IsSpare};
ghost use Rattle.block_pool.specs.Spare.{Spare, spare_of, reserved, taken, taken_for, HasSpareFor};

use crate::class::{BACK, Class, FRONT};
use crate::shelf::Shelf;
use edge_claims::Window;
use sim_base::NoMemory;
use std::alloc::Global;
use std::marker::Model;

/// Spare blocks. Contracts see how many there are of each class.
#[derive(Drop)]
pub struct Pool {
    alloc: Global,
    small: Shelf,
    middle: Shelf,
    large: Shelf,
}

impl Model for Pool {
    ghost use Rattle.block_pool.specs.Pools.{IsPool};
    ghost use Rattle.block_pool.specs.Spare.{Spare};

    ghost Value = { Spare };

    ghost view = { λ p. record { small = p.small.spare; middle = p.middle.spare; large = p.large.spare } };

    ghost invariant = { IsPool };
}

impl Pool {
    pub fn make(alloc: Global) -> Pool
        ensures { result ≡ record { small = 0; middle = 0; large = 0 } }
    {
        Pool {
            alloc,
            small: Shelf::new(alloc, Class::Small.places()),
            middle: Shelf::new(alloc, Class::Middle.places()),
            large: Shelf::new(alloc, Class::Large.places()),
        }
    }

    /// Makes blocks of the class until there are at least `n`, which is at most 65,536. Where memory is
    /// wanting, there are as many as before.
    pub fn reserve(&mut self, class: Class, n: u32) -> Result<(), NoMemory>
        requires { n ≤ 65536 }
        ensures ok { OnOk result (self.new ≡ reserved class n self.old) }
        ensures err { OnErr result (self.new ≡ self.old) }
    {
        let n = n as usize;
        match class {
            Class::Small => self.small.reserve(n),
            Class::Middle => self.middle.reserve(n),
            Class::Large => self.large.reserve(n),
        }
    }

    /// An empty window that stands at 64, alone on a block of the class. With spare it takes no memory.
    pub fn take(&mut self, class: Class) -> Result<Window, NoMemory>
        ensures ok { IfOk result (IsSpare (sizes.places class)) }
        ensures succeeds { 0 < spare_of class self.old → IsOk result }
        ensures after { self.new ≡ taken class self.old }
    {
        match class {
            Class::Small => self.small.take(),
            Class::Middle => self.middle.take(),
            Class::Large => self.large.take(),
        }
    }

    /// A window with these bytes that stands at 64, alone on a block of the class that fits or, for more
    /// than 1,968 bytes, on one of its own with 16 places behind them. There are at most 131,072 bytes.
    pub fn make_in(&mut self, bytes: &[u8]) -> Result<Window, NoMemory>
        requires { length bytes.now ≤ 131072 }
        ensures ok { IfOk result (IsFresh bytes.now) }
        ensures places { IfOk result (λ w. w.capacity ≡ sizes.places_for (length bytes.now)) }
        ensures succeeds { HasSpareFor (length bytes.now) self.old → IsOk result }
        ensures after { self.new ≡ taken_for (length bytes.now) self.old }
    {
        match Class::for_len(bytes.len() as u32) {
            Some(class) => filled(self.take(class)?, bytes),
            None => Ok(Window::with_room(self.alloc, bytes, FRONT, BACK)?),
        }
    }

    /// The class of the least blocks in which so many bytes have 64 places in front and 16 behind: up to
    /// 48, 432 and 1,968 bytes.
    pub fn class_for(len: u32) -> Option<Class>
        ensures { result ≡ sizes.class_for len }
    {
        Class::for_len(len)
    }
}

// An empty window, with these bytes: it is alone at its edges and has the room, so it grows in place.
fn filled(mut window: Window, bytes: &[u8]) -> Result<Window, NoMemory>
    requires fresh { IsSpare window.capacity window }
    requires room { sizes.FRONT + length bytes.now ≤ window.capacity }
    ensures ok { IfOk result (IsFresh bytes.now) }
    ensures places { IfOk result (λ w. w.capacity ≡ window.capacity) }
    ensures succeeds { IsOk result }
{
    match window.grow_back(bytes) {
        Ok(()) => Ok(window),
        Err(_) => Err(NoMemory),
    }
}
