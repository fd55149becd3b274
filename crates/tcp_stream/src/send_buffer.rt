//! The bytes of an opener that were written and not yet acknowledged.
//!
//!     bytes:  | acknowledged | to be acknowledged | spare
//!             0            start             bytes.len()
//!
//! An acknowledgement moves `start` alone. What lies before it is given up at a write, once it is at least as long as what
//! must be kept, so that each byte is moved once at most.

ghost use Rattle.std.specs.Prelude.{◌≡◌, ◌+◌, ◌-◌, ◌≤◌, ◌++◌, [], length, take, drop, min, vec_len, IfOk, OnOk, OnErr};

use crate::cuts::{behind_first, first_of};
use sim_base::NoMemory;
use std::alloc::Global;
use std::marker::Model;

/// How many bytes a send buffer holds at most.
pub const SEND_BUFFER: usize = 131072;

/// The bytes that were written and not yet acknowledged, at most `SEND_BUFFER`. Contracts see them as a list.
#[derive(Drop)]
pub struct SendBuffer {
    bytes: Vec<u8>,
    start: usize,
}

impl Model for SendBuffer {
    ghost use Rattle.std.specs.Prelude.{ℕ, List, ◌≤◌, ◌+◌, drop, length};

    ghost Value = { List ℕ };

    ghost view = { λ b. drop b.start b.bytes.items };

    ghost invariant = { λ b. (b.start ≤ length b.bytes.items) × (length b.bytes.items ≤ b.start + 131072) };
}

impl SendBuffer {
    pub fn new(alloc: Global) -> Self
        ensures { result ≡ [] }
    {
        SendBuffer {
            bytes: Vec::new(alloc),
            start: 0,
        }
    }

    /// How many bytes wait for an acknowledgement.
    pub fn len(&self) -> usize
        ensures value { result ≡ length self.now }
        ensures small { result ≤ 131072 }
    {
        self.bytes.len() - self.start
    }

    /// How many more bytes fit.
    pub fn free(&self) -> usize
        ensures { result ≡ 131072 - length self.now }
    {
        SEND_BUFFER - self.len()
    }

    /// Takes as many bytes as fit, and says how many. After `NoMemory` the bytes are as before.
    pub fn write(&mut self, bytes: &[u8]) -> Result<usize, NoMemory>
        ensures taken { IfOk result (λ taken. taken ≡ min (length bytes.now) (131072 - length self.old)) }
        ensures behind { OnOk result (self.new ≡ self.old ++ take (131072 - length self.old) bytes.now) }
        ensures unchanged { OnErr result (self.new ≡ self.old) }
    {
        let taken = first_of(bytes, self.free() as u64);
        self.compact();
        self.bytes.extend_from_slice(taken)?;
        Ok(taken.len())
    }

    /// Gives up the first `n` bytes, or all where there are fewer.
    pub fn acknowledge(&mut self, n: u64)
        ensures { self.new ≡ drop n self.old }
    {
        let waiting = self.bytes.len() - self.start;
        self.start += if n < waiting as u64 {
            n as usize
        } else {
            waiting
        };
    }

    /// At most `n` bytes behind the first `before`.
    pub fn part(&self, before: u64, n: u64) -> &[u8]
        ensures { result.now ≡ take n (drop before self.now) }
    {
        let waiting = &self.bytes[self.start..];
        first_of(behind_first(waiting, before), n)
    }

    /// Gives up what was acknowledged, where it is no shorter than what must be kept. It takes no memory.
    fn compact(&mut self)
        ensures { self.new ≡ self.old }
    {
        if self.start < self.bytes.len() - self.start {
            return;
        }
        remove_front(&mut self.bytes, self.start);
        self.start = 0;
    }
}

/// Gives up the first `n` bytes, and moves the others to the front.
fn remove_front(bytes: &mut Vec<u8>, n: usize)
    requires { n ≤ vec_len bytes.old }
    ensures { bytes.new.items ≡ drop n bytes.old.items }
{
    let len = bytes.len();
    bytes.as_mut_slice().copy_within(n..len, 0);
    bytes.truncate(len - n);
}
