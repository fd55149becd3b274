//! The Internet checksum over pieces of any lengths.

ghost use Rattle.std.specs.Prelude.{◌≡◌, ℕ, ◌-◌, ◌%◌, ◌<◌, false, List, All, length, replicate};

use crate::fields::{read_u16, read_u64};
use std::marker::Model;

/// The sum of the bytes so far.
#[derive(Clone, Copy, Debug, PartialEq, Eq)]
pub struct Sum {
    sum: u16,
    odd: bool,
}

impl Model for Sum {
    ghost use Rattle.std.specs.Prelude.{◌≤◌};
    ghost use Rattle.header_forms.specs.Checksum.{Running};

    ghost Value = { Running };

    ghost view = { λ s. record { sum = s.sum; odd = s.odd } };

    ghost invariant = { λ s. s.sum ≤ 65535 };

    ghost inverse = { λ r. record { sum = r.sum; odd = r.odd } };
}

impl Sum {
    ghost use Rattle.header_forms.specs.Checksum.{add_around, checksum, with_byte, with_bytes, start};

    /// The sum of no bytes.
    pub fn start() -> Sum
        ensures { result ≡ start }
    {
        Sum { sum: 0, odd: false }
    }

    /// Adds a piece. A piece of odd length ends in the middle of a pair, and the next piece ends that pair
    /// with its first byte.
    pub fn add(&mut self, bytes: &[u8])
        ensures { self.new ≡ with_bytes self.old bytes.now }
    {
        if !self.odd {
            self.add_pairs(bytes);
        } else if let Some((first, rest)) = bytes.split_first() {
            self.add_byte(*first);
            self.add_pairs(rest);
        }
    }

    /// Adds a piece of `n` zeros.
    pub fn add_zeros(&mut self, n: u32)
        ensures { self.new ≡ with_bytes self.old (replicate n 0) }
    {
        self.odd = self.odd != (n % 2 == 1);
    }

    /// The checksum of all pieces joined together.
    pub fn finish(&self) -> u16
        ensures value { result ≡ 65535 - self.now.sum }
        ensures exact { (bytes : List ℕ) → All (λ b. b < 256) bytes → self.now ≡ with_bytes start bytes → result ≡ checksum bytes }
    {
        u16::MAX - self.sum
    }

    /// Adds bytes whose first one begins a pair: eight at a time, then two at a time, and an odd last one
    /// alone.
    fn add_pairs(&mut self, bytes: &[u8])
        requires { self.old.odd ≡ false }
        ensures { self.new ≡ with_bytes self.old bytes.now }
    {
        let words = bytes.len() / 8 * 8;
        let pairs = bytes.len() / 2 * 2;
        let total = sum_of_words(u64::from(self.sum), &bytes[..words]);
        self.sum = folded(sum_of_pairs(total, &bytes[words..pairs]));
        self.add_each(&bytes[pairs..]);
    }

    fn add_each(&mut self, bytes: &[u8])
        ensures { self.new ≡ with_bytes self.old bytes.now }
    {
        for byte in bytes {
            self.add_byte(*byte);
        }
    }

    fn add_byte(&mut self, byte: u8)
        ensures { self.new ≡ with_byte self.old byte }
    {
        if self.odd {
            self.sum = add_around(self.sum, u16::from(byte));
        } else {
            self.sum = add_around(self.sum, u16::from(byte) * 256);
        }
        self.odd = !self.odd;
    }
}

ghost use Rattle.header_forms.specs.Checksum.{add_around, add_wide, folded, with_bytes};

/// A sum with whole words of eight bytes behind it. The number in eight bytes differs from the sum of their
/// four pairs by a multiple of 65535, which comes in again when the sum is folded.
fn sum_of_words(sum: u64, bytes: &[u8]) -> u64
    requires { length bytes.now % 8 ≡ 0 }
    ensures { with_bytes (record { sum = folded sum; odd = false }) bytes.now ≡ record { sum = folded result; odd = false } }
{
    let mut total = sum;
    for i in 0..bytes.len() / 8 {
        total = add_wide(total, read_u64(bytes, 8 * i));
    }
    total
}

/// A sum with pairs of bytes behind it.
fn sum_of_pairs(sum: u64, bytes: &[u8]) -> u64
    requires { length bytes.now % 2 ≡ 0 }
    ensures { with_bytes (record { sum = folded sum; odd = false }) bytes.now ≡ record { sum = folded result; odd = false } }
{
    let mut total = sum;
    for i in 0..bytes.len() / 2 {
        total = add_wide(total, u64::from(read_u16(bytes, 2 * i)));
    }
    total
}

/// Adds in one's complement: the carry comes in at the end.
fn add_around(a: u16, b: u16) -> u16
    ensures { result ≡ add_around a b }
{
    match a.checked_add(b) {
        Some(sum) => sum,
        None => (u32::from(a) + u32::from(b) - 65535) as u16,
    }
}

/// The same for wide words.
fn add_wide(a: u64, b: u64) -> u64
    ensures { result ≡ add_wide a b }
{
    let (sum, carry) = a.overflowing_add(b);
    sum + u64::from(carry)
}

/// The 16-bit number that a sum of pairs comes to.
#[tactic(auto, unfolding(crate::specs::Checksum::folded))]
fn folded(total: u64) -> u16
    ensures { result ≡ folded total }
{
    if total == 0 {
        return 0;
    }
    ((total - 1) % 65535 + 1) as u16
}
