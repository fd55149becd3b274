//! Bytes that lie one after another from a position on.

ghost use Rattle.std.specs.Prelude.{◌≡◌, ◌+◌, ◌<◌, ◌^◌, length, IfOk};

use sim_base::NoMemory;
use std::alloc::Global;
use std::marker::Model;

#[derive(Drop)]
pub struct Piece {
    start: u64,
    bytes: Vec<u8>,
}

impl Model for Piece {
    ghost use Rattle.std.specs.Prelude.{◌+◌, ◌<◌, ◌^◌, length};
    ghost use Rattle.tcp_stream.specs.Pieces.{Run};

    ghost Value = { Run };

    ghost view = { λ p. record { start = p.start; bytes = p.bytes.items } };

    ghost invariant = { λ p. p.start + length p.bytes.items < 2 ^ 63 };
}

impl Piece {
    pub fn new(alloc: Global, start: u64, bytes: &[u8]) -> Result<Self, NoMemory>
        requires { start + length bytes.now < 2 ^ 63 }
        ensures start { IfOk result (λ piece. piece.start ≡ start) }
        ensures bytes { IfOk result (λ piece. piece.bytes ≡ bytes.now) }
    {
        Ok(Piece {
            start,
            bytes: Vec::from_slice(alloc, bytes)?,
        })
    }

    pub fn start(&self) -> u64
        ensures { result ≡ self.now.start }
    {
        self.start
    }

    /// The position behind the last byte.
    pub fn end(&self) -> u64
        ensures value { result ≡ self.now.start + length self.now.bytes }
        ensures small { result < 2 ^ 63 }
    {
        self.start + self.bytes.len() as u64
    }

    pub fn into_bytes(self) -> Vec<u8>
        ensures { result.items ≡ self.bytes }
    {
        self.bytes
    }
}
