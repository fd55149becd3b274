//! Draws: PCG XSH RR 64/32, and a product in place of a remainder.

ghost use Rattle.std.specs.Prelude.{◌≡◌, ◌≤◌, ◌<◌};

use crate::key::NodeId;
use rand_core::utils::NextWord;
use rand_pcg::Pcg32;
use std::marker::Model;

/// A generator, and how many draws are left of the 2^64 - 1 that it may make.
#[derive(Debug, Drop)]
pub struct Random {
    words: Pcg32,
    left: u64,
}

impl Model for Random {
    ghost use Rattle.sim_base.specs.Draws.{PlainRandom};

    ghost Value = { PlainRandom };

    ghost view = { λ r. record { words = r.words; left = r.left } };
}

impl Random {
    ghost use Rattle.sim_base.specs.Draws.{begun, drawn, after_draw};

    /// The generator of a node, in the stream of the node's number.
    pub fn make(seed: u64, node: NodeId) -> Random
        ensures { result ≡ begun seed node.0 }
    {
        Random {
            words: Pcg32::new(seed, u64::from(node.0)),
            left: u64::MAX,
        }
    }

    /// A number below `below`.
    pub fn draw(&mut self, below: u32) -> u32
        requires { 1 ≤ below }
        ensures value { result ≡ drawn below self.old }
        ensures after { self.new ≡ after_draw self.old }
        ensures below { result < below }
    {
        if self.left == 0 {
            return 0;
        }
        self.left -= 1;
        scaled(self.words.next_word(), below)
    }
}

ghost use Rattle.sim_base.specs.Draws.{scaled};

/// The part of `below` that a word is of 2^32.
fn scaled(word: u32, below: u32) -> u32
    requires { 1 ≤ below }
    ensures value { result ≡ scaled word below }
    ensures below { result < below }
{
    ((u64::from(word) * u64::from(below)) >> 32) as u32
}
