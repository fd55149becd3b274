//! What one thread has: packets, and a generator from which it draws its calls.

use crate::call::{Call, below};
use crate::pair::Pair;
use block_pool::Pool;
use pkt_face::Pkt;
use rand_core::{Rng, SeedableRng};
use rand_xoshiro::SplitMix64;
use shared_packet::SharedPkt;
use sim_base::NoMemory;
use std::alloc::{AllocError, Global};

/// How many calls a thread makes in a round.
const CALLS: u32 = 40;

/// How many packets it has at most.
const MOST: usize = 6;

#[derive(Clone, Copy, PartialEq, Eq)]
enum Outcome {
    Equal,
    Differs,
    NoMemory,
}

#[derive(Drop)]
pub struct Hand {
    alloc: Global,
    number: u32,
    random: SplitMix64,
    pool: Pool,
    pairs: Vec<Pair>,
    calls: u32,
    outcome: Outcome,
}

/// Gives each hand two copies of one packet, in place of what it had.
pub fn deal(alloc: Global, round: u32, hands: &mut [Hand]) -> Result<(), AllocError> {
    let mut pool = SharedPkt::maker(alloc);
    let Ok(mut first) = Pair::new(alloc, &mut pool, round) else {
        return Err(AllocError);
    };
    for hand in hands {
        hand.pairs.clear();
        hand.take(&mut pool, &mut first)?;
        hand.take(&mut pool, &mut first)?;
    }
    Ok(())
}

impl Hand {
    pub fn new(alloc: Global, number: u32) -> Hand {
        Hand {
            alloc,
            number,
            random: SplitMix64::seed_from_u64(number as u64),
            pool: SharedPkt::maker(alloc),
            pairs: Vec::new(alloc),
            calls: 0,
            outcome: Outcome::Equal,
        }
    }

    fn take(&mut self, pool: &mut Pool, first: &mut Pair) -> Result<(), AllocError> {
        let Ok(copy) = first.copy(pool) else {
            return Err(AllocError);
        };
        self.pairs.push(copy)?;
        Ok(())
    }

    /// Makes the calls of a round, until two packets differ or memory is wanting.
    pub fn play(&mut self) {
        for _ in 0..CALLS {
            if self.outcome == Outcome::Equal {
                self.outcome = self.call();
                self.calls = self.calls.saturating_add(1);
            }
        }
    }

    fn call(&mut self) -> Outcome {
        match self.step() {
            Ok(true) => Outcome::Equal,
            Ok(false) => Outcome::Differs,
            Err(NoMemory) => Outcome::NoMemory,
        }
    }

    // A call, and whether all packets equal those beside them.
    fn step(&mut self) -> Result<bool, NoMemory> {
        let at = self.place();
        match below(&mut self.random, 12) {
            0 => self.copy(at)?,
            1 => self.drop_one(at),
            2 => self.join(at)?,
            _ => self.change(at)?,
        }
        self.all_equal()
    }

    // The place of a packet, where there is one.
    fn place(&mut self) -> usize {
        let len = self.pairs.len();
        if len == 0 {
            return 0;
        }
        (self.random.next_u64() % len as u64) as usize
    }

    fn change(&mut self, at: usize) -> Result<(), NoMemory> {
        let call = Call::draw(&mut self.random);
        match self.pairs.get_mut(at) {
            Some(pair) => pair.make(&mut self.pool, call),
            None => Ok(()),
        }
    }

    fn copy(&mut self, at: usize) -> Result<(), NoMemory> {
        if self.pairs.len() >= MOST {
            return Ok(());
        }
        let Some(pair) = self.pairs.get_mut(at) else {
            return Ok(());
        };
        let copy = pair.copy(&mut self.pool)?;
        self.pairs.push(copy)?;
        Ok(())
    }

    fn drop_one(&mut self, at: usize) {
        if at > 0 && at < self.pairs.len() {
            drop(self.pairs.swap_remove(at));
        }
    }

    // Appends a packet to the last one.
    fn join(&mut self, at: usize) -> Result<(), NoMemory> {
        let Some(mut last) = self.pairs.pop() else {
            return Ok(());
        };
        if let Some(other) = self.pairs.get(at) {
            last.join(&mut self.pool, other)?;
        }
        self.pairs.push(last)?;
        Ok(())
    }

    fn all_equal(&self) -> Result<bool, NoMemory> {
        for pair in &self.pairs {
            if !pair.is_equal(self.alloc)? {
                return Ok(false);
            }
        }
        Ok(true)
    }

    pub fn told(&self, alloc: Global) -> Result<String, AllocError> {
        let (number, calls) = (self.number, self.calls);
        match self.outcome {
            Outcome::Equal => format!(in alloc;
                "thread {number}: {calls} calls, all packets equal"
            ),
            Outcome::Differs => format!(in alloc;
                "thread {number}: packets differ after {calls} calls"
            ),
            Outcome::NoMemory => format!(in alloc;
                "thread {number}: no memory after {calls} calls"
            ),
        }
    }
}
