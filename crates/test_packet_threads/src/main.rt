//! Four threads change packets whose copies share blocks, at random and at once, and each thread lays its
//! packets beside packets that copy everything.
//!
//! In each round the threads get copies of one packet, so that they race for the places before and behind
//! its bytes. Then each of them pushes, pops, cuts, tags, copies, joins and drops. What is written does
//! not depend on who wins: a thread's calls are drawn from a generator of its own.
#![tactic(auto)]

mod call;
mod hand;
mod pair;

use crate::hand::Hand;
use anyhow::Result;
use std::alloc::{AllocError, Global};
use std::thread;

const ROUNDS: u32 = 200;

fn main(rt: HostRuntime) -> Result<()> {
    let mut hands = hands(rt.alloc())?;
    for round in 0..ROUNDS {
        hand::deal(rt.alloc(), round, &mut hands)?;
        thread::for_each_mut(
            &rt,
            hands.as_mut_slice(),
            4,
            &|_, hand: &mut Hand| { hand.play() },
        );
    }
    for hand in &hands {
        let text = hand.told(rt.alloc())?;
        println!(rt; "{text}")?;
    }
    Ok(())
}

fn hands(alloc: Global) -> Result<Vec<Hand>, AllocError> {
    let mut hands = Vec::new(alloc);
    for number in 0..4 {
        hands.push(Hand::new(alloc, number))?;
    }
    Ok(hands)
}
