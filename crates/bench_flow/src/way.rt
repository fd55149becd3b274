//! One direction of the way between both ends: what is on it arrives in order, a fixed time after it was sent.

use pkt_face::PlainPkt;
use sim_base::{NoMemory, Time};
use std::alloc::Global;
use std::collections::VecDeque;
use tcp_flow::Seg;

/// How long a packet is on its way.
pub const DELAY: u64 = 5_000_000;

/// A packet on its way.
#[derive(Drop)]
pub struct Flying {
    pub at: Time,
    pub segment: Seg<PlainPkt>,
}

#[derive(Drop)]
pub struct Way {
    flying: VecDeque<Flying>,
    pub sent: u64,
    pub lost: u64,
    /// Each packet whose number is a multiple of this is lost; none where it is 0.
    every: u64,
}

impl Way {
    pub fn new(alloc: Global, every: u64) -> Way {
        Way {
            flying: VecDeque::new(alloc),
            sent: 0,
            lost: 0,
            every,
        }
    }

    /// When the next packet arrives.
    pub fn next_at(&self) -> Option<Time> {
        match self.flying.front() {
            Some(flying) => Some(flying.at),
            None => None,
        }
    }

    pub fn take(&mut self) -> Option<Flying> {
        self.flying.pop_front()
    }

    /// Sends a packet, unless it is one that is lost.
    pub fn send(&mut self, now: Time, segment: Seg<PlainPkt>) -> Result<(), NoMemory> {
        self.sent = self.sent.saturating_add(1);
        if self.every != 0 && self.sent % self.every == 0 {
            self.lost = self.lost.saturating_add(1);
            return Ok(());
        }
        let at = Time(now.0.saturating_add(DELAY));
        self.flying.push_back(Flying { at, segment })?;
        Ok(())
    }
}
