//! Many events held, and each that is taken schedules another.

use crate::event::{Load, digest_with, key, later, load_of, next};
use event_queue::Queue;
use sim_base::{Key, NoMemory, Time};
use std::alloc::Global;
use std::cmp::Reverse;
use std::collections::BinaryHeap;

/// The digest of `operations` events that a queue of `held` events gives.
pub fn in_queue(alloc: Global, held: u32, operations: u32) -> Result<u64, NoMemory> {
    let mut queue = Queue::make(alloc);
    let mut state = 1;
    for count in 0..u64::from(held) {
        state = next(state);
        queue.push(key(later(0, state), count), load_of(count))?;
    }
    let mut digest = 0;
    for count in u64::from(held)..u64::from(held) + u64::from(operations) {
        let Some((taken, load)) = queue.pop_below(Time(u64::MAX)) else {
            return Ok(digest);
        };
        digest = digest_with(digest, &taken, &load);
        state = next(state);
        queue.push(key(later(taken.time.0, state), count), load)?;
    }
    Ok(digest)
}

/// The same, in a heap whose elements are whole events.
pub fn in_heap(alloc: Global, held: u32, operations: u32) -> Result<u64, NoMemory> {
    let mut heap: BinaryHeap<(Reverse<Key>, Load)> = BinaryHeap::new(alloc);
    let mut state = 1;
    for count in 0..u64::from(held) {
        state = next(state);
        heap.push((Reverse(key(later(0, state), count)), load_of(count)))?;
    }
    let mut digest = 0;
    for count in u64::from(held)..u64::from(held) + u64::from(operations) {
        let Some((Reverse(taken), load)) = heap.pop() else {
            return Ok(digest);
        };
        digest = digest_with(digest, &taken, &load);
        state = next(state);
        heap.push((Reverse(key(later(taken.time.0, state), count)), load))?;
    }
    Ok(digest)
}
