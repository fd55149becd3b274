//! The keys of the pending events, each with the place at which the event's load is kept.

ghost use Rattle.std.specs.Prelude.{◌≡◌, ◌≢◌, ◌≤◌, [], ◌∷◌, length, OnOk, OnErr, IfNone, IfSome};
ghost use Rattle.std.specs.List.{AllByRecursion};
ghost use Rattle.event_queue.specs.Heap.{IsNoted};
ghost use Rattle.event_queue.specs.Pending.{key_of, first_key, IsNew};
ghost use Rattle.sim_base.specs.KeyOrder.{insert_by, IsRising};

use crate::heap::{Entry, mend, rise};
use sim_base::{Key, NoMemory};
use std::alloc::Global;
use std::marker::Model;

/// A heap of entries with the least key on top, beside the keys at their places. It is seen as the list of
/// keys and places in the order of the keys.
///
/// ```text
/// heap   (time, 2) (time, 0) (time, 3)     small entries, which are moved
/// keys   [ key | .. | key | key ]          by place, where they stay
/// ```
#[derive(Drop)]
pub(crate) struct Agenda {
    heap: Vec<Entry>,
    keys: Vec<Key>,
}

impl Model for Agenda {
    ghost use Rattle.std.specs.Prelude.{ℕ, List};
    ghost use Rattle.sim_base.specs.declared.key.Key.{Key};

    ghost Value = { List (Key × ℕ) };

    ghost use Rattle.event_queue.specs.Heap.{entries_in_order, IsHeapOfKeys};

    ghost view = { λ it. entries_in_order it.keys.items it.heap.items };

    ghost invariant = { λ it. IsHeapOfKeys it.keys.items it.heap.items };
}

impl Agenda {
    pub(crate) fn make(alloc: Global) -> Agenda
        ensures { result ≡ [] }
    {
        Agenda {
            heap: Vec::new(alloc),
            keys: Vec::new(alloc),
        }
    }

    /// Adds a key whose load is kept at a place that no other has.
    pub(crate) fn push(&mut self, key: Key, place: usize) -> Result<(), NoMemory>
        requires new { IsNew key self.old }
        requires free { AllByRecursion (λ entry. entry.1 ≢ place) self.old }
        ensures ok { OnOk result (self.new ≡ insert_by key_of (key, place) self.old) }
        ensures err { OnErr result (self.new ≡ self.old) }
    {
        note(&mut self.keys, key, place)?;
        let last = self.heap.len();
        self.heap.push(Entry {
            time: key.time.0,
            place,
        })?;
        rise(self.heap.as_mut_slice(), self.keys.as_slice(), last);
        Ok(())
    }

    pub(crate) fn pop(&mut self) -> Option<(Key, usize)>
        ensures none { IfNone result (self.old ≡ []) }
        ensures unchanged { IfNone result (self.new ≡ self.old) }
        ensures some { IfSome result (λ entry. self.old ≡ entry ∷ self.new) }
    {
        if self.heap.is_empty() {
            return None;
        }
        let least = self.heap.swap_remove(0);
        mend(self.heap.as_mut_slice(), self.keys.as_slice());
        Some((self.keys[least.place], least.place))
    }

    pub(crate) fn least(&self) -> Option<Key>
        ensures value { result ≡ first_key self.now }
        ensures rising { IsRising key_of self.now }
    {
        if self.heap.is_empty() {
            return None;
        }
        Some(self.keys[self.heap[0].place])
    }
}

// Keeps the key at the place. Places are handed out one by one, so the list grows by one at most.
fn note(keys: &mut Vec<Key>, key: Key, place: usize) -> Result<(), NoMemory>
    ensures ok { OnOk result (IsNoted keys.old.items keys.new.items key place) }
    ensures err { OnErr result (keys.new.items ≡ keys.old.items) }
{
    if place < keys.len() {
        keys[place] = key;
        return Ok(());
    }
    let Some(len) = place.checked_add(1) else {
        return Err(NoMemory);
    };
    keys.resize(len, key)?;
    Ok(())
}
