//! The queue of pending events.

ghost use Rattle.std.specs.Prelude.{◌≡◌, ◌<◌, [], ◌∷◌, OnOk, OnErr, IfNone, IfSome};
ghost use Rattle.event_queue.specs.Pending.{key_of, first_key, IsNew, NoneBelow};
ghost use Rattle.sim_base.specs.KeyOrder.{insert_by, IsRising};

use crate::agenda::Agenda;
use sim_base::{Key, NoMemory, Time};
use slab::Slab;
use std::alloc::Global;
use std::marker::Model;

/// Pending events: keys with loads, seen as the list of these pairs in the order of the keys. The heap holds
/// small entries alone, and a load stays where it was put until it is popped.
///
/// ```text
/// agenda   (key, 2) (key, 0) (key, 3)     a binary heap, the least key on top
/// loads    [ load | vacant | load | load ]   by place
/// ```
#[derive(Drop)]
pub struct Queue<T> {
    agenda: Agenda,
    loads: Slab<T>,
}

impl<T> Model for Queue<T> {
    ghost use Rattle.std.specs.Prelude.{List};
    ghost use Rattle.sim_base.specs.declared.key.Key.{Key};

    ghost Value = { List (Key × T) };

    ghost use Rattle.event_queue.specs.Loads.{events_at, HoldsLoads};

    ghost view = { λ it. events_at it.loads.slots it.agenda };

    ghost invariant = { λ it. HoldsLoads it.loads.slots it.agenda };
}

impl<T> Queue<T> {
    /// An empty queue. It takes no memory before the first event.
    pub fn make(alloc: Global) -> Queue<T>
        ensures { result ≡ [] }
    {
        Queue {
            agenda: Agenda::make(alloc),
            loads: Slab::new(alloc),
        }
    }

    /// Adds an event under a key that the queue doesn't hold. Where memory runs out, the queue is as before and the
    /// load is dropped.
    pub fn push(&mut self, key: Key, load: T) -> Result<(), NoMemory>
    where
        T: Drop,
        requires { IsNew key self.old }
        ensures ok { OnOk result (self.new ≡ insert_by key_of (key, load) self.old) }
        ensures err { OnErr result (self.new ≡ self.old) }
    {
        self.loads.reserve(1)?;
        self.agenda.push(key, self.loads.vacant_key())?;
        self.loads.insert_reserved(load);
        Ok(())
    }

    /// Takes the least event, where its time is below `end`.
    pub fn pop_below(&mut self, end: Time) -> Option<(Key, T)>
        ensures none { IfNone result (NoneBelow end self.old) }
        ensures unchanged { IfNone result (self.new ≡ self.old) }
        ensures some { IfSome result (λ event. self.old ≡ event ∷ self.new) }
        ensures below { IfSome result (λ event. event.0.time.0 < end.0) }
        ensures rising { IsRising key_of self.old }
    {
        let least = self.agenda.least()?;
        if end <= least.time {
            return None;
        }
        let (key, place) = self.agenda.pop()?;
        Some((key, self.loads.remove(place)))
    }

    /// The key of the least event.
    pub fn least(&self) -> Option<Key>
        ensures value { result ≡ first_key self.now }
        ensures rising { IsRising key_of self.now }
    {
        self.agenda.least()
    }
}
