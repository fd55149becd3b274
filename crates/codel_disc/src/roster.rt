//! Whose turn it is among the classes of a flow queue.

ghost use Rattle.std.specs.VecDeque.{deque_len, deque_capacity};
ghost use Rattle.std.specs.Prelude.{◌≡◌, ◌<◌, ◌++◌, ◌∷◌, [], false, IfSome, IfOk};
ghost use Rattle.codel_disc.specs.Roster.{empty_roster, stands, joined, first, rotated, sent_back, let_go};

use sim_base::NoMemory;
use std::alloc::Global;
use std::collections::VecDeque;
use std::marker::Model;

/// How many classes a flow queue has.
pub(crate) const CLASSES: usize = 64;

/// The classes that take turns, in the order in which they do: the new ones first. A flag for each class says whether it is
/// in one of the lists.
///
///     new: 7 3 -- its turn is over --> old: 1 5 2 -- its turn is over --> old, at the end
///      ^                                      |
///      '------- a frame comes ---- in neither <-- it held no frame
#[derive(Drop)]
pub struct Roster {
    new_ones: VecDeque<usize>,
    old_ones: VecDeque<usize>,
    flags: Vec<bool>,
}

impl Model for Roster {
    ghost use Rattle.std.specs.VecDeque.{deque_capacity};
    ghost use Rattle.codel_disc.specs.Roster.{PlainRoster};
    ghost use Rattle.codel_disc.specs.Standing.{IsRoster};

    ghost Value = { PlainRoster };

    ghost view = { λ r. record { new_ones = r.new_ones.items; old_ones = r.old_ones.items } };

    ghost invariant = { λ r. IsRoster r.new_ones.items r.old_ones.items r.flags.items (deque_capacity r.new_ones) (deque_capacity r.old_ones) };
}

impl Roster {
    pub(crate) fn make(alloc: Global) -> Result<Roster, NoMemory>
        ensures { IfOk result (λ roster. roster ≡ empty_roster) }
    {
        Ok(Roster {
            new_ones: VecDeque::with_capacity(alloc, CLASSES)?,
            old_ones: VecDeque::with_capacity(alloc, CLASSES)?,
            flags: vec![in alloc; false; CLASSES]?,
        })
    }

    /// Whether the class is in one of the lists.
    pub(crate) fn stands(&self, class: usize) -> bool
        requires { class < 64 }
        ensures { result ≡ stands class self.now }
    {
        self.flags[class]
    }

    /// Puts a class that isn't in the lists at the end of the new ones.
    pub(crate) fn join(&mut self, class: usize)
        requires known { class < 64 }
        requires fresh { stands class self.old ≡ false }
        ensures { self.new ≡ joined class self.old }
    {
        put_back(&mut self.new_ones, class);
        self.flags[class] = true;
    }

    /// The class whose turn it is.
    pub(crate) fn first(&self) -> Option<usize>
        ensures value { result ≡ first self.now }
        ensures known { IfSome (first self.now) (λ class. class < 64) }
    {
        match self.new_ones.front() {
            Some(class) => Some(*class),
            None => self.old_ones.front().copied(),
        }
    }

    /// Sends the class whose turn it is to the end of the old ones.
    pub(crate) fn send_back(&mut self)
        ensures { self.new ≡ sent_back self.old }
    {
        match self.new_ones.pop_front() {
            Some(class) => put_back(&mut self.old_ones, class),
            None => rotate(&mut self.old_ones),
        }
    }

    /// Sends the class whose turn it is to the end of the old ones, if it is new, and else out of the lists.
    pub(crate) fn let_go(&mut self)
        ensures { self.new ≡ let_go self.old }
    {
        match self.new_ones.pop_front() {
            Some(class) => put_back(&mut self.old_ones, class),
            None => {
                if let Some(class) = self.old_ones.pop_front() {
                    self.flags[class] = false;
                }
            }
        }
    }
}

/// Puts a class behind the others, where there is room for it.
fn put_back(classes: &mut VecDeque<usize>, class: usize)
    requires { deque_len classes.old < deque_capacity classes.old }
    ensures items { classes.new.items ≡ classes.old.items ++ class ∷ [] }
    ensures capacity { deque_capacity classes.new ≡ deque_capacity classes.old }
{
    match classes.push_back(class) {
        Ok(()) => {}
        Err(_) => unreachable!(),
    }
}

/// Puts the first class behind the others.
fn rotate(classes: &mut VecDeque<usize>)
    ensures items { classes.new.items ≡ rotated classes.old.items }
    ensures capacity { deque_capacity classes.new ≡ deque_capacity classes.old }
{
    if let Some(class) = classes.pop_front() {
        put_back(classes, class);
    }
}
