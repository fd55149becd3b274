//! Calls that are counted, some of which are to fail.

ghost use Rattle.std.specs.Prelude.{◌≡◌, ◌≤◌, IfOk};
ghost use Rattle.outside.specs.Calls.{no_calls, next_fails, one_more};

use sim_base::NoMemory;
use std::alloc::Global;
use std::marker::Model;

/// The numbers of the calls that are to fail, from 1, how many calls there were, and how many failed.
#[derive(Drop)]
pub struct Calls {
    to_fail: Vec<u32>,
    made: u64,
    faults: u64,
}

impl Model for Calls {
    ghost use Rattle.outside.specs.Calls.{Calls};

    ghost Value = { Calls };

    ghost view = { λ c. record { to_fail = c.to_fail.items; made = c.made; faults = c.faults } };
}

impl Calls {
    pub fn make(alloc: Global, to_fail: &[u32]) -> Result<Calls, NoMemory>
        ensures { IfOk result (λ calls. calls ≡ no_calls to_fail.now) }
    {
        Ok(Calls {
            to_fail: Vec::from_slice(alloc, to_fail)?,
            made: 0,
            faults: 0,
        })
    }

    /// Counts one more call, and says whether it is to fail.
    pub fn next_fails(&mut self) -> bool
        ensures answer { result ≡ next_fails self.old }
        ensures count { self.new ≡ record self.old { made = one_more self.old.made } }
    {
        self.made = self.made.saturating_add(1);
        let number = self.made;
        self.to_fail
            .iter()
            .any(|listed| u64::from(*listed) == number)
    }

    /// Counts one more fault.
    pub fn count_fault(&mut self)
        ensures count { self.new ≡ record self.old { faults = one_more self.old.faults } }
        ensures later { self.old.faults ≤ self.new.faults }
    {
        self.faults = self.faults.saturating_add(1);
    }
}
