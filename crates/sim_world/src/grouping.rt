//! What stands under each number, as at each node, in one pass.

ghost use Rattle.std.specs.Prelude.{◌≡◌, ◌<◌, [], replicate, length, IfOk, OnOk};
ghost use Rattle.sim_world.specs.Grouping.{with_item};

use sim_base::{NoMemory, Sequence};
use std::alloc::Global;

/// A list for each of so many numbers, in which nothing stands yet.
#[tactic(auto, using(std::proofs::lemmas::List::replicate_more))]
pub fn no_items<T: Drop>(alloc: Global, count: u32) -> Result<Vec<Sequence<T>>, NoMemory>
    ensures { IfOk result (λ groups. groups.items ≡ replicate count []) }
{
    let mut groups = Vec::with_capacity(alloc, count as usize)?;
    'each: while groups.len() < count as usize {
        groups.push(Sequence::new(alloc))?;
    }
    Ok(groups)
}

/// Puts an item behind those under a number.
pub fn put<T: Drop>(groups: &mut Vec<Sequence<T>>, number: u32, item: T) -> Result<(), NoMemory>
    requires { number < length groups.old.items }
    ensures { OnOk result (groups.new.items ≡ with_item number item groups.old.items) }
{
    groups[number as usize].push(item)?;
    Ok(())
}
