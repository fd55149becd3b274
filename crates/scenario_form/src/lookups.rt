//! What the reader keeps to look interfaces up: by address, by node and network, and how many a node has.
ghost use Rattle.std.specs.Prelude.{◌≡◌, IfOk};
ghost use Rattle.scenario_form.specs.Across.{has_interface};
ghost use Rattle.scenario_form.specs.Lookups.{IsByAddress, IsConnected, count_at, IsCount};

use crate::interface::Interface;
use std::alloc::{AllocError, Global};
use std::collections::{HashMap, HashSet};

/// A node, and the prefix bits and the length of a network.
pub type Target = (u32, (u64, u64));

/// The interfaces by address.
pub fn by_address(alloc: Global, ends: &[Interface]) -> Result<HashMap<u32, Interface>, AllocError>
    ensures { IfOk result (λ m. IsByAddress ends.now m) }
{
    let mut found = HashMap::new(alloc);
    for end in ends {
        found.insert(end.address, *end)?;
    }
    Ok(found)
}

/// The networks that nodes are on.
pub fn connected(alloc: Global, ends: &[Interface]) -> Result<HashSet<Target>, AllocError>
    ensures { IfOk result (λ s. IsConnected ends.now s) }
{
    let mut held = HashSet::new(alloc);
    for end in ends {
        held.insert((end.node.0, end.network))?;
    }
    Ok(held)
}

fn count_of(counts: &HashMap<u32, u64>, node: u32) -> u64
    ensures { result ≡ count_at counts.now node }
{
    match counts.get(&node) {
        Some(count) => *count,
        None => 0,
    }
}

/// How many interfaces each node has.
pub fn counts(alloc: Global, ends: &[Interface]) -> Result<HashMap<u32, u64>, AllocError>
    ensures { IfOk result (λ m. IsCount ends.now m) }
{
    let mut counts = HashMap::new(alloc);
    for end in ends {
        let count = count_of(&counts, end.node.0);
        counts.insert(end.node.0, count + 1)?;
    }
    Ok(counts)
}

/// Whether a node has an interface of this number.
pub fn has_interface(ends: &[Interface], counts: &HashMap<u32, u64>, node: u32, number: i64) -> bool
    requires { IsCount ends.now counts.now }
    ensures { result ≡ has_interface ends.now node number }
{
    0 <= number && (number as u64) < count_of(counts, node)
}
