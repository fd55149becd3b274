//! Where groups that are lists of nodes put each node.

ghost use Rattle.std.specs.Prelude.{◌≡◌, ◌==◌, ◌+◌, ◌^◌, ◌≤◌, ◌<◌, ℕ, All, IfOk, count_by, map, min, length, slice_index, if◌then◌else◌};
ghost use Rattle.std.specs.List.{list_any};
ghost use Rattle.partition_cut.specs.Network.{AreGroups, node_lists, nodes_of};
ghost use Rattle.partition_cut.specs.Refusal.{groups_of, places};

use crate::network::Shape;
use sim_base::NoMemory;

/// One more than a count, where two stands for more.
fn one_more(count: u8) -> u8
    requires { count ≤ 2 }
    ensures { result ≡ min 2 (count + 1) }
{
    (count + 1).min(2)
}

/// Counts the members of a group, none, one, or two and more.
fn count_members(counts: &mut [u8], members: &[u32])
    requires members_in { All (λ member. member < length counts.old) members.now }
    requires counted { All (λ count. count ≤ 2) counts.old }
    ensures counts { (node : ℕ) → node < length counts.old →
        slice_index counts.new node ≡ min 2 (slice_index counts.old node + count_by (λ member. member == node) members.now) }
{
    for member in members {
        let node = *member as usize;
        counts[node] = one_more(counts[node]);
    }
}

/// In how many places each node stands: none, one, or two and more.
pub fn count_places(shape: &Shape, groups: &[Vec<u32>]) -> Result<Vec<u8>, NoMemory>
    requires { AreGroups shape.now (node_lists groups.now) }
    ensures counts { IfOk result (λ counts. counts.items
        ≡ map (λ node. min 2 (places (node_lists groups.now) node)) (nodes_of shape.now)) }
    ensures few { IfOk result (λ counts. length counts.items < 2 ^ 32) }
{
    let alloc = *shape.links.allocator();
    let mut counts = vec![in alloc; 0; shape.nodes as usize]?;
    for group in groups {
        count_members(&mut counts, group.as_slice());
    }
    Ok(counts)
}

/// Gives the members of a group its number.
fn number_members(numbers: &mut [u32], members: &[u32], group: u32)
    requires { All (λ member. member < length numbers.old) members.now }
    ensures { (node : ℕ) → node < length numbers.old → slice_index numbers.new node
        ≡ (if list_any (λ member. member == node) members.now then group else slice_index numbers.old node) }
{
    for member in members {
        numbers[*member as usize] = group;
    }
}

/// The group of each node.
pub fn number_groups(shape: &Shape, groups: &[Vec<u32>]) -> Result<Vec<u32>, NoMemory>
    requires named { AreGroups shape.now (node_lists groups.now) }
    requires few { length groups.now ≤ shape.now.nodes }
    ensures numbers { IfOk result (λ numbers. numbers.items
        ≡ groups_of shape.now (node_lists groups.now)) }
    ensures few { IfOk result (λ _. length groups.now < 2 ^ 32) }
{
    let alloc = *shape.links.allocator();
    let mut numbers = vec![in alloc; 0; shape.nodes as usize]?;
    for (number, group) in groups.iter().enumerate() {
        number_members(&mut numbers, group.as_slice(), number as u32);
    }
    Ok(numbers)
}
