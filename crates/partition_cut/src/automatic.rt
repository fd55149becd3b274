//! The cut that keeps near nodes together: those of a LAN, and those of a link below the median delay.

ghost use Rattle.std.specs.Prelude.{◌≡◌, ◌==◌, ◌≤◌, ◌<◌, ◌+◌, ◌-◌, ◌/◌, ◌^◌, ℕ, List, All, IfOk, fold, flat_map, length, map, slice_get, slice_index, if◌then◌else◌};
ghost use Rattle.std.specs.List.{range_with_len};
ghost use Rattle.partition_cut.specs.AllowedCut.{IsCutOf};
ghost use Rattle.partition_cut.specs.AutoCut.{AreSettled, IsAutoCut, IsMedian, is_kept, joined, pairs_of, pairs_of_lan, pairs_of_links, positive_delays, rank};
ghost use Rattle.partition_cut.specs.Forest.{AreParents, LeadTo};
ghost use Rattle.partition_cut.specs.NamedCut.{auto_cut};
ghost use Rattle.partition_cut.specs.Network.{IsShape, node_lists, nodes_of, plain_cut, plain_shape};

use crate::lookahead::least_cut_delay;
use crate::network::{Cut, Shape};
use sim_base::{NoMemory, Time};
use std::alloc::Global;

/// The positive delays of links.
fn positive_delays_of(alloc: Global, links: &[(u32, u32, Time)]) -> Result<Vec<u64>, NoMemory>
    ensures { IfOk result (λ delays. delays.items ≡ positive_delays links.now) }
{
    let delays = links
        .iter()
        .map(|link| link.2.0)
        .filter(|delay| *delay > 0)
        .collect(alloc)?;
    Ok(delays)
}

/// The element in the middle of a list, the earlier of two.
fn middle_of(sorted: &[u64]) -> Option<u64>
    ensures { result ≡ slice_get sorted.now ((length sorted.now - 1) / 2) }
{
    sorted.get(sorted.len().saturating_sub(1) / 2).copied()
}

/// The median of delays.
fn median(mut delays: Vec<u64>) -> Result<Option<u64>, NoMemory>
    ensures { IfOk result (λ threshold. IsMedian delays.items threshold) }
{
    delays.sort()?;
    Ok(middle_of(delays.as_slice()))
}

/// The root above a node. On the way up, nodes get their parents' parents in place of their parents.
fn root_of(parents: &mut [u32], node: u32) -> u32
    requires below { AreParents parents.old }
    requires node_in { node < length parents.old }
    ensures below { AreParents parents.new }
    ensures root_in { result < length parents.new }
    ensures leads { (labels : List ℕ) → LeadTo parents.old labels → LeadTo parents.new labels
        × (result ≡ slice_index labels node) × (slice_index labels result ≡ result) }
{
    let mut at = node;
    while parents[at as usize] != at {
        let above = parents[parents[at as usize] as usize];
        parents[at as usize] = above;
        at = above;
    }
    at
}

/// Makes one tree of those of two nodes, under the lesser root.
fn join(parents: &mut [u32], a: u32, b: u32)
    requires below { AreParents parents.old }
    requires a_in { a < length parents.old }
    requires b_in { b < length parents.old }
    ensures below { AreParents parents.new }
    ensures leads { (labels : List ℕ) → LeadTo parents.old labels → LeadTo parents.new (joined labels (a, b)) }
{
    let first = root_of(parents, a);
    let second = root_of(parents, b);
    let high = first.max(second);
    let low = first.min(second);
    parents[high as usize] = low;
}

/// Whether a link stays within a group.
fn is_link_kept(threshold: Option<u64>, link: &(u32, u32, Time)) -> bool
    ensures { result ≡ is_kept threshold link.now }
{
    match threshold {
        None => true,
        Some(threshold) => link.2.0 < threshold,
    }
}

/// Joins the ends of a link that stays within a group.
fn join_link(parents: &mut [u32], link: &(u32, u32, Time), threshold: Option<u64>)
    requires below { AreParents parents.old }
    requires ends { (link.now.0 < length parents.old) × (link.now.1 < length parents.old) }
    ensures below { AreParents parents.new }
    ensures leads { (labels : List ℕ) → LeadTo parents.old labels →
        LeadTo parents.new (if is_kept threshold link.now then joined labels (link.now.0, link.now.1) else labels) }
{
    if !is_link_kept(threshold, link) {
        return;
    }
    join(parents, link.0, link.1);
}

/// Joins the ends of the links that stay within groups.
fn join_links(parents: &mut [u32], links: &[(u32, u32, Time)], threshold: Option<u64>)
    requires below { AreParents parents.old }
    requires ends { All (λ link. (link.0 < length parents.old) × (link.1 < length parents.old)) links.now }
    ensures below { AreParents parents.new }
    ensures leads { (labels : List ℕ) → LeadTo parents.old labels →
        LeadTo parents.new (fold joined labels (pairs_of_links threshold links.now)) }
{
    for link in links {
        join_link(parents, link, threshold);
    }
}

/// Joins the members of a LAN.
fn join_lan(parents: &mut [u32], lan: &[u32])
    requires below { AreParents parents.old }
    requires members { All (λ member. member < length parents.old) lan.now }
    ensures below { AreParents parents.new }
    ensures leads { (labels : List ℕ) → LeadTo parents.old labels →
        LeadTo parents.new (fold joined labels (pairs_of_lan lan.now)) }
{
    for member in lan {
        join(parents, lan[0], *member);
    }
}

/// Joins the members of each LAN.
fn join_lans(parents: &mut [u32], lans: &[Vec<u32>])
    requires below { AreParents parents.old }
    requires members { All (λ lan. All (λ member. member < length parents.old) lan) (node_lists lans.now) }
    ensures below { AreParents parents.new }
    ensures leads { (labels : List ℕ) → LeadTo parents.old labels →
        LeadTo parents.new (fold joined labels (flat_map pairs_of_lan (node_lists lans.now))) }
{
    for lan in lans {
        join_lan(parents, lan.as_slice());
    }
}

/// Joins all that stays together.
fn join_all(parents: &mut [u32], shape: &Shape, threshold: Option<u64>)
    requires below { AreParents parents.old }
    requires shape { IsShape shape.now }
    requires each { length parents.old ≡ shape.now.nodes }
    ensures below { AreParents parents.new }
    ensures leads { (labels : List ℕ) → LeadTo parents.old labels →
        LeadTo parents.new (fold joined labels (pairs_of threshold shape.now)) }
{
    join_links(parents, &shape.links, threshold);
    join_lans(parents, &shape.lans);
}

/// Puts each node's label in place of its parent.
fn label_nodes(parents: &mut [u32])
    requires { AreParents parents.old }
    ensures { (labels : List ℕ) → LeadTo parents.old labels → parents.new ≡ labels }
{
    for node in 0..parents.len() {
        let label = parents[parents[node] as usize];
        parents[node] = label;
    }
}

/// Each node as its own parent.
fn own_parents(alloc: Global, nodes: u32) -> Result<Vec<u32>, NoMemory>
    ensures { IfOk result (λ parents. parents.items ≡ range_with_len 0 nodes) }
{
    let mut parents = Vec::new(alloc);
    for node in 0..nodes {
        parents.push(node)?;
    }
    Ok(parents)
}

/// Gives nodes that are their own parents the labels by which all that stays together is joined.
fn join_and_label(nodes: &mut [u32], shape: &Shape, threshold: Option<u64>)
    requires shape { IsShape shape.now }
    requires own { nodes.old ≡ nodes_of shape.now }
    ensures { nodes.new ≡ fold joined (nodes_of shape.now) (pairs_of threshold shape.now) }
{
    join_all(nodes, shape, threshold);
    label_nodes(nodes);
}

/// The labels of nodes, equal where nodes stay together: the least of them.
fn labels_of(shape: &Shape, threshold: Option<u64>) -> Result<Vec<u32>, NoMemory>
    requires { IsShape shape.now }
    ensures labels { IfOk result (λ labels. labels.items ≡ fold joined (nodes_of shape.now) (pairs_of threshold shape.now)) }
    ensures few { IfOk result (λ _. shape.now.nodes < 2 ^ 32) }
{
    let mut nodes = own_parents(*shape.links.allocator(), shape.nodes)?;
    join_and_label(&mut nodes, shape, threshold);
    Ok(nodes)
}

/// The number of a node's group: the next, where the node is the first of its label.
fn number_for(label: u32, node: usize, next: u32, numbers: &[u32]) -> u32
    requires label { label ≤ node }
    requires each { length numbers.now ≡ node }
    ensures { result ≡ (if label == node then next else slice_index numbers.now label) }
{
    if label as usize == node {
        next
    } else {
        numbers[label as usize]
    }
}

/// The number of groups, with one more node.
fn next_after(label: u32, node: usize, next: u32) -> u32
    requires { next + 1 < 2 ^ 32 }
    ensures { result ≡ (if label == node then next + 1 else next) }
{
    if label as usize == node {
        next + 1
    } else {
        next
    }
}

/// The group of each node by the labels, and how many groups there are.
fn numbers_of(alloc: Global, labels: &[u32]) -> Result<(Vec<u32>, u32), NoMemory>
    requires settled { AreSettled labels.now }
    requires few { length labels.now < 2 ^ 32 }
    ensures numbers { IfOk result (λ made. made.0.items ≡ map (rank labels.now) labels.now) }
    ensures groups { IfOk result (λ made. made.1 ≡ rank labels.now (length labels.now)) }
{
    let mut numbers = Vec::new(alloc);
    let mut next = 0;
    for (node, label) in labels.iter().enumerate() {
        let number = number_for(*label, node, next, numbers.as_slice());
        numbers.push(number)?;
        next = next_after(*label, node, next);
    }
    Ok((numbers, next))
}

/// The cut of the links that take at least the median of the positive delays: the one at index
/// `(n - 1) / 2` of the `n` in their order. Groups are what the other links and the LANs join, and
/// are numbered by their least node.
pub fn auto(shape: &Shape) -> Result<Cut, NoMemory>
    requires { IsShape shape.now }
    ensures allowed { IfOk result (λ cut. IsCutOf shape.now cut) }
    ensures joined { IfOk result (λ cut. IsAutoCut shape.now cut) }
    ensures named { IfOk result (λ cut. plain_cut cut ≡ auto_cut (plain_shape shape.now)) }
{
    let alloc = *shape.links.allocator();
    let delays = positive_delays_of(alloc, &shape.links)?;
    let threshold = median(delays)?;
    let labels = labels_of(shape, threshold)?;
    let numbered = numbers_of(alloc, labels.as_slice())?;
    let lookahead = least_cut_delay(&shape.links, numbered.0.as_slice());
    Ok(Cut {
        group_of: numbered.0,
        groups: numbered.1,
        lookahead,
    })
}
