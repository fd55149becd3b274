//! What a run in rounds reports.

ghost use Rattle.std.specs.Prelude.{◌≡◌, ◌++◌, ◌<◌, ◌^◌, ℕ, All, IfOk, OnOk, Some, fold, length, map, slice_get};
ghost use Rattle.layer_words.specs.Counting.{count_up};
ghost use Rattle.node_step.specs.LocalApp.{app_count};
ghost use Rattle.node_step.specs.Node.{PlainNode};
ghost use Rattle.node_step.specs.Part.{place_of};
ghost use Rattle.round_kernel.specs.Report.{AreCounted, AreNodes};

use crate::groups::Group;
use node_step::{AppCount, Node};
use pkt_face::Pkt;
use plain_kernel::Report;
use sim_base::{NoMemory, NodeId};

/// What is counted of nodes: how many packets they have dropped, and what their applications have sent and got.
#[derive(Drop)]
struct Counts {
    drops: u64,
    apps: Vec<AppCount>,
}

/// Adds what is counted of a node.
fn count_node<P: Pkt>(node: &Node<P>, counts: &mut Counts) -> Result<(), NoMemory>
    ensures drops { OnOk result (counts.new.drops ≡ count_up node.now.drops counts.old.drops) }
    ensures apps { OnOk result (counts.new.apps.items ≡ counts.old.apps.items ++ map app_count node.now.apps) }
{
    counts.drops = counts.drops.saturating_add(node.drops());
    node.add_counts(&mut counts.apps)?;
    Ok(())
}

/// Adds what is counted of a group's node of a number.
fn count_number<P: Pkt>(group: &Group<P>, number: u32, counts: &mut Counts) -> Result<(), NoMemory>
    ensures drops { OnOk result ((node : PlainNode) → number < length group.now.0.part.places → slice_get group.now.0.part.nodes (place_of number group.now.0.part) ≡ Some node → counts.new.drops ≡ count_up node.drops counts.old.drops) }
    ensures apps { OnOk result ((node : PlainNode) → number < length group.now.0.part.places → slice_get group.now.0.part.nodes (place_of number group.now.0.part) ≡ Some node → counts.new.apps.items ≡ counts.old.apps.items ++ map app_count node.apps) }
{
    let Some(node) = group.lp().part().node(NodeId(number)) else {
        return Ok(());
    };
    count_node(node, counts)
}

/// What is counted of all nodes, in the order of their numbers.
fn count_nodes<P: Pkt>(groups: &Vec<Group<P>>, group_of: &[u32]) -> Result<Counts, NoMemory>
    requires within { All (λ group. group < length groups.now.items) group_of.now }
    requires few { length group_of.now < 2 ^ 32 }
    ensures { IfOk result (λ counts. (nodes : ℕ → PlainNode) → AreNodes groups.now.items group_of.now nodes →
        AreCounted nodes (length group_of.now) counts.drops counts.apps.items) }
{
    let mut counts = Counts {
        drops: 0,
        apps: Vec::new(*groups.allocator()),
    };
    for (number, group) in group_of.iter().enumerate() {
        count_number(&groups[*group as usize], number as u32, &mut counts)?;
    }
    Ok(counts)
}

/// How many events each group has fired.
fn fired_by_each<P: Pkt>(groups: &Vec<Group<P>>) -> Result<Vec<u64>, NoMemory>
    ensures { IfOk result (λ fired. fired.items ≡ map (λ group. group.0.fired) groups.now.items) }
{
    let mut fired = Vec::with_capacity(*groups.allocator(), groups.len())?;
    for group in groups {
        fired.push(group.lp().fired())?;
    }
    Ok(fired)
}

/// The sum of counts.
pub fn total(counts: &[u64]) -> u64
    ensures { result ≡ fold (λ total count. count_up count total) 0 counts.now }
{
    let mut total: u64 = 0;
    for count in counts {
        total = total.saturating_add(*count);
    }
    total
}

/// What groups report that have come to their end in so many windows.
pub fn report_of<P: Pkt>(
    groups: &Vec<Group<P>>,
    group_of: &[u32],
    windows: u64,
) -> Result<Report, NoMemory>
    requires within { All (λ group. group < length groups.now.items) group_of.now }
    requires few { length group_of.now < 2 ^ 32 }
    ensures events { IfOk result (λ report. report.events ≡ fold (λ total count. count_up count total) 0 report.group_events.items) }
    ensures groups { IfOk result (λ report. report.group_events.items ≡ map (λ group. group.0.fired) groups.now.items) }
    ensures windows { IfOk result (λ report. report.windows ≡ windows) }
    ensures nodes { IfOk result (λ report. (nodes : ℕ → PlainNode) → AreNodes groups.now.items group_of.now nodes →
        AreCounted nodes (length group_of.now) report.drops report.apps.items) }
{
    let counts = count_nodes(groups, group_of)?;
    let fired = fired_by_each(groups)?;
    Ok(Report {
        events: total(&fired),
        drops: counts.drops,
        apps: counts.apps,
        windows,
        group_events: fired,
    })
}
