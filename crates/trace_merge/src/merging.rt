//! The lines of groups, merged: each list is in order, so the first lines alone are compared. Lists are taken two by two,
//! so a line is moved once for each doubling of the groups, and a list beside empty ones isn't touched.

ghost use Rattle.std.specs.Prelude.{◌≡◌, ◌≢◌, ◌≤◌, ◌⊎◌, ◌∷◌, [], IfNone, IfOk, IfSome, OnOk, filter, length, map, true, false};
ghost use Rattle.sim_base.specs.KeyOrder.{earlier};
ghost use Rattle.round_core.specs.Parts.{IsIn};
ghost use Rattle.trace_merge.specs.Merge.{AreGroups, AreMergedTwo, HasMergedFront, IsMerged, LinesRise, is_below, leads, place};
ghost use Rattle.pkt_face.specs.declared.line.Line.{Line as TraceLine};

use pkt_face::{Line, Pkt};
use sim_base::{Key, NoMemory};
use std::collections::VecDeque;

/// Whether a line comes before another, by their keys and then by their indices.
fn is_earlier<P: Pkt>(a: &Line<P>, b: &Line<P>) -> bool
    ensures { result ≡ earlier (place a.now) (place b.now) }
{
    let first = a.key.is_before(&b.key);
    if first {
        return true;
    }
    let last = b.key.is_before(&a.key);
    if last {
        return false;
    }
    a.index < b.index
}

/// Whether the next line is the first of the first list.
fn is_first_next<P: Pkt>(first: &VecDeque<Line<P>>, second: &VecDeque<Line<P>>) -> bool
    ensures { result ≡ leads first.now.items second.now.items }
{
    match (first.front(), second.front()) {
        (Some(a), Some(b)) => is_earlier(a, b),
        (Some(_), None) => true,
        (None, _) => false,
    }
}

/// Takes the earlier of the first lines of two lists.
fn take_next<P: Pkt>(
    first: &mut VecDeque<Line<P>>,
    second: &mut VecDeque<Line<P>>,
) -> Option<Line<P>>
    ensures none { IfNone result ((first.old.items ≡ []) × (second.old.items ≡ [])) }
    ensures some { IfSome result (λ line. ((leads first.old.items second.old.items ≡ true) × (first.old.items ≡ line ∷ first.new.items) × (second.new.items ≡ second.old.items))
        ⊎ ((leads first.old.items second.old.items ≡ false) × (second.old.items ≡ line ∷ second.new.items) × (first.new.items ≡ first.old.items))) }
{
    if is_first_next(first, second) {
        first.pop_front()
    } else {
        second.pop_front()
    }
}

/// Merges two lists, line by line.
fn merge_lines<P: Pkt>(first: Vec<Line<P>>, second: Vec<Line<P>>) -> Result<Vec<Line<P>>, NoMemory>
    requires rise { LinesRise first.items × LinesRise second.items }
    requires apart { (x y : TraceLine P) → IsIn x first.items → IsIn y second.items → place x ≢ place y }
    ensures { IfOk result (λ lines. AreMergedTwo first.items second.items lines.items) }
{
    let alloc = *first.allocator();
    let mut lines = Vec::with_capacity(alloc, first.len().saturating_add(second.len()))?;
    let mut left = VecDeque::from(first);
    let mut right = VecDeque::from(second);
    'lines: while let Some(line) = take_next(&mut left, &mut right) {
        lines.push(line)?;
    }
    Ok(lines)
}

/// Merges two lists. Where one is empty, the other is handed through.
fn merge_two<P: Pkt>(first: Vec<Line<P>>, second: Vec<Line<P>>) -> Result<Vec<Line<P>>, NoMemory>
    requires rise { LinesRise first.items × LinesRise second.items }
    requires apart { (x y : TraceLine P) → IsIn x first.items → IsIn y second.items → place x ≢ place y }
    ensures { IfOk result (λ lines. AreMergedTwo first.items second.items lines.items) }
{
    if second.is_empty() {
        return Ok(first);
    }
    if first.is_empty() {
        return Ok(second);
    }
    merge_lines(first, second)
}

/// Merges the first two lists, and puts the list that they make behind the others.
fn merge_front<P: Pkt>(lists: &mut VecDeque<Vec<Line<P>>>) -> Result<(), NoMemory>
    requires groups { AreGroups (map (λ list. list.items) lists.old.items) }
    ensures { OnOk result (HasMergedFront (map (λ list. list.items) lists.old.items) (map (λ list. list.items) lists.new.items)) }
{
    let Some(first) = lists.pop_front() else {
        return Ok(());
    };
    let Some(second) = lists.pop_front() else {
        lists.push_back(first)?;
        return Ok(());
    };
    let merged = merge_two(first, second)?;
    lists.push_back(merged)?;
    Ok(())
}

/// Keeps the lines that come before a key, where one is given.
fn keep_below<P: Pkt>(mut lines: Vec<Line<P>>, limit: Option<Key>) -> Vec<Line<P>>
    ensures { result.items ≡ filter (is_below limit) lines.items }
{
    match limit {
        None => lines,
        Some(limit) => {
            lines.retain(|line| line.key.is_before(&limit));
            lines
        }
    }
}

/// The lines of all groups in the order of their keys and indices, or those of them that come before a key. Each group's
/// lines are in this order, and no two of all stand at one key with one index. On `NoMemory` all are given up.
pub fn merge<P: Pkt>(
    groups: Vec<Vec<Line<P>>>,
    limit: Option<Key>,
) -> Result<Vec<Line<P>>, NoMemory>
    requires { AreGroups (map (λ group. group.items) groups.items) }
    ensures { IfOk result (λ lines. IsMerged (map (λ group. group.items) groups.items) limit lines.items) }
{
    let alloc = *groups.allocator();
    let mut lists = VecDeque::from(groups);
    'pairs: while lists.len() > 1 {
        merge_front(&mut lists)?;
    }
    match lists.pop_front() {
        Some(lines) => Ok(keep_below(lines, limit)),
        None => Ok(Vec::new(alloc)),
    }
}
