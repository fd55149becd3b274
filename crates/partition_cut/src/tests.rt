//! Worked rows of cuts.

ghost use Rattle.std.specs.Prelude.{◌<◌, All, length};
ghost use Rattle.std.specs.Bool.{OnTrue};
ghost use Rattle.partition_cut.specs.Network.{AreGroups, IsShape, node_lists};

use crate::{Cut, CutBad, CutStop, Shape, auto, check, one};
use sim_base::{NoMemory, Time};
use std::alloc::{AllocError, Global};

/// Whether numbers are those of nodes.
fn are_nodes(list: &[u32], nodes: u32) -> bool
    ensures { OnTrue result (All (λ node. node < nodes) list.now) }
{
    list.iter().all(|node| *node < nodes)
}

/// Whether each list has nodes alone.
fn have_nodes(lists: &[Vec<u32>], nodes: u32) -> bool
    ensures { OnTrue result (All (λ list. All (λ node. node < nodes) list.items) lists.now) }
{
    lists.iter().all(|list| are_nodes(list.as_slice(), nodes))
}

/// Whether no list is empty.
fn are_full(lists: &[Vec<u32>]) -> bool
    ensures { OnTrue result (All (λ list. 0 < length list.items) lists.now) }
{
    lists.iter().all(|list| list.len() > 0)
}

/// Whether links have nodes at their ends.
fn have_ends(links: &[(u32, u32, Time)], nodes: u32) -> bool
    ensures { OnTrue result (All (λ link. (link.0 < nodes) × (link.1 < nodes)) links.now) }
{
    links.iter().all(|link| link.0 < nodes && link.1 < nodes)
}

/// Whether a shape has few links and LANs.
fn is_small(shape: &Shape) -> bool
    ensures { OnTrue result ((length shape.now.links.items < 100) × (length shape.now.lans.items < 100)) }
{
    shape.links.len() < 100 && shape.lans.len() < 100
}

/// Whether links and LANs name nodes of a shape.
fn are_named(shape: &Shape) -> bool
    ensures { OnTrue result (All (λ link. (link.0 < shape.now.nodes) × (link.1 < shape.now.nodes)) shape.now.links.items
        × All (λ lan. All (λ node. node < shape.now.nodes) lan.items) shape.now.lans.items) }
{
    let links = shape.links.as_slice();
    let lans = shape.lans.as_slice();
    have_ends(links, shape.nodes) && have_nodes(lans, shape.nodes)
}

/// Whether a shape is small, and its links and LANs name its nodes.
fn is_shape(shape: &Shape) -> bool
    ensures { OnTrue result (IsShape shape.now) }
{
    are_named(shape) && is_small(shape)
}

/// Whether groups name nodes of a shape, and none is empty.
fn are_groups(shape: &Shape, groups: &[Vec<u32>]) -> bool
    ensures { OnTrue result (AreGroups shape.now (node_lists groups.now)) }
{
    are_full(groups) && have_nodes(groups, shape.nodes)
}

/// What `check` says, where it may be asked.
fn checked(shape: &Shape, groups: &[Vec<u32>]) -> Option<Result<Cut, CutStop>> {
    if is_shape(shape) && are_groups(shape, groups) {
        Some(check(shape, groups))
    } else {
        None
    }
}

/// What `auto` makes, where it may be asked.
fn cut_by_delay(shape: &Shape) -> Option<Result<Cut, NoMemory>> {
    if is_shape(shape) {
        Some(auto(shape))
    } else {
        None
    }
}

/// What `one` makes, where it may be asked.
fn cut_as_one(shape: &Shape) -> Option<Result<Cut, NoMemory>> {
    if is_shape(shape) {
        Some(one(shape))
    } else {
        None
    }
}

/// Two nodes on a link.
fn two_nodes(alloc: Global, delay: Time) -> Result<Shape, AllocError> {
    Ok(Shape {
        nodes: 2,
        links: vec![in alloc; (0, 1, delay)]?,
        lans: Vec::new(alloc),
    })
}

/// Nodes 0 and 1, each in a group of its own.
fn each_alone(alloc: Global) -> Result<[Vec<u32>; 2], AllocError> {
    Ok([vec![in alloc; 0]?, vec![in alloc; 1]?])
}

#[test]
fn a_link_with_a_delay_is_cut(rt: HostRuntime) {
    let alloc = rt.alloc();
    let shape = two_nodes(alloc, Time(2_000_000)).expect(&rt, "memory");
    let groups = each_alone(alloc).expect(&rt, "memory");
    let answer = checked(&shape, &groups).expect(&rt, "a shape and groups");
    let cut = answer.expect(&rt, "an allowed cut");
    assert_eq!(rt; cut.groups, 2);
    assert_eq!(rt; cut.lookahead, Some(Time(2_000_000)));
}

#[test]
fn a_link_without_delay_is_not_cut(rt: HostRuntime) {
    let alloc = rt.alloc();
    let shape = two_nodes(alloc, Time(0)).expect(&rt, "memory");
    let groups = each_alone(alloc).expect(&rt, "memory");
    let answer = checked(&shape, &groups).expect(&rt, "a shape and groups");
    let stop = CutStop::Bad(CutBad::ZeroDelay { link: 0 });
    assert_eq!(rt; answer.err(), Some(stop));
}

#[test]
fn a_lan_is_not_cut(rt: HostRuntime) {
    let alloc = rt.alloc();
    let lan = vec![in alloc; 0, 1, 2].expect(&rt, "memory");
    let shape = Shape {
        nodes: 3,
        links: Vec::new(alloc),
        lans: vec![in alloc; lan].expect(&rt, "memory"),
    };
    let groups = [
        vec![in alloc; 0, 1].expect(&rt, "memory"),
        vec![in alloc; 2].expect(&rt, "memory"),
    ];
    let answer = checked(&shape, &groups).expect(&rt, "a shape and groups");
    let stop = CutStop::Bad(CutBad::Lan { lan: 0 });
    assert_eq!(rt; answer.err(), Some(stop));
}

#[test]
fn one_group_has_no_lookahead(rt: HostRuntime) {
    let alloc = rt.alloc();
    let shape = two_nodes(alloc, Time(5)).expect(&rt, "memory");
    let answer = cut_as_one(&shape).expect(&rt, "a shape");
    let cut = answer.expect(&rt, "memory");
    assert_eq!(rt; cut.groups, 1);
    assert_eq!(rt; cut.lookahead, None);
}

#[test]
fn a_chain_is_cut_at_the_median_delay(rt: HostRuntime) {
    let alloc = rt.alloc();
    let links = vec![in alloc;
        (0, 1, Time(1000)),
        (1, 2, Time(3000)),
        (2, 3, Time(2000)),
        (3, 4, Time(0)),
    ];
    let shape = Shape {
        nodes: 5,
        links: links.expect(&rt, "memory"),
        lans: Vec::new(alloc),
    };
    let answer = cut_by_delay(&shape).expect(&rt, "a shape");
    let cut = answer.expect(&rt, "memory");
    assert_eq!(rt; cut.groups, 3);
    assert_eq!(rt; cut.lookahead, Some(Time(2000)));
    assert_eq!(rt; cut.group_of.as_slice(), [0, 0, 1, 2, 2].as_slice());
}
