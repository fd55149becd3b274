//! Whether groups of nodes are an allowed cut.

ghost use Rattle.std.specs.Prelude.{◌≡◌, ◌==◌, ◌<◌, ◌^◌, ◌&&◌, ℕ, All, IfOk, IfErr, OnOk, None, position, option_map, length, ◌↔◌, List};
ghost use Rattle.std.specs.Option.{option_or};
ghost use Rattle.partition_cut.specs.AllowedCut.{IsCutOf, is_apart, is_cut};
ghost use Rattle.partition_cut.specs.NamedCut.{listed_cut};
ghost use Rattle.partition_cut.specs.Network.{AreGroups, IsShape, group_at, node_lists, plain_cut, plain_shape};
ghost use Rattle.partition_cut.specs.Refusal.{AreAllowed, IsRefusedFor, first_refusal, groups_of, network_refusal, place_refusal};
ghost use Rattle.partition_cut.specs.declared.network.Shape.{Shape};
ghost use Rattle.partition_cut.specs.declared.verdict.CutStop.TheVariants.{NoMemory};

use crate::counting::{count_places, number_groups};
use crate::lookahead::least_cut_delay;
use crate::network::{Cut, Shape};
use sim_base::{NoMemory, Time};

/// Why groups of nodes are no allowed cut.
#[derive(Clone, Copy, Debug, PartialEq, Eq)]
pub enum CutBad {
    /// The node stands in two places.
    Twice { node: u32 },
    /// The node stands in no group.
    Missing { node: u32 },
    /// The LAN has members in two groups.
    Lan { lan: u32 },
    /// The link has no delay, and its ends are in two groups.
    ZeroDelay { link: u32 },
}

/// Why groups give no cut.
#[derive(Clone, Copy, Debug, PartialEq, Eq)]
pub enum CutStop {
    Bad(CutBad),
    NoMemory,
}

impl From<NoMemory> for CutStop {
    ghost from_gives = { λ _ stop. stop ≡ NoMemory };

    fn from(_error: NoMemory) -> CutStop {
        CutStop::NoMemory
    }
}

/// The first node with this count.
fn first_count(counts: &[u8], count: u8) -> Option<u32>
    requires { length counts.now < 2 ^ 32 }
    ensures { result ≡ position (λ held. held == count) counts.now }
{
    for (node, held) in counts.iter().enumerate() {
        if *held == count {
            return Some(node as u32);
        }
    }
    None
}

/// Whether some member of a LAN is in another group than the first.
fn is_lan_apart(lan: &[u32], group_of: &[u32]) -> bool
    requires { All (λ member. member < length group_of.now) lan.now }
    ensures { result ≡ is_apart (group_at group_of.now) lan.now }
{
    for member in lan {
        if group_of[*member as usize] != group_of[lan[0] as usize] {
            return true;
        }
    }
    false
}

/// The first LAN that has members in two groups.
fn first_lan_apart(lans: &[Vec<u32>], group_of: &[u32]) -> Option<u32>
    requires few { length lans.now < 2 ^ 32 }
    requires members_in { All (λ lan. All (λ member. member < length group_of.now) lan) (node_lists lans.now) }
    ensures { result ≡ position (is_apart (group_at group_of.now)) (node_lists lans.now) }
{
    for (number, lan) in lans.iter().enumerate() {
        if is_lan_apart(lan.as_slice(), group_of) {
            return Some(number as u32);
        }
    }
    None
}

/// Whether a link has no delay and its ends in two groups.
fn is_link_without_delay(link: &(u32, u32, Time), group_of: &[u32]) -> bool
    requires { (link.now.0 < length group_of.now) × (link.now.1 < length group_of.now) }
    ensures { result ≡ (is_cut (group_at group_of.now) link.now && (link.now.2.0 == 0)) }
{
    group_of[link.0 as usize] != group_of[link.1 as usize] && link.2.0 == 0
}

/// The first link that has no delay and its ends in two groups.
fn first_link_without_delay(links: &[(u32, u32, Time)], group_of: &[u32]) -> Option<u32>
    requires few { length links.now < 2 ^ 32 }
    requires ends_in { All (λ link. (link.0 < length group_of.now) × (link.1 < length group_of.now)) links.now }
    ensures { result ≡ position (λ link. is_cut (group_at group_of.now) link && (link.2.0 == 0)) links.now }
{
    for (number, link) in links.iter().enumerate() {
        if is_link_without_delay(link, group_of) {
            return Some(number as u32);
        }
    }
    None
}

/// The first refusal for where nodes stand.
fn place_refusal_of(counts: &[u8]) -> Option<CutBad>
    requires { length counts.now < 2 ^ 32 }
    ensures { result ≡ option_or (option_map CutBad.Twice (position (λ count. count == 2) counts.now))
        (option_map CutBad.Missing (position (λ count. count == 0) counts.now)) }
{
    if let Some(node) = first_count(counts, 2) {
        return Some(CutBad::Twice { node });
    }
    match first_count(counts, 0) {
        Some(node) => Some(CutBad::Missing { node }),
        None => None,
    }
}

/// The first refusal for LANs and links.
fn network_refusal_of(shape: &Shape, group_of: &[u32]) -> Option<CutBad>
    requires shape { IsShape shape.now }
    requires each { length group_of.now ≡ shape.now.nodes }
    ensures { result ≡ network_refusal shape.now (group_at group_of.now) }
{
    if let Some(lan) = first_lan_apart(&shape.lans, group_of) {
        return Some(CutBad::Lan { lan });
    }
    match first_link_without_delay(&shape.links, group_of) {
        Some(link) => Some(CutBad::ZeroDelay { link }),
        None => None,
    }
}

/// The cut into groups in which each node stands once, or the first reason why it isn't allowed.
fn check_placed(shape: &Shape, groups: &[Vec<u32>]) -> Result<Cut, CutStop>
    requires shape { IsShape shape.now }
    requires groups { AreGroups shape.now (node_lists groups.now) }
    requires placed { place_refusal shape.now (node_lists groups.now) ≡ None }
    ensures allowed { IfOk result (λ cut. IsCutOf shape.now cut) }
    ensures these { IfOk result (λ cut. plain_cut cut ≡ listed_cut (plain_shape shape.now) (node_lists groups.now)) }
    ensures good { OnOk result (first_refusal shape.now (node_lists groups.now) ≡ None) }
    ensures bad { IfErr result (λ stop. IsRefusedFor stop (first_refusal shape.now (node_lists groups.now))) }
{
    let group_of = number_groups(shape, groups)?;
    let numbers = group_of.as_slice();
    match network_refusal_of(shape, numbers) {
        Some(bad) => Err(CutStop::Bad(bad)),
        None => {
            let lookahead = least_cut_delay(&shape.links, numbers);
            Ok(Cut {
                group_of,
                groups: groups.len() as u32,
                lookahead,
            })
        }
    }
}

/// The cut into these groups, or the first reason why it isn't allowed. Reasons are looked for in
/// the order of `CutBad`, each with the least number.
pub fn check(shape: &Shape, groups: &[Vec<u32>]) -> Result<Cut, CutStop>
    requires shape { IsShape shape.now }
    requires groups { AreGroups shape.now (node_lists groups.now) }
    ensures allowed { IfOk result (λ cut. IsCutOf shape.now cut) }
    ensures these { IfOk result (λ cut. plain_cut cut ≡ listed_cut (plain_shape shape.now) (node_lists groups.now)) }
    ensures good { OnOk result (first_refusal shape.now (node_lists groups.now) ≡ None) }
    ensures bad { IfErr result (λ stop. IsRefusedFor stop (first_refusal shape.now (node_lists groups.now))) }
{
    let counts = count_places(shape, groups)?;
    match place_refusal_of(counts.as_slice()) {
        Some(bad) => Err(CutStop::Bad(bad)),
        None => check_placed(shape, groups),
    }
}

/// Nothing refuses groups of nodes exactly where they are an allowed cut.
pub fn refusals_are_exact()
    ensures { (shape : Shape) (groups : List (List ℕ)) →
        (first_refusal shape groups ≡ None) ↔ AreAllowed shape groups }
{}
