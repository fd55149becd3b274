//! Who is on a LAN.

ghost use Rattle.std.specs.Prelude.{◌≡◌, ◌<◌, ◌++◌, List, length, slice_index_or, All, IfOk, OnOk, ℕ, [], ◌∷◌};
ghost use Rattle.std.specs.List.{filter_map};
ghost use Rattle.sim_world.specs.Ends.{IsOn};
ghost use Rattle.sim_world.specs.Grouping.{grouped, joined};
ghost use Rattle.sim_world.specs.Lans.{lan_of, mac_of, member_of, members_of, others};
ghost use Rattle.sim_world.specs.declared.ends.End.{End};

use crate::ends::{End, Medium};
use crate::grouping::{no_items, put};
use iface_step::Place;
use sim_base::{NoMemory, NodeId, Sequence};
use std::alloc::Global;

/// A member of a LAN: the LAN's number, and the member's interface.
#[derive(Clone, Copy, Debug, PartialEq, Eq)]
pub struct Member {
    pub lan: u32,
    pub place: Place,
}

/// The members of each LAN, in the order of their nodes.
pub fn members_by_lan(
    alloc: Global,
    lans: u32,
    ends: &[Sequence<End>],
) -> Result<Vec<Sequence<Member>>, NoMemory>
    requires { All (All (λ e. IsOn lans e.medium)) ends.now }
    ensures { IfOk result (λ members. members.items ≡ members_of lans (joined ends.now)) }
{
    let mut members = no_items(alloc, lans)?;
    for there in ends {
        add_members(&mut members, there.as_slice())?;
    }
    Ok(members)
}

/// Adds the members among a node's interfaces.
fn add_members(members: &mut Vec<Sequence<Member>>, ends: &[End]) -> Result<(), NoMemory>
    requires { All (λ e. IsOn (length members.old.items) e.medium) ends.now }
    ensures { (lans : ℕ) (before : List End) → members.old.items ≡ members_of lans before → OnOk result (members.new.items ≡ members_of lans (before ++ ends.now)) }
{
    for end in ends {
        add_member(members, end)?;
    }
    Ok(())
}

/// Adds an interface to the LAN that it is on, if it is on one.
fn add_member(members: &mut Vec<Sequence<Member>>, end: &End) -> Result<(), NoMemory>
    requires { IsOn (length members.old.items) end.now.medium }
    ensures member { (lans : ℕ) (before : List End) → members.old.items ≡ members_of lans before → OnOk result (members.new.items ≡ members_of lans (before ++ end.now ∷ [])) }
    ensures count { OnOk result (length members.new.items ≡ length members.old.items) }
{
    match end.medium {
        Medium::Link { .. } => Ok(()),
        Medium::OnLan { lan } => {
            let member = Member {
                lan,
                place: end.place,
            };
            put(members, lan, member)
        }
    }
}

/// The interfaces of a LAN's other members.
pub fn others(alloc: Global, node: NodeId, members: &[Member]) -> Result<Vec<Place>, NoMemory>
    ensures { IfOk result (λ places. places.items ≡ others node members.now) }
{
    let mut places = Vec::with_capacity(alloc, members.len())?;
    for member in members {
        if member.place.node != node {
            places.push(member.place)?;
        }
    }
    Ok(places)
}

/// The MAC address of a node on a LAN: two bytes of its own, the LAN's number in two, and the node's in two.
pub fn mac_of(lan: u32, node: NodeId) -> [u8; 6]
    ensures { result ≡ mac_of lan node }
{
    [
        2,
        0,
        (lan / 256 % 256) as u8,
        (lan % 256) as u8,
        (node.0 / 256 % 256) as u8,
        (node.0 % 256) as u8,
    ]
}
