//! The interfaces of a scenario whose packets are captured.

ghost use Rattle.std.specs.Prelude.{◌≡◌, ◌++◌, IfOk, OnOk, filter, map};
ghost use Rattle.std.specs.List.{AllByRecursion};
ghost use Rattle.sim_run.specs.Captures.{AreApart, HasNumbers, captures_from, captures_of, ends_at, ethernet, faces_of, is_joined, lan_face, link_face, ppp};

use scenario_form::{Lan, Link, Scenario};
use sim_base::{NoMemory, NodeId};
use std::alloc::Global;

/// The link type of PPP.
const PPP: u32 = 9;

/// The link type of Ethernet.
const ETHERNET: u32 = 1;

/// An interface of a node: the link type of its captures, and whether it is captured.
#[derive(Clone, Copy, Debug, PartialEq, Eq)]
pub struct Face {
    pub linktype: u32,
    pub captured: bool,
}

/// A captured interface.
#[derive(Clone, Copy, Debug, PartialEq, Eq)]
pub struct Capture {
    pub node: NodeId,
    pub iface: u32,
    pub linktype: u32,
}

/// The captured interfaces of a scenario, by node and interface.
pub fn captures_of(alloc: Global, scenario: &Scenario) -> Result<Vec<Capture>, NoMemory>
    ensures captures { IfOk result (λ captures. captures.items ≡ captures_of scenario.now) }
    ensures apart { IfOk result (λ captures. AreApart captures.items) }
    ensures numbers { IfOk result (λ captures. AllByRecursion HasNumbers captures.items) }
{
    let mut captures = Vec::new(alloc);
    for node in 0..scenario.nodes {
        let faces = faces_of(alloc, scenario, node)?;
        add_captures(NodeId(node), &faces, &mut captures)?;
    }
    Ok(captures)
}

/// Appends those of a node's interfaces that are captured.
fn add_captures(node: NodeId, faces: &[Face], captures: &mut Vec<Capture>) -> Result<(), NoMemory>
    requires { AllByRecursion HasNumbers captures.old.items }
    ensures captures { OnOk result (captures.new.items ≡ captures.old.items ++ captures_from node.0 0 faces.now) }
    ensures numbers { OnOk result (AllByRecursion HasNumbers captures.new.items) }
{
    for (i, face) in faces.iter().enumerate() {
        if face.captured {
            let Ok(iface) = u32::try_from(i) else {
                return Err(NoMemory);
            };
            captures.push(Capture {
                node,
                iface,
                linktype: face.linktype,
            })?;
        }
    }
    Ok(())
}

/// The interfaces of a node, which are numbered from 0: its links, and then its LANs.
fn faces_of(alloc: Global, scenario: &Scenario, node: u32) -> Result<Vec<Face>, NoMemory>
    ensures { IfOk result (λ faces. faces.items ≡ faces_of scenario.now node) }
{
    let mut faces = link_faces(alloc, scenario.links.as_slice(), node)?;
    let mut others = lan_faces(alloc, scenario.lans.as_slice(), node)?;
    faces.append(&mut others)?;
    Ok(faces)
}

/// The interfaces of a node on links.
fn link_faces(alloc: Global, links: &[Link], node: u32) -> Result<Vec<Face>, NoMemory>
    ensures { IfOk result (λ faces. faces.items ≡ map link_face (filter (ends_at node) links.now)) }
{
    let faces = links
        .iter()
        .filter(|link| link.a.0 == node || link.b.0 == node)
        .map(|link| Face {
            linktype: PPP,
            captured: link.pcap,
        })
        .collect(alloc)?;
    Ok(faces)
}

/// The interfaces of a node on LANs.
fn lan_faces(alloc: Global, lans: &[Lan], node: u32) -> Result<Vec<Face>, NoMemory>
    ensures { IfOk result (λ faces. faces.items ≡ map lan_face (filter (λ l. is_joined node l.members) lans.now)) }
{
    let faces = lans
        .iter()
        .filter(|lan| is_joined(lan.members.as_slice(), node))
        .map(|lan| Face {
            linktype: ETHERNET,
            captured: lan.pcap,
        })
        .collect(alloc)?;
    Ok(faces)
}

/// Whether a node is among the members of a LAN.
fn is_joined(members: &[NodeId], node: u32) -> bool
    ensures { result ≡ is_joined node members.now }
{
    members.iter().any(|member| member.0 == node)
}
