//! Interfaces as a run begins with them.

ghost use Rattle.std.specs.Prelude.{◌≡◌, ◌<◌, length, map, All, IfOk};
ghost use Rattle.sim_world.specs.Ends.{IsEnd};
ghost use Rattle.sim_world.specs.Ifaces.{idle_at, iface_of, lan_end, link_end};
ghost use Rattle.sim_world.specs.Losses.{IsLoss};
ghost use Rattle.sim_world.specs.Networks.{IsNetwork};
ghost use Rattle.sim_world.specs.Plan.{planned_around};

use crate::ends::{End, Medium};
use crate::lans::{mac_of, others};
use crate::losses::loss_on;
use crate::plan::Plan;
use arp_core::ArpCache;
use csma_dev::Csma;
use iface_step::{Iface, Place};
use p2p_dev::P2p;
use pkt_face::Pkt;
use queue_discs::Disc;
use scenario_form::Loss;
use sim_base::NoMemory;
use std::alloc::Global;

/// The interfaces of a node, before which no frame waits, and whose frames are told where the text trace is asked for.
pub fn ifaces<P: Pkt>(
    alloc: Global,
    told: bool,
    losses: &[Loss],
    plan: &Plan,
    ends: &[End],
) -> Result<Vec<Iface<P>>, NoMemory>
    requires losses { All IsLoss losses.now }
    requires ends { All (IsEnd (length plan.now.members.items)) ends.now }
    ensures { IfOk result (λ ifaces. ifaces.items ≡ map (iface_of (planned_around told losses.now plan.now)) ends.now) }
{
    let mut ifaces = Vec::with_capacity(alloc, ends.len())?;
    for end in ends {
        ifaces.push(iface(alloc, told, losses, plan, end)?)?;
    }
    Ok(ifaces)
}

fn iface<P: Pkt>(
    alloc: Global,
    told: bool,
    losses: &[Loss],
    plan: &Plan,
    end: &End,
) -> Result<Iface<P>, NoMemory>
    requires losses { All IsLoss losses.now }
    requires end { IsEnd (length plan.now.members.items) end.now }
    ensures { IfOk result (λ iface. iface ≡ iface_of (planned_around told losses.now plan.now) end.now) }
{
    match end.medium {
        Medium::Link { peer } => on_link(alloc, told, losses, end, peer),
        Medium::OnLan { lan } => on_lan(alloc, told, losses, plan, end, lan),
    }
}

/// One end of a link, with an idle device.
fn on_link<P: Pkt>(
    alloc: Global,
    told: bool,
    losses: &[Loss],
    end: &End,
    peer: Place,
) -> Result<Iface<P>, NoMemory>
    requires losses { All IsLoss losses.now }
    requires network { IsNetwork end.now.network }
    ensures { IfOk result (λ iface. iface ≡ idle_at told (link_end told losses.now end.now peer) end.now) }
{
    let on = &end.network;
    let loss = loss_on(alloc, losses, end.place)?;
    let device = P2p::make(on.rate, on.delay, told || on.captured, loss);
    let disc = Disc::make(alloc, on.disc);
    Ok(Iface::on_link(end.place, told, on.captured, disc, peer, device))
}

/// A face on a LAN, with an idle device, and nothing known of addresses.
fn on_lan<P: Pkt>(
    alloc: Global,
    told: bool,
    losses: &[Loss],
    plan: &Plan,
    end: &End,
    lan: u32,
) -> Result<Iface<P>, NoMemory>
    requires losses { All IsLoss losses.now }
    requires network { IsNetwork end.now.network }
    requires there { lan < length plan.now.members.items }
    ensures { IfOk result (λ iface. iface ≡ idle_at told (lan_end (planned_around told losses.now plan.now) end.now lan) end.now) }
{
    let on = &end.network;
    let node = end.place.node;
    let others = others(alloc, node, plan.members[lan as usize].as_slice())?;
    let loss = loss_on(alloc, losses, end.place)?;
    let mac = mac_of(lan, node);
    let device = Csma::make(mac, on.rate, on.delay, told || on.captured, loss);
    let cache = ArpCache::make(alloc, mac, end.addr);
    let disc = Disc::make(alloc, on.disc);
    Ok(Iface::on_lan(
        end.place,
        told,
        on.captured,
        disc,
        lan,
        others,
        device,
        cache,
    ))
}
