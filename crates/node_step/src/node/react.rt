//! How a node reacts to an event.

ghost use Rattle.std.specs.Prelude.{◌≡◌, ◌+◌, ◌<◌, ◌≤◌, ◌^◌, ◌↔◌, IsTrue, OnOk, IfErr, Some};
ghost use Rattle.node_step.specs.Loads.{plain_event, plain_load};
ghost use Rattle.node_step.specs.Node.{progress};
ghost use Rattle.node_step.specs.React.{CanArrive, CanHandle, Refuses, handled, react};

use super::Node;
use super::work::Work;
use crate::loads::{Event, Load};
use crate::stop::FireStop;
use iface_step::Happening;
use pkt_face::Pkt;
use sim_base::NoMemory;

impl<P: Pkt> Node<P> {
    /// Whether the node has the interface or the application that a load names, and a frame its header and trailer.
    pub fn can_handle(&self, load: &Load<P>) -> bool
        ensures { IsTrue result ↔ CanHandle (plain_load P.plain load.now) self.now }
    {
        match load {
            Load::Arrive { iface, packet } => self.can_arrive(*iface, packet.len()),
            Load::Sent { iface }
            | Load::BusFree { iface }
            | Load::BackoffOver { iface }
            | Load::DiscReady { iface }
            | Load::ArpTimer { iface, .. } => (*iface as usize) < self.ifaces.len(),
            Load::FragTimer { .. } | Load::TcpTimer { .. } => true,
            Load::Tick { app } => (*app as usize) < self.apps.len(),
        }
    }

    /// Whether the node has an interface, and its frames may have so few bytes.
    fn can_arrive(&self, iface: u32, len: u32) -> bool
        ensures { IsTrue result ↔ CanArrive iface len self.now }
    {
        if iface as usize >= self.ifaces.len() {
            return false;
        }
        let face = &self.ifaces[iface as usize];
        len >= face.least_frame()
    }

    /// Reacts to an event. After a refusal the node and the firing are given up.
    #[tactic(auto, unfolding(crate::specs::React::react))]
    pub fn react(&mut self, limit: u64, ev: Event<P>, work: &mut Work<P>) -> Result<(), FireStop>
        requires limit { limit ≤ 10 ^ 9 }
        requires time { ev.key.time.0 ≤ 10 ^ 12 }
        requires there { CanHandle (plain_load P.plain ev.load) self.old }
        ensures ok { OnOk result (react limit (plain_event P.plain ev) self.old work.old.firing.lans ≡ Some (progress self.new work.new.firing)) }
        ensures err { IfErr result (Refuses ev.key.node (react limit (plain_event P.plain ev) self.old work.old.firing.lans)) }
    {
        let Event { key, load } = ev;
        work.firing.begin(key, self.scheduled);
        self.handle(load, work)?;
        if self.settle(limit, work.firing.count()) {
            Ok(())
        } else {
            Err(FireStop::Limit { node: key.node })
        }
    }

    /// Counts what a firing schedules, unless the firings of the node then schedule more than they may. Whether it did.
    fn settle(&mut self, limit: u64, count: u64) -> bool
        requires limit { limit ≤ 10 ^ 9 }
        requires count { count < 2 ^ 63 }
        ensures fits { IsTrue result ↔ self.old.scheduled + count ≤ self.old.first + limit }
        ensures counted { IsTrue result → self.new ≡ record self.old { scheduled = self.old.scheduled + count } }
    {
        let scheduled = self.scheduled + count;
        if scheduled > self.first + limit {
            return false;
        }
        self.scheduled = scheduled;
        true
    }

    /// Hands what an event brings to an interface, to reassembly, to TCP or to an application.
    #[tactic(auto, unfolding(crate::specs::React::handled))]
    fn handle(&mut self, load: Load<P>, work: &mut Work<P>) -> Result<(), NoMemory>
        requires { CanHandle (plain_load P.plain load) self.old }
        ensures { OnOk result (progress self.new work.new.firing ≡ handled (plain_load P.plain load) (progress self.old work.old.firing)) }
    {
        match load {
            Load::Arrive { iface, packet } => {
                self.iface_happens(iface, Happening::Arrive { frame: packet }, work)
            }
            Load::Sent { iface } => self.iface_happens(iface, Happening::Sent, work),
            Load::BusFree { iface } => self.iface_happens(iface, Happening::BusFree, work),
            Load::BackoffOver { iface } => self.iface_happens(iface, Happening::BackoffOver, work),
            Load::DiscReady { iface } => self.iface_happens(iface, Happening::DiscReady, work),
            Load::ArpTimer { iface, addr, stamp } => {
                self.iface_happens(iface, Happening::ArpTimer { addr, stamp }, work)
            }
            Load::FragTimer { stamp } => self.frags_take(frag_core::In::Timer { stamp }, work),
            Load::TcpTimer { conn, stamp } => {
                let now = work.firing.now();
                self.conns_hear(tcp_flow::In::Timer { now, conn, stamp }, work)
            }
            Load::Tick { app } => {
                let now = work.firing.now();
                self.app_takes(app, traffic_apps::In::Tick { now }, work)
            }
        }
    }
}
