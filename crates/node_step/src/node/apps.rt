//! An application at work.

ghost use Rattle.std.specs.Prelude.{◌≡◌, OnOk, All, fold, map};
ghost use Rattle.traffic_apps.specs.Seen.{plain_act, plain_in};
ghost use Rattle.traffic_apps.specs.Step.{BringsDatagram, CanTake, FitsDatagram};
ghost use Rattle.node_step.specs.Apps.{app_counts, app_takes, carry_app};
ghost use Rattle.node_step.specs.Node.{progress};

use super::Node;
use super::work::{Work, room};
use crate::loads::Load;
use pkt_face::Pkt;
use sim_base::NoMemory;
use traffic_apps::{Act, In};

impl<P: Pkt> Node<P> {
    /// Hands an input to an application, and carries out the acts that follow.
    #[tactic(auto, unfolding(crate::specs::Apps::app_takes))]
    pub(super) fn app_takes(
        &mut self,
        app: u32,
        input: In<P>,
        work: &mut Work<P>,
    ) -> Result<(), NoMemory>
        requires time { CanTake (plain_in P.plain input) }
        requires datagram { BringsDatagram (plain_in P.plain input) }
        ensures { OnOk result (progress self.new work.new.firing ≡ app_takes app (plain_in P.plain input) (progress self.old work.old.firing)) }
    {
        if app as usize >= self.apps.len() {
            return Ok(());
        }
        let mut acts = room(&mut work.app);
        let local = &mut self.apps[app as usize];
        local.step(input, &mut work.maker, &mut self.numbers, &mut acts)?;
        let port = local.port();
        self.carry_all_app(app, port, &mut acts, work)?;
        work.app = acts;
        Ok(())
    }

    /// Hands a part of a stream to an application, which counts it.
    #[tactic(auto, unfolding(crate::specs::Apps::app_counts))]
    pub(super) fn app_counts(
        &mut self,
        app: u32,
        input: In<P>,
        work: &mut Work<P>,
    ) -> Result<(), NoMemory>
        requires { CanTake (plain_in P.plain input) }
        ensures { OnOk result (progress self.new work.new.firing ≡ app_counts app (plain_in P.plain input) (progress self.old work.old.firing)) }
    {
        if app as usize >= self.apps.len() {
            return Ok(());
        }
        let mut acts = room(&mut work.app);
        let local = &mut self.apps[app as usize];
        local.step(input, &mut work.maker, &mut self.numbers, &mut acts)?;
        work.app = acts;
        Ok(())
    }

    /// Carries out the acts of an application in their order.
    fn carry_all_app(
        &mut self,
        app: u32,
        port: u16,
        acts: &mut Vec<Act<P>>,
        work: &mut Work<P>,
    ) -> Result<(), NoMemory>
        requires { All FitsDatagram (map (plain_act P.plain) acts.old.items) }
        ensures { OnOk result (progress self.new work.new.firing ≡ fold (carry_app app port) (progress self.old work.old.firing) (map (plain_act P.plain) acts.old.items)) }
    {
        acts.as_mut_slice().reverse();
        while let Some(act) = acts.pop() {
            self.carry_app(app, port, act, work)?;
        }
        Ok(())
    }

    #[tactic(auto, unfolding(crate::specs::Apps::carry_app))]
    fn carry_app(
        &mut self,
        app: u32,
        port: u16,
        act: Act<P>,
        work: &mut Work<P>,
    ) -> Result<(), NoMemory>
        requires { FitsDatagram (plain_act P.plain act) }
        ensures { OnOk result (progress self.new work.new.firing ≡ carry_app app port (progress self.old work.old.firing) (plain_act P.plain act)) }
    {
        match act {
            Act::UdpSend {
                dst,
                port: to,
                packet,
            } => {
                let input = udp_icmp::In::UdpSend {
                    src: self.ip.source(dst),
                    sport: port,
                    dst,
                    port: to,
                    packet,
                };
                self.ports_send(input, work)
            }
            Act::PingSend { dst, rest, packet } => {
                let input = udp_icmp::In::PingSend { dst, rest, packet };
                self.ports_send(input, work)
            }
            Act::TickAt { at } => {
                work.firing
                    .schedule(at, self.numbers.node, Load::Tick { app })?;
                Ok(())
            }
            Act::Connect { dst, port: to, mss } => {
                let input = tcp_flow::In::Connect {
                    now: work.firing.now(),
                    app,
                    src: self.ip.source(dst),
                    sport: port,
                    dst,
                    port: to,
                    mss,
                };
                self.conns_ask(input, work)
            }
            Act::Write { bytes } => {
                let now = work.firing.now();
                self.conns_ask(tcp_flow::In::Write { now, app, bytes }, work)
            }
            Act::Close => {
                let now = work.firing.now();
                self.conns_ask(tcp_flow::In::Close { now, app }, work)
            }
        }
    }
}
