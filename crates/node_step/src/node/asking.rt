//! What an application asks of TCP, on its way down.

ghost use Rattle.std.specs.Prelude.{◌≡◌, OnOk, All, fold, map};
ghost use Rattle.tcp_flow.specs.Seen.{plain_act, plain_in};
ghost use Rattle.tcp_flow.specs.Small.{CanTake, FitsDatagram};
ghost use Rattle.node_step.specs.Asking.{carry_asked, conns_ask};
ghost use Rattle.node_step.specs.Node.{progress};

use super::Node;
use super::work::{Work, room};
use crate::loads::Load;
use pkt_face::Pkt;
use sim_base::NoMemory;
use tcp_flow::{Act, In};

/// The number of TCP in IPv4.
pub(super) const TCP: u8 = 6;

impl<P: Pkt> Node<P> {
    /// Lets TCP take what an application asks of it.
    #[tactic(auto, unfolding(crate::specs::Asking::conns_ask))]
    pub(super) fn conns_ask(&mut self, input: In<P>, work: &mut Work<P>) -> Result<(), NoMemory>
        requires { CanTake (plain_in P.plain input) }
        ensures { OnOk result (progress self.new work.new.firing ≡ conns_ask (plain_in P.plain input) (progress self.old work.old.firing)) }
    {
        let mut acts = room(&mut work.conns_down);
        self.conns
            .step(input, &mut work.maker, &mut self.numbers, &mut acts)?;
        self.carry_all_asked(&mut acts, work)?;
        work.conns_down = acts;
        Ok(())
    }

    /// Carries out the acts of TCP of which an application has asked something, in their order.
    fn carry_all_asked(
        &mut self,
        acts: &mut Vec<Act<P>>,
        work: &mut Work<P>,
    ) -> Result<(), NoMemory>
        requires { All FitsDatagram (map (plain_act P.plain) acts.old.items) }
        ensures { OnOk result (progress self.new work.new.firing ≡ fold carry_asked (progress self.old work.old.firing) (map (plain_act P.plain) acts.old.items)) }
    {
        acts.as_mut_slice().reverse();
        while let Some(act) = acts.pop() {
            self.carry_asked(act, work)?;
        }
        Ok(())
    }

    #[tactic(auto, unfolding(crate::specs::Asking::carry_asked))]
    pub(super) fn carry_asked(&mut self, act: Act<P>, work: &mut Work<P>) -> Result<(), NoMemory>
        requires { FitsDatagram (plain_act P.plain act) }
        ensures { OnOk result (progress self.new work.new.firing ≡ carry_asked (progress self.old work.old.firing) (plain_act P.plain act)) }
    {
        match act {
            Act::Emit { segment } => {
                let input = ipv4_core::In::Send {
                    src: Some(segment.src),
                    dst: segment.dst,
                    proto: TCP,
                    packet: segment.packet,
                };
                self.ip_sends(input, work)
            }
            Act::TimerAt { at, conn, stamp } => {
                work.firing
                    .schedule(at, self.numbers.node, Load::TcpTimer { conn, stamp })?;
                Ok(())
            }
            Act::Dropped => {
                self.drop_packet();
                Ok(())
            }
            Act::Connected { .. }
            | Act::Room { .. }
            | Act::Deliver { .. }
            | Act::End { .. }
            | Act::Reset { .. } => Ok(()),
        }
    }
}
