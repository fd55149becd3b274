//! What comes to TCP, on its way up to an application.

ghost use Rattle.std.specs.Prelude.{◌≡◌, OnOk, All, fold, map};
ghost use Rattle.tcp_flow.specs.Seen.{plain_act, plain_in};
ghost use Rattle.tcp_flow.specs.Small.{CanTake, FitsDatagram};
ghost use Rattle.node_step.specs.Hearing.{carry_heard, conns_hear};
ghost use Rattle.node_step.specs.Node.{progress};

use super::Node;
use super::work::{Work, room};
use pkt_face::Pkt;
use sim_base::NoMemory;
use tcp_flow::{Act, In};

impl<P: Pkt> Node<P> {
    /// Lets TCP take a segment that has come, or the time at which a timer fires.
    #[tactic(auto, unfolding(crate::specs::Hearing::conns_hear))]
    pub(super) fn conns_hear(&mut self, input: In<P>, work: &mut Work<P>) -> Result<(), NoMemory>
        requires { CanTake (plain_in P.plain input) }
        ensures { OnOk result (progress self.new work.new.firing ≡ conns_hear (plain_in P.plain input) (progress self.old work.old.firing)) }
    {
        let mut acts = room(&mut work.conns_up);
        self.conns
            .step(input, &mut work.maker, &mut self.numbers, &mut acts)?;
        self.carry_all_heard(&mut acts, work)?;
        work.conns_up = acts;
        Ok(())
    }

    /// Carries out the acts of TCP that has heard something, in their order.
    fn carry_all_heard(
        &mut self,
        acts: &mut Vec<Act<P>>,
        work: &mut Work<P>,
    ) -> Result<(), NoMemory>
        requires { All FitsDatagram (map (plain_act P.plain) acts.old.items) }
        ensures { OnOk result (progress self.new work.new.firing ≡ fold carry_heard (progress self.old work.old.firing) (map (plain_act P.plain) acts.old.items)) }
    {
        acts.as_mut_slice().reverse();
        while let Some(act) = acts.pop() {
            self.carry_heard(act, work)?;
        }
        Ok(())
    }

    #[tactic(auto, unfolding(crate::specs::Hearing::carry_heard))]
    fn carry_heard(&mut self, act: Act<P>, work: &mut Work<P>) -> Result<(), NoMemory>
        requires { FitsDatagram (plain_act P.plain act) }
        ensures { OnOk result (progress self.new work.new.firing ≡ carry_heard (progress self.old work.old.firing) (plain_act P.plain act)) }
    {
        match act {
            Act::Emit { segment } => self.carry_asked(Act::Emit { segment }, work),
            Act::TimerAt { at, conn, stamp } => {
                self.carry_asked(Act::TimerAt { at, conn, stamp }, work)
            }
            Act::Connected { app } => self.app_takes(app, traffic_apps::In::Connected, work),
            Act::Room { app, free } => {
                self.app_takes(app, traffic_apps::In::Room { free }, work)
            }
            Act::Deliver {
                app,
                src,
                sport,
                packet,
            } => self.app_counts(app, traffic_apps::In::Got { src, sport, packet }, work),
            Act::End { app } => self.app_takes(app, traffic_apps::In::End, work),
            Act::Reset { app } => self.app_takes(app, traffic_apps::In::Reset, work),
            Act::Dropped => self.carry_asked(Act::Dropped, work),
        }
    }
}
