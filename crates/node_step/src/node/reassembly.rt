//! Fragments for this node, which are put together again (RFC 791, section 3.2).

ghost use Rattle.std.specs.Prelude.{◌≡◌, OnOk, All, fold, map};
ghost use Rattle.frag_core.specs.Seen.{plain_act, plain_in};
ghost use Rattle.frag_core.specs.Step.{CanTake, FitsDatagram};
ghost use Rattle.node_step.specs.Node.{progress};
ghost use Rattle.node_step.specs.Reassembly.{carry_frags, frags_take};

use super::Node;
use super::work::{Work, room};
use crate::loads::Load;
use frag_core::{Act, In};
use pkt_face::Pkt;
use sim_base::NoMemory;

impl<P: Pkt> Node<P> {
    /// Lets reassembly take a fragment that has come, or the stamp of a timer that fires.
    #[tactic(auto, unfolding(crate::specs::Reassembly::frags_take))]
    pub(super) fn frags_take(&mut self, input: In<P>, work: &mut Work<P>) -> Result<(), NoMemory>
        requires { CanTake (plain_in P.plain input) }
        ensures { OnOk result (progress self.new work.new.firing ≡ frags_take (plain_in P.plain input) (progress self.old work.old.firing)) }
    {
        let mut acts = room(&mut work.frags);
        self.frags
            .step(input, &mut work.maker, &mut self.numbers, &mut acts)?;
        self.carry_all_frags(&mut acts, work)?;
        work.frags = acts;
        Ok(())
    }

    /// Carries out the acts of reassembly in their order.
    fn carry_all_frags(
        &mut self,
        acts: &mut Vec<Act<P>>,
        work: &mut Work<P>,
    ) -> Result<(), NoMemory>
        requires { All FitsDatagram (map (plain_act P.plain) acts.old.items) }
        ensures { OnOk result (progress self.new work.new.firing ≡ fold carry_frags (progress self.old work.old.firing) (map (plain_act P.plain) acts.old.items)) }
    {
        acts.as_mut_slice().reverse();
        while let Some(act) = acts.pop() {
            self.carry_frags(act, work)?;
        }
        Ok(())
    }

    #[tactic(auto, unfolding(crate::specs::Reassembly::carry_frags))]
    fn carry_frags(&mut self, act: Act<P>, work: &mut Work<P>) -> Result<(), NoMemory>
        requires { FitsDatagram (plain_act P.plain act) }
        ensures { OnOk result (progress self.new work.new.firing ≡ carry_frags (progress self.old work.old.firing) (plain_act P.plain act)) }
    {
        match act {
            Act::Whole { head, packet } => self.deliver_whole(head, packet, work),
            Act::TimerAt { at, stamp } => {
                work.firing
                    .schedule(at, self.numbers.node, Load::FragTimer { stamp })?;
                Ok(())
            }
            Act::Dropped => {
                self.drop_packet();
                Ok(())
            }
        }
    }
}
