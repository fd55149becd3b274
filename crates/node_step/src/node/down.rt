//! A packet on its way down: by an interface to a neighbour.

ghost use Rattle.std.specs.Prelude.{◌≡◌, ◌<◌, ◌^◌, [], OnOk, IfSome, fold, map, slice_get};
ghost use Rattle.sim_base.specs.Packet.{len};
ghost use Rattle.layer_words.specs.Acts.{Appends};
ghost use Rattle.iface_step.specs.Seen.{plain_act, plain_in};
ghost use Rattle.iface_step.specs.Step.{CanTake};
ghost use Rattle.node_step.specs.Down.{carry_down, step_at, send_packet};
ghost use Rattle.node_step.specs.Node.{progress};

use super::Node;
use super::work::{Work, room};
use crate::loads::Load;
use iface_step::{Act, In};
use pkt_face::Pkt;
use sim_base::NoMemory;

impl<P: Pkt> Node<P> {
    /// Sends a packet by an interface, to the neighbour with this address.
    #[tactic(auto, unfolding(crate::specs::Down::send_packet))]
    pub(super) fn send_packet(
        &mut self,
        iface: u32,
        hop: u32,
        packet: P,
        work: &mut Work<P>,
    ) -> Result<(), NoMemory>
        requires { len (P.plain packet) < 2 ^ 16 }
        ensures { OnOk result (progress self.new work.new.firing ≡ send_packet iface hop (P.plain packet) (progress self.old work.old.firing)) }
    {
        let now = work.firing.now();
        let mut acts = room(&mut work.iface_down);
        self.step_at(iface, In::Send { now, hop, packet }, &mut acts, work)?;
        self.carry_all_down(iface, &mut acts, work)?;
        work.iface_down = acts;
        Ok(())
    }

    /// Lets an interface take an input, with the bus of its LAN, and puts what it asks for into `acts`, which is empty. Where
    /// there is no interface of this number, nothing happens.
    #[tactic(auto, unfolding(crate::specs::Down::step_at))]
    pub(super) fn step_at(
        &mut self,
        iface: u32,
        input: In<P>,
        acts: &mut Vec<Act<P>>,
        work: &mut Work<P>,
    ) -> Result<(), NoMemory>
        requires input { IfSome (slice_get self.old.ifaces iface) (λ face. CanTake face (plain_in P.plain input)) }
        requires empty { acts.old.items ≡ [] }
        ensures progress { OnOk result (progress self.new work.new.firing ≡ (step_at iface (plain_in P.plain input) (progress self.old work.old.firing)).progress) }
        ensures acts { OnOk result (Appends (plain_act P.plain) acts.old.items acts.new.items (step_at iface (plain_in P.plain input) (progress self.old work.old.firing)).acts) }
    {
        if iface as usize >= self.ifaces.len() {
            return Ok(());
        }
        let face = &mut self.ifaces[iface as usize];
        let lan = face.lan();
        let mut bus = work.firing.bus(lan);
        face.step(
            input,
            &mut work.iface,
            &mut work.maker,
            &mut self.numbers,
            &mut bus,
            &mut self.random,
            acts,
        )?;
        work.firing.set_bus(lan, bus);
        Ok(())
    }

    /// Carries out the acts of an interface that sends, in their order.
    fn carry_all_down(
        &mut self,
        iface: u32,
        acts: &mut Vec<Act<P>>,
        work: &mut Work<P>,
    ) -> Result<(), NoMemory>
        ensures { OnOk result (progress self.new work.new.firing ≡ fold (carry_down iface) (progress self.old work.old.firing) (map (plain_act P.plain) acts.old.items)) }
    {
        acts.as_mut_slice().reverse();
        while let Some(act) = acts.pop() {
            self.carry_down(iface, act, work)?;
        }
        Ok(())
    }

    #[tactic(auto, unfolding(crate::specs::Down::carry_down))]
    pub(super) fn carry_down(
        &mut self,
        iface: u32,
        act: Act<P>,
        work: &mut Work<P>,
    ) -> Result<(), NoMemory>
        ensures { OnOk result (progress self.new work.new.firing ≡ carry_down iface (progress self.old work.old.firing) (plain_act P.plain act)) }
    {
        match act {
            Act::Schedule { at, to, what } => {
                work.firing.schedule(at, to.node, Load::of(to.iface, what))
            }
            Act::Write { sign, frame } => work.firing.write(iface, sign, frame),
            Act::Dropped => {
                self.drop_packet();
                Ok(())
            }
            Act::Up { .. } => Ok(()),
        }
    }
}
