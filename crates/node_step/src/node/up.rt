//! A frame on its way up, through its interface and IPv4, to reassembly or its protocol.

ghost use Rattle.std.specs.Prelude.{◌≡◌, ◌≤◌, OnOk, IfSome, All, fold, map, slice_get};
ghost use Rattle.sim_base.specs.Packet.{len};
ghost use Rattle.iface_step.specs.Seen.{plain_act as plain_iface_act, plain_happening};
ghost use Rattle.iface_step.specs.Step.{CanHappen};
ghost use Rattle.ipv4_core.specs.Ip.{CanTake as CanTakeBelow, FitsDatagram as FitsIp, most_data};
ghost use Rattle.ipv4_core.specs.Seen.{plain_act as plain_ip_act, plain_in as plain_ip_in};
ghost use Rattle.node_step.specs.Node.{progress};
ghost use Rattle.node_step.specs.Up.{carry_ip, carry_up, deliver, iface_happens, ip_takes};

use super::Node;
use super::work::{Work, room};
use header_forms::Ipv4;
use iface_step::{Act as IfaceAct, Happening, In as IfaceIn};
use ipv4_core::is_fragment;
use pkt_face::Pkt;
use sim_base::NoMemory;

impl<P: Pkt> Node<P> {
    /// Something happens at an interface.
    #[tactic(auto, unfolding(crate::specs::Up::iface_happens))]
    pub(super) fn iface_happens(
        &mut self,
        iface: u32,
        what: Happening<P>,
        work: &mut Work<P>,
    ) -> Result<(), NoMemory>
        requires { IfSome (slice_get self.old.ifaces iface) (λ face. CanHappen face.at (plain_happening P.plain what)) }
        ensures { OnOk result (progress self.new work.new.firing ≡ iface_happens iface (plain_happening P.plain what) (progress self.old work.old.firing)) }
    {
        let now = work.firing.now();
        let mut acts = room(&mut work.iface_up);
        self.step_at(iface, IfaceIn::Happens { now, what }, &mut acts, work)?;
        self.carry_all_up(iface, &mut acts, work)?;
        work.iface_up = acts;
        Ok(())
    }

    /// Carries out the acts of an interface at which something has happened, in their order.
    fn carry_all_up(
        &mut self,
        iface: u32,
        acts: &mut Vec<IfaceAct<P>>,
        work: &mut Work<P>,
    ) -> Result<(), NoMemory>
        ensures { OnOk result (progress self.new work.new.firing ≡ fold (carry_up iface) (progress self.old work.old.firing) (map (plain_iface_act P.plain) acts.old.items)) }
    {
        acts.as_mut_slice().reverse();
        while let Some(act) = acts.pop() {
            self.carry_up(iface, act, work)?;
        }
        Ok(())
    }

    #[tactic(auto, unfolding(crate::specs::Up::carry_up))]
    fn carry_up(&mut self, iface: u32, act: IfaceAct<P>, work: &mut Work<P>) -> Result<(), NoMemory>
        ensures { OnOk result (progress self.new work.new.firing ≡ carry_up iface (progress self.old work.old.firing) (plain_iface_act P.plain act)) }
    {
        match act {
            IfaceAct::Up { packet } => self.ip_takes(ipv4_core::In::Arrive { packet }, work),
            IfaceAct::Schedule { at, to, what } => {
                self.carry_down(iface, IfaceAct::Schedule { at, to, what }, work)
            }
            IfaceAct::Write { sign, frame } => {
                self.carry_down(iface, IfaceAct::Write { sign, frame }, work)
            }
            IfaceAct::Dropped => self.carry_down(iface, IfaceAct::Dropped, work),
        }
    }

    /// Lets IPv4 take a packet that has come.
    #[tactic(auto, unfolding(crate::specs::Up::ip_takes))]
    fn ip_takes(&mut self, input: ipv4_core::In<P>, work: &mut Work<P>) -> Result<(), NoMemory>
        requires { CanTakeBelow (plain_ip_in P.plain input) }
        ensures { OnOk result (progress self.new work.new.firing ≡ ip_takes (plain_ip_in P.plain input) (progress self.old work.old.firing)) }
    {
        let mut acts = room(&mut work.ip_up);
        self.ip
            .step(input, &mut work.maker, &mut self.numbers, &mut acts)?;
        self.carry_all_ip(&mut acts, work)?;
        work.ip_up = acts;
        Ok(())
    }

    /// Carries out the acts of IPv4 at which a packet has come, in their order.
    fn carry_all_ip(
        &mut self,
        acts: &mut Vec<ipv4_core::Act<P>>,
        work: &mut Work<P>,
    ) -> Result<(), NoMemory>
        requires { All FitsIp (map (plain_ip_act P.plain) acts.old.items) }
        ensures { OnOk result (progress self.new work.new.firing ≡ fold carry_ip (progress self.old work.old.firing) (map (plain_ip_act P.plain) acts.old.items)) }
    {
        acts.as_mut_slice().reverse();
        while let Some(act) = acts.pop() {
            self.carry_ip(act, work)?;
        }
        Ok(())
    }

    #[tactic(auto, unfolding(crate::specs::Up::carry_ip))]
    fn carry_ip(&mut self, act: ipv4_core::Act<P>, work: &mut Work<P>) -> Result<(), NoMemory>
        requires { FitsIp (plain_ip_act P.plain act) }
        ensures { OnOk result (progress self.new work.new.firing ≡ carry_ip (progress self.old work.old.firing) (plain_ip_act P.plain act)) }
    {
        match act {
            ipv4_core::Act::Out {
                iface,
                hop,
                mtu,
                packet,
            } => self.send_out(iface, hop, mtu, packet, work),
            ipv4_core::Act::Local { head, packet } => self.deliver(head, packet, work),
            ipv4_core::Act::Report {
                kind,
                code,
                head,
                packet,
            } => {
                let src = head.src;
                let input = udp_icmp::In::Report {
                    kind,
                    code,
                    head,
                    packet,
                };
                self.report(src, input, work)
            }
            ipv4_core::Act::Dropped => {
                self.drop_packet();
                Ok(())
            }
        }
    }

    /// Hands a packet for this node to its protocol, and a fragment to reassembly.
    #[tactic(auto, unfolding(crate::specs::Up::deliver))]
    fn deliver(&mut self, head: Ipv4, packet: P, work: &mut Work<P>) -> Result<(), NoMemory>
        requires { len (P.plain packet) ≤ most_data }
        ensures { OnOk result (progress self.new work.new.firing ≡ deliver head (P.plain packet) (progress self.old work.old.firing)) }
    {
        if is_fragment(&head) {
            let now = work.firing.now();
            return self.frags_take(frag_core::In::Piece { now, head, packet }, work);
        }
        self.deliver_whole(head, packet, work)
    }
}
