//! What a node sends, on its way down through UDP or ICMP and IPv4.

ghost use Rattle.std.specs.Prelude.{◌≡◌, OnOk, All, fold, map};
ghost use Rattle.ipv4_core.specs.Ip.{CanTake as CanTakeBelow, FitsDatagram as FitsBelow};
ghost use Rattle.ipv4_core.specs.Seen.{plain_act as plain_ip_act, plain_in as plain_ip_in};
ghost use Rattle.udp_icmp.specs.Seen.{plain_act, plain_in};
ghost use Rattle.udp_icmp.specs.Step.{CanTake, FitsDatagram};
ghost use Rattle.node_step.specs.Node.{progress};
ghost use Rattle.node_step.specs.Sending.{carry_to_ip, carry_sent, ip_sends, ports_send, report};

use super::Node;
use super::work::{Work, room};
use pkt_face::Pkt;
use sim_base::NoMemory;

impl<P: Pkt> Node<P> {
    /// Tells the source of a packet what became of it, unless no route leads to the source.
    #[tactic(auto, unfolding(crate::specs::Sending::report))]
    pub(super) fn report(
        &mut self,
        src: u32,
        input: udp_icmp::In<P>,
        work: &mut Work<P>,
    ) -> Result<(), NoMemory>
        requires { CanTake (plain_in P.plain input) }
        ensures { OnOk result (progress self.new work.new.firing ≡ report src (plain_in P.plain input) (progress self.old work.old.firing)) }
    {
        match self.ip.route(src) {
            None => Ok(()),
            Some(_) => self.ports_send(input, work),
        }
    }

    /// Lets UDP or ICMP send what is given to it.
    #[tactic(auto, unfolding(crate::specs::Sending::ports_send))]
    pub(super) fn ports_send(
        &mut self,
        input: udp_icmp::In<P>,
        work: &mut Work<P>,
    ) -> Result<(), NoMemory>
        requires { CanTake (plain_in P.plain input) }
        ensures { OnOk result (progress self.new work.new.firing ≡ ports_send (plain_in P.plain input) (progress self.old work.old.firing)) }
    {
        let mut acts = room(&mut work.ports_down);
        self.ports
            .step(input, &mut work.maker, &mut self.numbers, &mut acts)?;
        self.carry_all_to_ip(&mut acts, work)?;
        work.ports_down = acts;
        Ok(())
    }

    /// Carries out the acts of UDP or ICMP that sends, in their order.
    fn carry_all_to_ip(
        &mut self,
        acts: &mut Vec<udp_icmp::Act<P>>,
        work: &mut Work<P>,
    ) -> Result<(), NoMemory>
        requires { All FitsDatagram (map (plain_act P.plain) acts.old.items) }
        ensures { OnOk result (progress self.new work.new.firing ≡ fold carry_to_ip (progress self.old work.old.firing) (map (plain_act P.plain) acts.old.items)) }
    {
        acts.as_mut_slice().reverse();
        while let Some(act) = acts.pop() {
            self.carry_to_ip(act, work)?;
        }
        Ok(())
    }

    #[tactic(auto, unfolding(crate::specs::Sending::carry_to_ip))]
    fn carry_to_ip(&mut self, act: udp_icmp::Act<P>, work: &mut Work<P>) -> Result<(), NoMemory>
        requires { FitsDatagram (plain_act P.plain act) }
        ensures { OnOk result (progress self.new work.new.firing ≡ carry_to_ip (progress self.old work.old.firing) (plain_act P.plain act)) }
    {
        match act {
            udp_icmp::Act::ToIp {
                src,
                dst,
                proto,
                packet,
            } => {
                let input = ipv4_core::In::Send {
                    src,
                    dst,
                    proto,
                    packet,
                };
                self.ip_sends(input, work)
            }
            udp_icmp::Act::Dropped => {
                self.drop_packet();
                Ok(())
            }
            udp_icmp::Act::ToApp { .. } | udp_icmp::Act::Report { .. } => Ok(()),
        }
    }

    /// Lets IPv4 send what is given to it.
    #[tactic(auto, unfolding(crate::specs::Sending::ip_sends))]
    pub(super) fn ip_sends(
        &mut self,
        input: ipv4_core::In<P>,
        work: &mut Work<P>,
    ) -> Result<(), NoMemory>
        requires { CanTakeBelow (plain_ip_in P.plain input) }
        ensures { OnOk result (progress self.new work.new.firing ≡ ip_sends (plain_ip_in P.plain input) (progress self.old work.old.firing)) }
    {
        let mut acts = room(&mut work.ip_down);
        self.ip
            .step(input, &mut work.maker, &mut self.numbers, &mut acts)?;
        self.carry_all_sent(&mut acts, work)?;
        work.ip_down = acts;
        Ok(())
    }

    /// Carries out the acts of IPv4 that sends, in their order.
    fn carry_all_sent(
        &mut self,
        acts: &mut Vec<ipv4_core::Act<P>>,
        work: &mut Work<P>,
    ) -> Result<(), NoMemory>
        requires { All FitsBelow (map (plain_ip_act P.plain) acts.old.items) }
        ensures { OnOk result (progress self.new work.new.firing ≡ fold carry_sent (progress self.old work.old.firing) (map (plain_ip_act P.plain) acts.old.items)) }
    {
        acts.as_mut_slice().reverse();
        while let Some(act) = acts.pop() {
            self.carry_sent(act, work)?;
        }
        Ok(())
    }

    #[tactic(auto, unfolding(crate::specs::Sending::carry_sent))]
    fn carry_sent(&mut self, act: ipv4_core::Act<P>, work: &mut Work<P>) -> Result<(), NoMemory>
        requires { FitsBelow (plain_ip_act P.plain act) }
        ensures { OnOk result (progress self.new work.new.firing ≡ carry_sent (progress self.old work.old.firing) (plain_ip_act P.plain act)) }
    {
        match act {
            ipv4_core::Act::Out {
                iface,
                hop,
                mtu,
                packet,
            } => self.send_out(iface, hop, mtu, packet, work),
            ipv4_core::Act::Dropped => {
                self.drop_packet();
                Ok(())
            }
            ipv4_core::Act::Local { .. } | ipv4_core::Act::Report { .. } => Ok(()),
        }
    }
}
