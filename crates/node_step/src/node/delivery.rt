//! A whole datagram for this node, on its way up to its protocol.

ghost use Rattle.std.specs.Prelude.{◌≡◌, ◌≤◌, OnOk, All, fold, map};
ghost use Rattle.sim_base.specs.Packet.{len};
ghost use Rattle.ipv4_core.specs.Ip.{most_data};
ghost use Rattle.udp_icmp.specs.Seen.{plain_act, plain_in};
ghost use Rattle.udp_icmp.specs.Step.{CanTake, FitsDatagram};
ghost use Rattle.node_step.specs.Delivery.{carry_ports, deliver_whole, ports_take};
ghost use Rattle.node_step.specs.Node.{progress};

use super::Node;
use super::asking::TCP;
use super::work::{Work, room};
use header_forms::Ipv4;
use pkt_face::Pkt;
use sim_base::NoMemory;
use tcp_flow::Seg;

/// The numbers of protocols in IPv4.
const ICMP: u8 = 1;

const UDP: u8 = 17;

impl<P: Pkt> Node<P> {
    /// Hands a whole datagram to UDP, TCP or ICMP. Where it is of another protocol, its source is told so, and it is dropped.
    #[tactic(auto, unfolding(crate::specs::Delivery::deliver_whole))]
    pub(super) fn deliver_whole(
        &mut self,
        head: Ipv4,
        packet: P,
        work: &mut Work<P>,
    ) -> Result<(), NoMemory>
        requires { len (P.plain packet) ≤ most_data }
        ensures { OnOk result (progress self.new work.new.firing ≡ deliver_whole head (P.plain packet) (progress self.old work.old.firing)) }
    {
        if head.proto == UDP {
            return self.ports_take(udp_icmp::In::UdpArrive { head, packet }, work);
        }
        if head.proto == TCP {
            let segment = Seg {
                src: head.src,
                dst: head.dst,
                packet,
            };
            let now = work.firing.now();
            return self.conns_hear(tcp_flow::In::Segment { now, segment }, work);
        }
        if head.proto == ICMP {
            return self.ports_take(udp_icmp::In::IcmpArrive { head, packet }, work);
        }
        let src = head.src;
        let input = udp_icmp::In::Report {
            kind: 3,
            code: 2,
            head,
            packet,
        };
        self.report(src, input, work)?;
        self.drop_packet();
        Ok(())
    }

    /// Lets UDP or ICMP take a packet that has come.
    #[tactic(auto, unfolding(crate::specs::Delivery::ports_take))]
    fn ports_take(&mut self, input: udp_icmp::In<P>, work: &mut Work<P>) -> Result<(), NoMemory>
        requires { CanTake (plain_in P.plain input) }
        ensures { OnOk result (progress self.new work.new.firing ≡ ports_take (plain_in P.plain input) (progress self.old work.old.firing)) }
    {
        let mut acts = room(&mut work.ports_up);
        self.ports
            .step(input, &mut work.maker, &mut self.numbers, &mut acts)?;
        self.carry_all_ports(&mut acts, work)?;
        work.ports_up = acts;
        Ok(())
    }

    /// Carries out the acts of UDP or ICMP at which a packet has come, in their order.
    fn carry_all_ports(
        &mut self,
        acts: &mut Vec<udp_icmp::Act<P>>,
        work: &mut Work<P>,
    ) -> Result<(), NoMemory>
        requires { All FitsDatagram (map (plain_act P.plain) acts.old.items) }
        ensures { OnOk result (progress self.new work.new.firing ≡ fold carry_ports (progress self.old work.old.firing) (map (plain_act P.plain) acts.old.items)) }
    {
        acts.as_mut_slice().reverse();
        while let Some(act) = acts.pop() {
            self.carry_ports(act, work)?;
        }
        Ok(())
    }

    #[tactic(auto, unfolding(crate::specs::Delivery::carry_ports))]
    fn carry_ports(&mut self, act: udp_icmp::Act<P>, work: &mut Work<P>) -> Result<(), NoMemory>
        requires { FitsDatagram (plain_act P.plain act) }
        ensures { OnOk result (progress self.new work.new.firing ≡ carry_ports (progress self.old work.old.firing) (plain_act P.plain act)) }
    {
        match act {
            udp_icmp::Act::ToIp {
                src,
                dst,
                proto,
                packet,
            } => {
                let input = ipv4_core::In::Send {
                    src,
                    dst,
                    proto,
                    packet,
                };
                self.ip_sends(input, work)
            }
            udp_icmp::Act::ToApp {
                app,
                src,
                sport,
                packet,
            } => self.app_takes(app, traffic_apps::In::Got { src, sport, packet }, work),
            udp_icmp::Act::Report {
                kind,
                code,
                head,
                packet,
            } => {
                let src = head.src;
                let input = udp_icmp::In::Report {
                    kind,
                    code,
                    head,
                    packet,
                };
                self.report(src, input, work)
            }
            udp_icmp::Act::Dropped => {
                self.drop_packet();
                Ok(())
            }
        }
    }
}
