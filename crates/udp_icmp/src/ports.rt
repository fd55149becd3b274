//! Which applications get what comes, and what happens to UDP and ICMP.

ghost use Rattle.std.specs.Prelude.{◌≡◌, ℕ, OnOk, All};
ghost use Rattle.sim_base.specs.declared.numbers.Numbers.{Numbers as PlainNumbers};
ghost use Rattle.sim_base.specs.Packet.{Packet};
ghost use Rattle.layer_words.specs.Acts.{Appends};
ghost use Rattle.udp_icmp.specs.Seen.{plain_in, plain_act};

use crate::{icmp, udp};
use header_forms::Ipv4;
use pkt_face::Pkt;
use sim_base::{NoMemory, Numbers};
use std::collections::BTreeMap;
use std::marker::Model;

/// What happens to UDP and ICMP.
#[derive(Debug, Drop)]
pub enum In<P> {
    /// A payload is to be sent. With no source there is no route to its destination.
    UdpSend {
        src: Option<u32>,
        sport: u16,
        dst: u32,
        port: u16,
        packet: P,
    },
    /// A packet of UDP arrives, without its IPv4 header.
    UdpArrive {
        head: Ipv4,
        packet: P,
    },
    /// A payload is to be sent as an echo request, with these four bytes in its header.
    PingSend {
        dst: u32,
        rest: u32,
        packet: P,
    },
    /// A packet of ICMP arrives, without its IPv4 header.
    IcmpArrive {
        head: Ipv4,
        packet: P,
    },
    /// The source of a packet, which is without its IPv4 header, is to be told what became of it.
    Report {
        kind: u8,
        code: u8,
        head: Ipv4,
        packet: P,
    },
}

/// What UDP and ICMP ask for.
#[derive(Debug, Drop)]
pub enum Act<P> {
    /// Hand a packet to IPv4. With no source it gets the address of the interface that it leaves by.
    ToIp {
        src: Option<u32>,
        dst: u32,
        proto: u8,
        packet: P,
    },
    /// Hand a payload to an application, with the sender's address and port.
    ToApp {
        app: u32,
        src: u32,
        sport: u16,
        packet: P,
    },
    /// Tell the source of a packet, which is without its IPv4 header, what became of it.
    Report {
        kind: u8,
        code: u8,
        head: Ipv4,
        packet: P,
    },
    /// Count a packet as dropped.
    Dropped,
}

/// The applications of a node at their ports, and its `ping`s by their numbers.
#[derive(Drop)]
pub struct Ports {
    udp: BTreeMap<u16, u32>,
    pings: BTreeMap<u16, u32>,
}

impl Model for Ports {
    ghost use Rattle.udp_icmp.specs.Ports.{PlainPorts};

    ghost Value = { PlainPorts };

    ghost view = { λ p. record { udp = p.udp.entries; pings = p.pings.entries } };
}

impl Ports {
    ghost use Rattle.udp_icmp.specs.Ports.{app_at};
    ghost use Rattle.udp_icmp.specs.Step.{CanTake, step};

    /// The application at each port of UDP, whether it listens there or sends from there, and the `ping`
    /// with each number modulo 2^16.
    pub fn make(udp: BTreeMap<u16, u32>, pings: BTreeMap<u16, u32>) -> Ports
        ensures { result ≡ record { udp = udp.entries; pings = pings.entries } }
    {
        Ports { udp, pings }
    }

    /// Takes an input, with the node's numbers, and puts the acts that follow behind `out`. After
    /// `NoMemory` all are given up.
    pub fn step<P: Pkt>(
        &self,
        input: In<P>,
        maker: &mut P::Maker,
        numbers: &mut Numbers,
        out: &mut Vec<Act<P>>,
    ) -> Result<(), NoMemory>
        requires { CanTake (plain_in P.plain input) }
        ensures numbers { OnOk result (numbers.new ≡ (step self.now numbers.old (plain_in P.plain input)).numbers) }
        ensures acts { OnOk result (Appends (plain_act P.plain) out.old.items out.new.items (step self.now numbers.old (plain_in P.plain input)).acts) }
    {
        match input {
            In::UdpSend {
                src,
                sport,
                dst,
                port,
                packet,
            } => {
                out.push(udp::send(src, sport, dst, port, packet, maker)?)?;
                Ok(())
            }
            In::UdpArrive { head, packet } => udp::arrive(self, head, packet, out),
            In::PingSend { dst, rest, packet } => {
                out.push(icmp::ping(dst, rest, packet, maker)?)?;
                Ok(())
            }
            In::IcmpArrive { head, packet } => {
                icmp::arrive(self, head, packet, maker, numbers, out)
            }
            In::Report {
                kind,
                code,
                head,
                packet,
            } => icmp::report(kind, code, head, &packet, maker, numbers, out),
        }
    }

    /// The application at a port of UDP.
    pub(crate) fn app_at_port(&self, port: u16) -> Option<u32>
        ensures { result ≡ app_at port self.now.udp }
    {
        self.udp.get(&port).copied()
    }

    /// The `ping` with a number.
    pub(crate) fn ping_with(&self, number: u16) -> Option<u32>
        ensures { result ≡ app_at number self.now.pings }
    {
        self.pings.get(&number).copied()
    }
}

ghost use Rattle.udp_icmp.specs.Ports.{PlainPorts};
ghost use Rattle.udp_icmp.specs.Reports.{IsErrorKind, IsSilentAbout};
ghost use Rattle.udp_icmp.specs.Step.{CanTake, FitsDatagram, step};

/// What is handed on fits a datagram.
#[tactic(auto, using(crate::proofs::StepLaws::step_fits))]
pub fn packets_fit()
    ensures { (ports : PlainPorts) (n : PlainNumbers) (input : In Packet) → CanTake input → All FitsDatagram (step ports n input).acts }
{}

/// Nothing is reported about a report.
pub fn no_report_about_reports()
    ensures { (kind code rest : ℕ) (about : Packet) → IsErrorKind kind → IsSilentAbout kind code rest about }
{}
