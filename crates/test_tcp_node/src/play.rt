//! A command is an input of a node's connections.

ghost use Rattle.std.specs.Prelude.{◌≤◌, ◌^◌};

use crate::command::Command;
use pkt_face::{Pkt, PlainPkt};
use sim_base::{NoMemory, NodeId, Numbers, Sequence, Time, Uid};
use std::alloc::Global;
use tcp_conn::Heard;
use tcp_flow::{Act, Conns, In, Seg};
use tcp_wire::{SocketPair, write_segment};

/// The longest packet that IPv4 hands on, and the most data of a segment that is sent here.
const LONGEST: u32 = 65515;

const MOST_DATA: usize = 9000;

/// The connections of a node, and what it has numbered.
#[derive(Drop)]
pub struct Node {
    pub conns: Conns,
    pub numbers: Numbers,
}

impl Node {
    pub fn make(alloc: Global) -> Node {
        Node {
            conns: Conns::make(alloc),
            numbers: Numbers {
                node: NodeId(0),
                packets: 0,
                ids: 0,
                stamps: 0,
            },
        }
    }

    /// Plays a command.
    pub fn play(
        &mut self,
        alloc: Global,
        command: Command,
        out: &mut Vec<Act<PlainPkt>>,
    ) -> Result<(), NoMemory> {
        match command {
            Command::Node => {
                *self = Node::make(alloc);
                Ok(())
            }
            Command::Connect {
                now,
                app,
                src,
                sport,
                dst,
                port,
                mss,
            } => {
                let input = In::Connect {
                    now: at(now),
                    app,
                    src,
                    sport,
                    dst,
                    port,
                    mss: mss.clamp(64, 9000),
                };
                self.conns.step(input, &mut (), &mut self.numbers, out)
            }
            Command::Listen { app, port } => {
                let input = In::Listen { app, port };
                self.conns.step(input, &mut (), &mut self.numbers, out)
            }
            Command::Segment {
                now,
                pair,
                heard,
                bytes,
            } => {
                let packet = packet_of(alloc, &pair, &heard, bytes)?;
                self.hear(at(now), pair.addr, pair.other_addr, packet, out)
            }
            Command::Garbage { now, src, dst } => {
                let uid = Uid {
                    node: NodeId(1),
                    count: 0,
                };
                let packet = PlainPkt::from_bytes(alloc, &mut (), uid, b"garbage")?;
                self.hear(at(now), src, dst, packet, out)
            }
            Command::Timer { now, conn, stamp } => {
                let input = In::Timer {
                    now: at(now),
                    conn,
                    stamp: u64::from(stamp),
                };
                self.conns.step(input, &mut (), &mut self.numbers, out)
            }
            Command::Write { now, app, bytes } => {
                let bytes = Sequence::from_vec(vec![in alloc; 0; usize::from(bytes)]?);
                let input = In::Write {
                    now: at(now),
                    app,
                    bytes,
                };
                self.conns.step(input, &mut (), &mut self.numbers, out)
            }
            Command::Close { now, app } => {
                let input = In::Close { now: at(now), app };
                self.conns.step(input, &mut (), &mut self.numbers, out)
            }
        }
    }

    /// A packet comes, unless it is longer than any that IPv4 hands on.
    fn hear(
        &mut self,
        now: Time,
        src: u32,
        dst: u32,
        packet: PlainPkt,
        out: &mut Vec<Act<PlainPkt>>,
    ) -> Result<(), NoMemory>
        requires { now.0 ≤ 2 ^ 60 }
    {
        if packet.len() > LONGEST {
            return Ok(());
        }
        let segment = Seg { src, dst, packet };
        let input = In::Segment { now, segment };
        self.conns.step(input, &mut (), &mut self.numbers, out)
    }
}

/// The packet of a segment with so many zeros.
fn packet_of(
    alloc: Global,
    pair: &SocketPair,
    heard: &Heard,
    bytes: u16,
) -> Result<PlainPkt, NoMemory> {
    let uid = Uid {
        node: NodeId(1),
        count: 0,
    };
    let bytes = vec![in alloc; 0; usize::from(bytes).min(MOST_DATA)]?;
    write_segment(alloc, &mut (), uid, 0, pair, heard, &bytes)
}

/// A time in milliseconds.
fn at(now: u32) -> Time
    ensures { result.0 ≤ 2 ^ 60 }
{
    Time(u64::from(now) * 1_000_000)
}
