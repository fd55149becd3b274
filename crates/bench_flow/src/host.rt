//! One node of the transfer: its connections and its application.

ghost use Rattle.std.specs.Prelude.{◌≤◌, ◌^◌};

use crate::digest::{START, byte_at, digest_with};
use crate::way::Way;
use pkt_face::{Pkt, PlainPkt};
use sim_base::{NoMemory, NodeId, Numbers, Sequence, Time};
use std::alloc::Global;
use tcp_flow::{Act, Conns, In};
use tcp_wire::SocketPair;

/// The longest packet that IPv4 hands on.
const LONGEST: u32 = 65515;

/// The room of a connection that was just opened.
const ALL_ROOM: u32 = 131_072;

/// The opener's greatest segment size.
const MSS: u32 = 536;

/// The number of a node's one application.
const APP: u32 = 0;

/// The timer that was started last.
#[derive(Clone, Copy)]
pub struct Timer {
    pub at: Time,
    pub conn: u32,
    pub stamp: u64,
}

/// A node's connections, and what its application has left to write or was given.
#[derive(Drop)]
pub struct Host {
    pub conns: Conns,
    numbers: Numbers,
    timer: Option<Timer>,
    left: u64,
    written: u64,
    closed: bool,
    pub delivered: u64,
    pub digest: u64,
    pub ended: bool,
}

impl Host {
    /// A node whose application has so many bytes to write.
    pub fn new(alloc: Global, node: u32, left: u64) -> Host {
        Host {
            conns: Conns::make(alloc),
            numbers: Numbers {
                node: NodeId(node),
                packets: 0,
                ids: 0,
                stamps: 0,
            },
            timer: None,
            left,
            written: 0,
            closed: false,
            delivered: 0,
            digest: START,
            ended: false,
        }
    }

    /// When its timer fires, if one was started.
    pub fn timer_at(&self) -> Option<Time> {
        match self.timer {
            Some(timer) => Some(timer.at),
            None => None,
        }
    }

    /// Its application takes connections at a port.
    pub fn listen(&mut self, alloc: Global, port: u16) -> Result<(), NoMemory> {
        let mut acts = Vec::<Act<PlainPkt>>::new(alloc);
        let input = In::Listen { app: APP, port };
        self.conns
            .step(input, &mut (), &mut self.numbers, &mut acts)
    }

    /// Its application opens a connection at time 0.
    pub fn connect(
        &mut self,
        alloc: Global,
        pair: SocketPair,
        to: &mut Way,
    ) -> Result<(), NoMemory> {
        let now = Time(0);
        let mut acts = Vec::new(alloc);
        let input = In::Connect {
            now,
            app: APP,
            src: Some(pair.addr),
            sport: pair.port,
            dst: pair.other_addr,
            port: pair.other_port,
            mss: MSS,
        };
        self.conns
            .step(input, &mut (), &mut self.numbers, &mut acts)?;
        self.follow(alloc, now, acts, to)
    }

    /// Takes the next packet that comes.
    pub fn hear(
        &mut self,
        alloc: Global,
        now: Time,
        from: &mut Way,
        to: &mut Way,
    ) -> Result<(), NoMemory>
        requires { now.0 ≤ 2 ^ 59 }
    {
        let Some(flying) = from.take() else {
            return Ok(());
        };
        let segment = flying.segment;
        if segment.packet.len() > LONGEST {
            return Ok(());
        }
        let mut acts = Vec::new(alloc);
        let input = In::Segment { now, segment };
        self.conns
            .step(input, &mut (), &mut self.numbers, &mut acts)?;
        self.follow(alloc, now, acts, to)
    }

    pub fn time_out(&mut self, alloc: Global, now: Time, to: &mut Way) -> Result<(), NoMemory>
        requires { now.0 ≤ 2 ^ 59 }
    {
        let Some(Timer { conn, stamp, .. }) = self.timer.take() else {
            return Ok(());
        };
        let mut acts = Vec::new(alloc);
        let input = In::Timer { now, conn, stamp };
        self.conns
            .step(input, &mut (), &mut self.numbers, &mut acts)?;
        self.follow(alloc, now, acts, to)
    }

    /// Carries acts out, and writes where there is room then.
    fn follow(
        &mut self,
        alloc: Global,
        now: Time,
        acts: Vec<Act<PlainPkt>>,
        to: &mut Way,
    ) -> Result<(), NoMemory>
        requires { now.0 ≤ 2 ^ 59 }
    {
        let room = self.carry_out(alloc, now, acts, to)?;
        if room == 0 || self.closed {
            return Ok(());
        }
        self.write(alloc, now, u64::from(room), to)?;
        self.close_behind(alloc, now, to)
    }

    /// Carries acts out, and says how many bytes can be written then.
    fn carry_out(
        &mut self,
        alloc: Global,
        now: Time,
        acts: Vec<Act<PlainPkt>>,
        to: &mut Way,
    ) -> Result<u32, NoMemory> {
        let mut room = 0;
        for act in acts {
            match act {
                Act::Emit { segment } => to.send(now, segment)?,
                Act::TimerAt { at, conn, stamp } => self.timer = Some(Timer { at, conn, stamp }),
                Act::Connected { .. } => room = ALL_ROOM,
                Act::Room { free, .. } => room = free,
                Act::Deliver { packet, .. } => self.keep(alloc, &packet)?,
                Act::End { .. } => self.ended = true,
                _ => {}
            }
        }
        Ok(room)
    }

    /// Takes a delivery.
    fn keep(&mut self, alloc: Global, packet: &PlainPkt) -> Result<(), NoMemory> {
        let mut bytes = vec![in alloc; 0; packet.len() as usize]?;
        packet.peek(0, &mut bytes);
        self.digest = digest_with(self.digest, &bytes);
        self.delivered = self.delivered.saturating_add(u64::from(packet.len()));
        Ok(())
    }

    /// Writes as much as there is room for.
    fn write(&mut self, alloc: Global, now: Time, room: u64, to: &mut Way) -> Result<(), NoMemory>
        requires { now.0 ≤ 2 ^ 59 }
    {
        let bytes = self.next_bytes(alloc, room)?;
        let mut acts = Vec::new(alloc);
        let input = In::Write {
            now,
            app: APP,
            bytes,
        };
        self.conns
            .step(input, &mut (), &mut self.numbers, &mut acts)?;
        let _room = self.carry_out(alloc, now, acts, to)?;
        Ok(())
    }

    /// Closes behind all that was to be written.
    fn close_behind(&mut self, alloc: Global, now: Time, to: &mut Way) -> Result<(), NoMemory>
        requires { now.0 ≤ 2 ^ 59 }
    {
        if self.left != 0 {
            return Ok(());
        }
        self.closed = true;
        let mut acts = Vec::new(alloc);
        let input = In::Close { now, app: APP };
        self.conns
            .step(input, &mut (), &mut self.numbers, &mut acts)?;
        let _room = self.carry_out(alloc, now, acts, to)?;
        Ok(())
    }

    /// The next bytes to write, as many as there is room for.
    fn next_bytes(&mut self, alloc: Global, room: u64) -> Result<Sequence<u8>, NoMemory> {
        let n = room.min(self.left);
        let mut bytes = Vec::with_capacity(alloc, n as usize)?;
        for place in 0..n {
            bytes.push(byte_at(self.written.saturating_add(place)))?;
        }
        self.written = self.written.saturating_add(n);
        self.left = self.left.saturating_sub(n);
        Ok(Sequence::from_vec(bytes))
    }
}
