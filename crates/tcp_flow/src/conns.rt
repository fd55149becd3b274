//! A node's connections: each input goes to the connection that it concerns (RFC 9293, 3.10).

ghost use Rattle.std.specs.Prelude.{◌≡◌, ◌≤◌, ◌<◌, ◌^◌, [], OnOk, None, length};
ghost use Rattle.sim_base.specs.Packet.{len};
ghost use Rattle.layer_words.specs.Acts.{Appends};
ghost use Rattle.tcp_conn.specs.Clock.{latest};
ghost use Rattle.tcp_wire.specs.Segment.{arrived};
ghost use Rattle.tcp_flow.specs.Index.{InOrder};
ghost use Rattle.tcp_flow.specs.Seen.{plain_act, plain_in};
ghost use Rattle.tcp_flow.specs.Small.{AddsFitting, CanHappen, CanTake};
ghost use Rattle.tcp_flow.specs.Stray.{answering};
ghost use Rattle.tcp_flow.specs.Table.{AllFit, AllWait, between, happens, under};
ghost use Rattle.tcp_flow.specs.Conns.{is_opening};

use crate::conn::Conn;
use crate::stray::{answering, refuse};
use crate::table::Table;
use crate::words::{Act, Event, In, Seg};
use pkt_face::Pkt;
use sim_base::{NoMemory, Numbers, Time};
use std::alloc::Global;
use std::collections::BTreeMap;
use std::marker::Model;
use tcp_conn::Heard;
use tcp_wire::{Arrived, SocketPair, read_segment};

/// The connections of a node; the application that listens at each port; and the number of the connection that each
/// application opened last.
#[derive(Drop)]
pub struct Conns {
    listening: BTreeMap<u16, u32>,
    opened: BTreeMap<u32, u32>,
    table: Table,
}

impl Model for Conns {
    ghost use Rattle.tcp_flow.specs.Conns.{PlainConns, conns_code};
    ghost use Rattle.tcp_flow.specs.contracts.conn.Conn as conn;

    ghost Value = { PlainConns };

    ghost coded = { conns_code conn.the_row.coded };

    ghost view = { λ c. record { listening = c.listening.entries; opened = c.opened.entries; conns = c.table } };
}

impl Conns {
    ghost use Rattle.tcp_flow.specs.Conns.{accepts, asks, comes, comes_new, comes_to, connects, fires, is_opening, listens, no_conns, opens, step, with_conns};

    /// A node that has no connection.
    pub fn make(alloc: Global) -> Conns
        ensures { result ≡ no_conns }
    {
        Conns {
            listening: BTreeMap::new(alloc),
            opened: BTreeMap::new(alloc),
            table: Table::new(alloc),
        }
    }

    /// An application takes connections at a port.
    pub fn listen(&mut self, app: u32, port: u16) -> Result<(), NoMemory>
        ensures { OnOk result (self.new ≡ listens app port self.old) }
    {
        self.listening.insert(port, app)?;
        Ok(())
    }

    /// Its connections are in the order of their numbers, each of which is there once; their positions are in order and
    /// small, and each waits for some time before it sends again.
    pub fn is_sound(&self)
        ensures order { InOrder self.now.conns }
        ensures fit { AllFit self.now.conns }
        ensures wait { AllWait self.now.conns }
    {
        self.table.is_sound();
    }

    /// Takes an input, with the node's numbers, and puts the acts that follow behind `out`. After `NoMemory` all are given
    /// up.
    pub fn step<P: Pkt>(
        &mut self,
        input: In<P>,
        maker: &mut P::Maker,
        numbers: &mut Numbers,
        out: &mut Vec<Act<P>>,
    ) -> Result<(), NoMemory>
        requires { CanTake (plain_in P.plain input) }
        ensures state { OnOk result (self.new ≡ (step self.old numbers.old (plain_in P.plain input)).state) }
        ensures numbers { OnOk result (numbers.new ≡ (step self.old numbers.old (plain_in P.plain input)).numbers) }
        ensures acts { OnOk result (Appends (plain_act P.plain) out.old.items out.new.items (step self.old numbers.old (plain_in P.plain input)).acts) }
        ensures datagrams { OnOk result (AddsFitting (plain_act P.plain) out.old.items out.new.items) }
    {
        match input {
            In::Connect {
                now,
                app,
                src: Some(addr),
                sport,
                dst,
                port,
                mss,
            } => {
                let pair = SocketPair {
                    addr,
                    port: sport,
                    other_addr: dst,
                    other_port: port,
                };
                self.connect(now, app, pair, mss, maker, numbers, out)
            }
            In::Connect { src: None, .. } => {
                out.push(Act::Dropped)?;
                Ok(())
            }
            In::Listen { app, port } => self.listen(app, port),
            In::Segment { now, segment } => self.hear(now, &segment, maker, numbers, out),
            In::Timer { now, conn, stamp } => {
                self.time_out(now, conn, stamp, maker, numbers, out)
            }
            In::Write { now, app, bytes } => {
                self.ask(now, app, &Event::Write { bytes }, maker, numbers, out)
            }
            In::Close { now, app } => self.ask(now, app, &Event::Close, maker, numbers, out),
        }
    }

    /// Opens a connection, unless there is one between these two already.
    fn connect<P: Pkt>(
        &mut self,
        now: Time,
        app: u32,
        pair: SocketPair,
        mss: u32,
        maker: &mut P::Maker,
        numbers: &mut Numbers,
        out: &mut Vec<Act<P>>,
    ) -> Result<(), NoMemory>
        requires time { now.0 ≤ latest }
        requires least { 64 ≤ mss }
        requires greatest { mss ≤ 9000 }
        ensures state { OnOk result (self.new ≡ (connects now.0 app pair mss self.old numbers.old).state) }
        ensures numbers { OnOk result (numbers.new ≡ (connects now.0 app pair mss self.old numbers.old).numbers) }
        ensures acts { OnOk result (Appends (plain_act P.plain) out.old.items out.new.items (connects now.0 app pair mss self.old numbers.old).acts) }
        ensures datagrams { OnOk result (AddsFitting (plain_act P.plain) out.old.items out.new.items) }
    {
        match self.table.between(&pair) {
            Some(_) => {
                out.push(Act::Dropped)?;
                Ok(())
            }
            None => self.open(now, app, pair, mss, maker, numbers, out),
        }
    }

    fn open<P: Pkt>(
        &mut self,
        now: Time,
        app: u32,
        pair: SocketPair,
        mss: u32,
        maker: &mut P::Maker,
        numbers: &mut Numbers,
        out: &mut Vec<Act<P>>,
    ) -> Result<(), NoMemory>
        requires time { now.0 ≤ latest }
        requires least { 64 ≤ mss }
        requires greatest { mss ≤ 9000 }
        requires new { between pair self.old.conns ≡ None }
        ensures state { OnOk result (self.new ≡ (opens now.0 app pair mss self.old numbers.old).state) }
        ensures numbers { OnOk result (numbers.new ≡ (opens now.0 app pair mss self.old numbers.old).numbers) }
        ensures acts { OnOk result (Appends (plain_act P.plain) out.old.items out.new.items (opens now.0 app pair mss self.old numbers.old).acts) }
        ensures datagrams { OnOk result (AddsFitting (plain_act P.plain) out.old.items out.new.items) }
    {
        let alloc = *out.allocator();
        let number = self.table.least_free()?;
        let conn = Conn::open(alloc, now, number, app, pair, mss, maker, numbers, out)?;
        self.opened.insert(app, number)?;
        self.table.add(number, conn)
    }

    /// Takes a segment; what is none is dropped.
    fn hear<P: Pkt>(
        &mut self,
        now: Time,
        segment: &Seg<P>,
        maker: &mut P::Maker,
        numbers: &mut Numbers,
        out: &mut Vec<Act<P>>,
    ) -> Result<(), NoMemory>
        requires time { now.0 ≤ latest }
        requires packet { len (P.plain segment.now.packet) ≤ 65515 }
        ensures state { OnOk result (self.new ≡ (comes now.0 segment.now.src segment.now.dst (arrived segment.now.src segment.now.dst (P.plain segment.now.packet)) self.old numbers.old).state) }
        ensures numbers { OnOk result (numbers.new ≡ (comes now.0 segment.now.src segment.now.dst (arrived segment.now.src segment.now.dst (P.plain segment.now.packet)) self.old numbers.old).numbers) }
        ensures acts { OnOk result (Appends (plain_act P.plain) out.old.items out.new.items (comes now.0 segment.now.src segment.now.dst (arrived segment.now.src segment.now.dst (P.plain segment.now.packet)) self.old numbers.old).acts) }
        ensures datagrams { OnOk result (AddsFitting (plain_act P.plain) out.old.items out.new.items) }
    {
        let alloc = *out.allocator();
        let found = read_segment(alloc, segment.src, segment.dst, &segment.packet)?;
        match found {
            Some(arrived) => {
                self.take(now, segment.src, segment.dst, arrived, maker, numbers, out)
            }
            None => {
                out.push(Act::Dropped)?;
                Ok(())
            }
        }
    }

    /// Gives a segment to its connection.
    fn take<P: Pkt>(
        &mut self,
        now: Time,
        src: u32,
        dst: u32,
        arrived: Arrived,
        maker: &mut P::Maker,
        numbers: &mut Numbers,
        out: &mut Vec<Act<P>>,
    ) -> Result<(), NoMemory>
        requires time { now.0 ≤ latest }
        requires bytes { length arrived.bytes < 2 ^ 32 }
        ensures state { OnOk result (self.new ≡ (comes_to now.0 src dst arrived (between (answering src dst arrived) self.old.conns) self.old numbers.old).state) }
        ensures numbers { OnOk result (numbers.new ≡ (comes_to now.0 src dst arrived (between (answering src dst arrived) self.old.conns) self.old numbers.old).numbers) }
        ensures acts { OnOk result (Appends (plain_act P.plain) out.old.items out.new.items (comes_to now.0 src dst arrived (between (answering src dst arrived) self.old.conns) self.old numbers.old).acts) }
        ensures datagrams { OnOk result (AddsFitting (plain_act P.plain) out.old.items out.new.items) }
    {
        let pair = answering(src, dst, &arrived);
        match self.table.between(&pair) {
            Some(number) => {
                self.give(now, number, Event::Segment { arrived }, maker, numbers, out)
            }
            None => self.take_new(now, src, dst, &arrived, maker, numbers, out),
        }
    }

    fn give<P: Pkt>(
        &mut self,
        now: Time,
        number: u32,
        event: Event,
        maker: &mut P::Maker,
        numbers: &mut Numbers,
        out: &mut Vec<Act<P>>,
    ) -> Result<(), NoMemory>
        requires time { now.0 ≤ latest }
        requires event { CanHappen event }
        ensures state { OnOk result (self.new ≡ (with_conns self.old (happens number now.0 event numbers.old self.old.conns)).state) }
        ensures numbers { OnOk result (numbers.new ≡ (happens number now.0 event numbers.old self.old.conns).numbers) }
        ensures acts { OnOk result (Appends (plain_act P.plain) out.old.items out.new.items (happens number now.0 event numbers.old self.old.conns).acts) }
        ensures datagrams { OnOk result (AddsFitting (plain_act P.plain) out.old.items out.new.items) }
    {
        self.table.happens(now, number, &event, maker, numbers, out)
    }

    /// Takes a segment to no connection: a listening port takes a new one, and what else comes is refused.
    fn take_new<P: Pkt>(
        &mut self,
        now: Time,
        src: u32,
        dst: u32,
        arrived: &Arrived,
        maker: &mut P::Maker,
        numbers: &mut Numbers,
        out: &mut Vec<Act<P>>,
    ) -> Result<(), NoMemory>
        requires time { now.0 ≤ latest }
        requires bytes { length arrived.now.bytes < 2 ^ 32 }
        requires new { between (answering src dst arrived.now) self.old.conns ≡ None }
        ensures state { OnOk result (self.new ≡ (comes_new now.0 src dst arrived.now (under arrived.now.dport self.old.listening) self.old numbers.old).state) }
        ensures numbers { OnOk result (numbers.new ≡ (comes_new now.0 src dst arrived.now (under arrived.now.dport self.old.listening) self.old numbers.old).numbers) }
        ensures acts { OnOk result (Appends (plain_act P.plain) out.old.items out.new.items (comes_new now.0 src dst arrived.now (under arrived.now.dport self.old.listening) self.old numbers.old).acts) }
        ensures datagrams { OnOk result (AddsFitting (plain_act P.plain) out.old.items out.new.items) }
    {
        let alloc = *out.allocator();
        let Some(app) = self.listening.get(&arrived.dport).copied() else {
            return refuse(alloc, src, dst, arrived, maker, numbers, out);
        };
        if is_opening(&arrived.says) {
            let pair = answering(src, dst, arrived);
            return self.accept(now, app, pair, maker, numbers, out);
        }
        refuse(alloc, src, dst, arrived, maker, numbers, out)
    }

    fn accept<P: Pkt>(
        &mut self,
        now: Time,
        app: u32,
        pair: SocketPair,
        maker: &mut P::Maker,
        numbers: &mut Numbers,
        out: &mut Vec<Act<P>>,
    ) -> Result<(), NoMemory>
        requires time { now.0 ≤ latest }
        requires new { between pair self.old.conns ≡ None }
        ensures state { OnOk result (self.new ≡ (accepts now.0 app pair self.old numbers.old).state) }
        ensures numbers { OnOk result (numbers.new ≡ (accepts now.0 app pair self.old numbers.old).numbers) }
        ensures acts { OnOk result (Appends (plain_act P.plain) out.old.items out.new.items (accepts now.0 app pair self.old numbers.old).acts) }
        ensures datagrams { OnOk result (AddsFitting (plain_act P.plain) out.old.items out.new.items) }
    {
        let alloc = *out.allocator();
        let number = self.table.least_free()?;
        let conn = Conn::accept(alloc, now, number, app, pair, maker, numbers, out)?;
        self.table.add(number, conn)
    }

    /// A timer fires: it counts where its stamp is that of its connection.
    fn time_out<P: Pkt>(
        &mut self,
        now: Time,
        number: u32,
        stamp: u64,
        maker: &mut P::Maker,
        numbers: &mut Numbers,
        out: &mut Vec<Act<P>>,
    ) -> Result<(), NoMemory>
        requires time { now.0 ≤ latest }
        ensures state { OnOk result (self.new ≡ (fires now.0 number stamp self.old numbers.old).state) }
        ensures numbers { OnOk result (numbers.new ≡ (fires now.0 number stamp self.old numbers.old).numbers) }
        ensures acts { OnOk result (Appends (plain_act P.plain) out.old.items out.new.items (fires now.0 number stamp self.old numbers.old).acts) }
        ensures datagrams { OnOk result (AddsFitting (plain_act P.plain) out.old.items out.new.items) }
    {
        if !self.table.has_stamp(number, stamp) {
            return Ok(());
        }
        self.table
            .happens(now, number, &Event::Timer, maker, numbers, out)
    }

    /// An application writes to the connection that it opened last, or closes it.
    fn ask<P: Pkt>(
        &mut self,
        now: Time,
        app: u32,
        event: &Event,
        maker: &mut P::Maker,
        numbers: &mut Numbers,
        out: &mut Vec<Act<P>>,
    ) -> Result<(), NoMemory>
        requires time { now.0 ≤ latest }
        requires event { CanHappen event.now }
        ensures state { OnOk result (self.new ≡ (asks now.0 app event.now self.old numbers.old).state) }
        ensures numbers { OnOk result (numbers.new ≡ (asks now.0 app event.now self.old numbers.old).numbers) }
        ensures acts { OnOk result (Appends (plain_act P.plain) out.old.items out.new.items (asks now.0 app event.now self.old numbers.old).acts) }
        ensures datagrams { OnOk result (AddsFitting (plain_act P.plain) out.old.items out.new.items) }
    {
        let Some(number) = self.opened.get(&app).copied() else {
            return Ok(());
        };
        if !self.table.is_opened_by(number, app) {
            return Ok(());
        }
        self.table.happens(now, number, event, maker, numbers, out)
    }
}

/// Whether a segment opens a connection at a listening port (RFC 9293, 3.10.7.2).
fn is_opening(says: &Heard) -> bool
    ensures { result ≡ is_opening says.now }
{
    !says.rst && says.syn && !says.has_ack && says.seq == 0
}
