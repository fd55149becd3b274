//! One connection of a node.

ghost use Rattle.std.specs.Prelude.{◌≡◌, ◌≤◌, ◌<◌, ◌^◌, IfOk, OnOk, length};
ghost use Rattle.layer_words.specs.Acts.{Appends};
ghost use Rattle.tcp_conn.specs.Clock.{latest};
ghost use Rattle.tcp_conn.specs.Begin.{closes, heard_syn, opening, writes};
ghost use Rattle.tcp_conn.specs.Fits.{Fits};
ghost use Rattle.tcp_conn.specs.Step.{hears, times_out};
ghost use Rattle.tcp_flow.specs.Conn.{begun, stepped};
ghost use Rattle.tcp_flow.specs.Seen.{plain_act};
ghost use Rattle.tcp_flow.specs.Small.{AddsFitting};

use crate::words::Act;
use pkt_face::Pkt;
use sim_base::{NoMemory, Numbers, Time};
use std::alloc::Global;
use tcp_conn::Connection;
use tcp_wire::{Arrived, SocketPair};

/// A connection with its number in the node, its application, and who talks to whom.
#[derive(Drop)]
pub struct Conn {
    pub number: u32,
    pub app: u32,
    pub pair: SocketPair,
    pub connection: Connection,
    /// The stamp of the timer that was started last.
    pub stamp: u64,
}

impl Conn {
    /// Opens a connection: its SYN is sent.
    pub fn open<P: Pkt>(
        alloc: Global,
        now: Time,
        number: u32,
        app: u32,
        pair: SocketPair,
        mss: u32,
        maker: &mut P::Maker,
        numbers: &mut Numbers,
        out: &mut Vec<Act<P>>,
    ) -> Result<Conn, NoMemory>
        requires time { now.0 ≤ latest }
        requires least { 64 ≤ mss }
        requires greatest { mss ≤ 9000 }
        ensures conn { IfOk result (λ k. k ≡ (begun number app pair numbers.old (opening now.0 mss)).conn) }
        ensures numbers { OnOk result (numbers.new ≡ (begun number app pair numbers.old (opening now.0 mss)).numbers) }
        ensures acts { OnOk result (Appends (plain_act P.plain) out.old.items out.new.items (begun number app pair numbers.old (opening now.0 mss)).acts) }
        ensures datagrams { OnOk result (AddsFitting (plain_act P.plain) out.old.items out.new.items) }
        ensures fits { IfOk result (λ k. Fits k.connection) }
        ensures pair { IfOk result (λ k. k.pair ≡ pair) }
    {
        let mut effects = Vec::new(alloc);
        let connection = Connection::open(alloc, now, mss, &mut effects)?;
        let mut conn = Conn {
            number,
            app,
            pair,
            connection,
            stamp: 0,
        };
        conn.carry_out(alloc, &effects, maker, numbers, out)?;
        Ok(conn)
    }

    /// Answers the SYN of a new connection.
    pub fn accept<P: Pkt>(
        alloc: Global,
        now: Time,
        number: u32,
        app: u32,
        pair: SocketPair,
        maker: &mut P::Maker,
        numbers: &mut Numbers,
        out: &mut Vec<Act<P>>,
    ) -> Result<Conn, NoMemory>
        requires { now.0 ≤ latest }
        ensures conn { IfOk result (λ k. k ≡ (begun number app pair numbers.old (heard_syn now.0)).conn) }
        ensures numbers { OnOk result (numbers.new ≡ (begun number app pair numbers.old (heard_syn now.0)).numbers) }
        ensures acts { OnOk result (Appends (plain_act P.plain) out.old.items out.new.items (begun number app pair numbers.old (heard_syn now.0)).acts) }
        ensures datagrams { OnOk result (AddsFitting (plain_act P.plain) out.old.items out.new.items) }
        ensures fits { IfOk result (λ k. Fits k.connection) }
        ensures pair { IfOk result (λ k. k.pair ≡ pair) }
    {
        let mut effects = Vec::new(alloc);
        let connection = Connection::accept(alloc, now, &mut effects)?;
        let mut conn = Conn {
            number,
            app,
            pair,
            connection,
            stamp: 0,
        };
        conn.carry_out(alloc, &effects, maker, numbers, out)?;
        Ok(conn)
    }

    /// Takes a segment.
    pub fn hears<P: Pkt>(
        &mut self,
        alloc: Global,
        now: Time,
        arrived: &Arrived,
        maker: &mut P::Maker,
        numbers: &mut Numbers,
        out: &mut Vec<Act<P>>,
    ) -> Result<(), NoMemory>
        requires time { now.0 ≤ latest }
        requires fits { Fits self.old.connection }
        requires bytes { length arrived.now.bytes < 2 ^ 32 }
        ensures conn { OnOk result (self.new ≡ (stepped self.old numbers.old (hears now.0 arrived.now.says arrived.now.bytes self.old.connection)).conn) }
        ensures numbers { OnOk result (numbers.new ≡ (stepped self.old numbers.old (hears now.0 arrived.now.says arrived.now.bytes self.old.connection)).numbers) }
        ensures acts { OnOk result (Appends (plain_act P.plain) out.old.items out.new.items (stepped self.old numbers.old (hears now.0 arrived.now.says arrived.now.bytes self.old.connection)).acts) }
        ensures datagrams { OnOk result (AddsFitting (plain_act P.plain) out.old.items out.new.items) }
        ensures fits { OnOk result (Fits self.new.connection) }
        ensures pair { self.new.pair ≡ self.old.pair }
    {
        let mut effects = Vec::new(alloc);
        let _size = self.connection.reno.smss();
        let bytes = arrived.bytes.as_slice();
        self.connection
            .hears(alloc, now, &arrived.says, bytes, &mut effects)?;
        self.carry_out(alloc, &effects, maker, numbers, out)
    }

    /// The timer fires. Whether its stamp is the current one is the caller's to see.
    pub fn times_out<P: Pkt>(
        &mut self,
        alloc: Global,
        now: Time,
        maker: &mut P::Maker,
        numbers: &mut Numbers,
        out: &mut Vec<Act<P>>,
    ) -> Result<(), NoMemory>
        requires time { now.0 ≤ latest }
        requires fits { Fits self.old.connection }
        ensures conn { OnOk result (self.new ≡ (stepped self.old numbers.old (times_out now.0 self.old.connection)).conn) }
        ensures numbers { OnOk result (numbers.new ≡ (stepped self.old numbers.old (times_out now.0 self.old.connection)).numbers) }
        ensures acts { OnOk result (Appends (plain_act P.plain) out.old.items out.new.items (stepped self.old numbers.old (times_out now.0 self.old.connection)).acts) }
        ensures datagrams { OnOk result (AddsFitting (plain_act P.plain) out.old.items out.new.items) }
        ensures fits { OnOk result (Fits self.new.connection) }
        ensures pair { self.new.pair ≡ self.old.pair }
    {
        let mut effects = Vec::new(alloc);
        let _size = self.connection.reno.smss();
        self.connection.times_out(alloc, now, &mut effects)?;
        self.carry_out(alloc, &effects, maker, numbers, out)
    }

    /// Takes as many bytes as there is room for.
    pub fn write<P: Pkt>(
        &mut self,
        alloc: Global,
        now: Time,
        bytes: &[u8],
        maker: &mut P::Maker,
        numbers: &mut Numbers,
        out: &mut Vec<Act<P>>,
    ) -> Result<(), NoMemory>
        requires time { now.0 ≤ latest }
        requires fits { Fits self.old.connection }
        ensures conn { OnOk result (self.new ≡ (stepped self.old numbers.old (writes now.0 bytes.now self.old.connection)).conn) }
        ensures numbers { OnOk result (numbers.new ≡ (stepped self.old numbers.old (writes now.0 bytes.now self.old.connection)).numbers) }
        ensures acts { OnOk result (Appends (plain_act P.plain) out.old.items out.new.items (stepped self.old numbers.old (writes now.0 bytes.now self.old.connection)).acts) }
        ensures datagrams { OnOk result (AddsFitting (plain_act P.plain) out.old.items out.new.items) }
        ensures fits { OnOk result (Fits self.new.connection) }
        ensures pair { self.new.pair ≡ self.old.pair }
    {
        let mut effects = Vec::new(alloc);
        let _size = self.connection.reno.smss();
        self.connection.write(now, bytes, &mut effects)?;
        self.carry_out(alloc, &effects, maker, numbers, out)
    }

    /// Nothing more will be written.
    pub fn close<P: Pkt>(
        &mut self,
        alloc: Global,
        now: Time,
        maker: &mut P::Maker,
        numbers: &mut Numbers,
        out: &mut Vec<Act<P>>,
    ) -> Result<(), NoMemory>
        requires time { now.0 ≤ latest }
        requires fits { Fits self.old.connection }
        ensures conn { OnOk result (self.new ≡ (stepped self.old numbers.old (closes now.0 self.old.connection)).conn) }
        ensures numbers { OnOk result (numbers.new ≡ (stepped self.old numbers.old (closes now.0 self.old.connection)).numbers) }
        ensures acts { OnOk result (Appends (plain_act P.plain) out.old.items out.new.items (stepped self.old numbers.old (closes now.0 self.old.connection)).acts) }
        ensures datagrams { OnOk result (AddsFitting (plain_act P.plain) out.old.items out.new.items) }
        ensures fits { OnOk result (Fits self.new.connection) }
        ensures pair { self.new.pair ≡ self.old.pair }
    {
        let mut effects = Vec::new(alloc);
        let _size = self.connection.reno.smss();
        self.connection.close(now, &mut effects)?;
        self.carry_out(alloc, &effects, maker, numbers, out)
    }
}
