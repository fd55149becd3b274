//! The connections of a node by their numbers, and how they are found.
//!
//!     conns:   0: c   1: d   3: e           next: 5, above every number that was ever given
//!     free:           2       4
//!     index:   the two ends of c, d and e, each with its number

ghost use Rattle.std.specs.Prelude.{◌≡◌, ◌<◌, ◌≤◌, ◌^◌, [], OnOk, IfOk, None, IsSome};
ghost use Rattle.std.specs.Option.{IsSomeAnd};
ghost use Rattle.std.specs.BTreeMap.{insert_entry, is_at};
ghost use Rattle.std.specs.Map.{remove_entry};
ghost use Rattle.std.specs.Ordering.{nat_cmp};
ghost use Rattle.layer_words.specs.Acts.{Appends};
ghost use Rattle.tcp_conn.specs.Clock.{latest};
ghost use Rattle.tcp_conn.specs.Fits.{Fits};
ghost use Rattle.tcp_flow.specs.Table.{AllFit, AllWait, between, happens, has_stamp, is_opener_of, least_free, under};
ghost use Rattle.tcp_flow.specs.Index.{InOrder};
ghost use Rattle.tcp_flow.specs.Seen.{plain_act};
ghost use Rattle.tcp_flow.specs.Small.{AddsFitting, CanHappen};

use crate::conn::Conn;
use crate::words::{Act, Event};
use pkt_face::Pkt;
use sim_base::{NoMemory, Numbers, Time};
use std::alloc::Global;
use std::collections::{BTreeMap, BTreeSet, HashMap};
use std::marker::Model;
use tcp_wire::SocketPair;

/// The connections of a node. Contracts see them as a list in the order of their numbers.
#[derive(Drop)]
pub(crate) struct Table {
    conns: BTreeMap<u32, Conn>,
    index: HashMap<SocketPair, u32>,
    free: BTreeSet<u32>,
    next: u64,
}

impl Model for Table {
    ghost use Rattle.std.specs.Prelude.{ℕ, List};
    ghost use Rattle.std.specs.Coded.{coded_list, coded_ℕ, coded×};
    ghost use Rattle.tcp_flow.specs.declared.conn.Conn.{Conn};
    ghost use Rattle.tcp_flow.specs.contracts.conn.Conn as conn;

    ghost Value = { List (ℕ × Conn) };

    ghost coded = { coded_list (coded× coded_ℕ conn.the_row.coded) };

    ghost use Rattle.tcp_flow.specs.Held.{IsHeld};

    ghost view = { λ t. t.conns.entries };

    ghost invariant = { IsHeld };
}

impl Table {
    pub(crate) fn new(alloc: Global) -> Table
        ensures { result ≡ [] }
    {
        Table {
            conns: BTreeMap::new(alloc),
            index: HashMap::new(alloc),
            free: BTreeSet::new(alloc),
            next: 0,
        }
    }

    /// The numbers are in order, and the connections sound.
    pub(crate) fn is_sound(&self)
        ensures order { InOrder self.now }
        ensures fit { AllFit self.now }
        ensures wait { AllWait self.now }
    {
        let _conns = &self.conns;
    }

    /// The number of the connection between these two.
    pub(crate) fn between(&self, pair: &SocketPair) -> Option<u32>
        ensures { result ≡ between pair.now self.now }
    {
        self.index.get(pair).copied()
    }

    /// Whether a timer with this stamp is that of the connection with this number.
    pub(crate) fn has_stamp(&self, number: u32, stamp: u64) -> bool
        ensures { result ≡ has_stamp stamp (under number self.now) }
    {
        match self.conns.get(&number) {
            Some(conn) => conn.stamp == stamp,
            None => false,
        }
    }

    /// Whether the connection with this number was opened by this application.
    pub(crate) fn is_opened_by(&self, number: u32, app: u32) -> bool
        ensures { result ≡ is_opener_of app (under number self.now) }
    {
        match self.conns.get(&number) {
            Some(conn) => conn.connection.opener && conn.app == app,
            None => false,
        }
    }

    /// The least number that no connection has. There is no memory for more connections than numbers.
    pub(crate) fn least_free(&self) -> Result<u32, NoMemory>
        ensures { IfOk result (λ number. number ≡ least_free 0 self.now) }
    {
        match self.free.first().copied() {
            Some(number) => Ok(number),
            None if self.next > u64::from(u32::MAX) => Err(NoMemory),
            None => Ok(self.next as u32),
        }
    }

    /// Takes a new connection in, with the least free number.
    pub(crate) fn add(&mut self, number: u32, conn: Conn) -> Result<(), NoMemory>
        requires number { number ≡ least_free 0 self.old }
        requires new { between conn.pair self.old ≡ None }
        requires fits { Fits conn.connection }
        requires waits { 0 < conn.connection.round_trip.rto }
        ensures { OnOk result (self.new ≡ insert_entry nat_cmp self.old number conn) }
    {
        let pair = conn.pair;
        self.index.insert(pair, number)?;
        match self.conns.insert(number, conn) {
            Ok(_none) => {
                if !self.free.remove(&number) {
                    self.next += 1;
                }
                Ok(())
            }
            Err(refused) => {
                self.index.remove(&pair);
                Err(NoMemory::from(refused))
            }
        }
    }

    /// Lets a connection take an event, with the node's numbers, and puts the acts that follow behind `out`. Once it is
    /// closed it is removed. After `NoMemory` all are given up: nothing is left then of connections that aren't sound.
    pub(crate) fn happens<P: Pkt>(
        &mut self,
        now: Time,
        number: u32,
        event: &Event,
        maker: &mut P::Maker,
        numbers: &mut Numbers,
        out: &mut Vec<Act<P>>,
    ) -> Result<(), NoMemory>
        requires time { now.0 ≤ latest }
        requires event { CanHappen event.now }
        ensures conns { OnOk result (self.new ≡ (happens number now.0 event.now numbers.old self.old).state) }
        ensures numbers { OnOk result (numbers.new ≡ (happens number now.0 event.now numbers.old self.old).numbers) }
        ensures acts { OnOk result (Appends (plain_act P.plain) out.old.items out.new.items (happens number now.0 event.now numbers.old self.old).acts) }
        ensures datagrams { OnOk result (AddsFitting (plain_act P.plain) out.old.items out.new.items) }
    {
        let Some(conn) = self.conns.get_mut(&number) else {
            return Ok(());
        };
        let pair = conn.pair;
        match conn.step(now, event, maker, numbers, out) {
            Ok(()) => {
                if conn.is_closed() {
                    return self.remove(number, &pair);
                }
                Ok(())
            }
            Err(refused) => {
                *self = Table::new(*out.allocator());
                Err(refused)
            }
        }
    }

    /// Removes a connection.
    fn remove(&mut self, number: u32, pair: &SocketPair) -> Result<(), NoMemory>
        requires { IsSomeAnd (under number self.old) (λ k. k.pair ≡ pair.now) }
        ensures { OnOk result (self.new ≡ remove_entry (is_at (nat_cmp number)) self.old) }
    {
        self.free.insert(number)?;
        self.index.remove(pair);
        self.conns.remove(&number);
        Ok(())
    }
}
