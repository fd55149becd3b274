//! The sink's side of a connection while data comes: what it holds, the end that it knows of, what it tells.

ghost use Rattle.std.specs.Prelude.{◌≡◌, ◌+◌, ◌<◌, ◌^◌, ◌&&◌, false, true, Some, None, if◌then◌else◌, length, IfOk};
ghost use Rattle.std.specs.FinMap.{empty};
ghost use Rattle.tcp_stream.specs.Held.{in_window};
ghost use Rattle.tcp_stream.specs.History.{is_at, receive};
ghost use Rattle.tcp_stream.specs.Tells.{told_of};

use crate::store::{ReceiveStore, WINDOW};
use sim_base::NoMemory;
use std::alloc::Global;
use std::marker::Model;

/// What a segment brings to the application: bytes in order, and maybe the end behind them.
#[derive(Drop)]
pub struct Received {
    pub bytes: Vec<u8>,
    pub end: bool,
}

/// The receiving side of a connection.
#[derive(Drop)]
pub struct Receiver {
    store: ReceiveStore,
    fin_at: Option<u64>,
    ended: bool,
}

impl Model for Receiver {
    ghost use Rattle.std.specs.Prelude.{◌+◌, if◌then◌else◌};
    ghost use Rattle.tcp_stream.specs.History.{Sink};
    ghost use Rattle.tcp_stream.specs.SinkState.{sink_code};

    ghost Value = { Sink };

    ghost coded = { sink_code };

    ghost view = { λ r. record { rcv = (if r.ended then r.store.0 + 1 else r.store.0); held = r.store.1; fin_at = r.fin_at; ended = r.ended } };
}

impl Receiver {
    /// A receiver that waits for the first byte.
    pub fn new(alloc: Global) -> Self
        ensures { result ≡ record { rcv = 1; held = empty; fin_at = None; ended = false } }
    {
        Receiver {
            store: ReceiveStore::new(alloc, 1),
            fin_at: None,
            ended: false,
        }
    }

    /// The position that the receiver waits for, as its acknowledgements say.
    pub fn next(&self) -> u64
        ensures { result ≡ self.now.rcv }
    {
        if self.ended {
            self.store.next() + 1
        } else {
            self.store.next()
        }
    }

    /// Whether the end has come.
    pub fn has_ended(&self) -> bool
        ensures { result ≡ self.now.ended }
    {
        self.ended
    }

    /// Takes in the FIN of a side that sends no data.
    pub fn pass_fin(&mut self)
        requires { self.old.ended ≡ false }
        ensures { self.new ≡ record self.old { rcv = self.old.rcv + 1; ended = true } }
    {
        self.ended = true;
    }

    /// Takes in the bytes and the FIN of a segment.
    pub fn receive(
        &mut self,
        alloc: Global,
        seq: u64,
        fin: bool,
        bytes: &[u8],
    ) -> Result<Received, NoMemory>
        requires running { self.old.ended ≡ false }
        requires small { seq + length bytes.now < 2 ^ 63 }
        ensures ended { IfOk result (λ received. self.new.ended ≡ received.end) }
        ensures received { IfOk result (λ received. (self.new, told_of received) ≡ receive self.old (record { seq = seq; syn = false; fin = fin; bytes = bytes.now })) }
    {
        let position = fin_in_window(self.store.next(), fin, seq + bytes.len() as u64);
        self.fin_at = self.fin_at.or(position);
        self.store.take_in(alloc, seq, bytes)?;
        let bytes = self.store.take_front(alloc)?;
        let end = is_at(self.fin_at, self.store.next());
        self.ended = end;
        Ok(Received { bytes, end })
    }
}

/// The position of a FIN that lies in the window.
fn fin_in_window(next: u64, fin: bool, position: u64) -> Option<u64>
    requires { next < 2 ^ 63 }
    ensures { result ≡ (if fin && in_window next position then Some position else None) }
{
    if fin && next <= position && position < next + WINDOW {
        Some(position)
    } else {
        None
    }
}

fn is_at(fin_at: Option<u64>, position: u64) -> bool
    ensures { result ≡ is_at fin_at position }
{
    match fin_at {
        Some(fin) => fin == position,
        None => false,
    }
}
