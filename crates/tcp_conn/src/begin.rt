//! What begins a connection, and what its application does (RFC 9293, 3.10.1 to 3.10.4).

ghost use Rattle.std.specs.Prelude.{◌≡◌, ◌≤◌, ◌<◌, ◌+◌, ◌^◌, ◌++◌, true, false, OnOk, IfOk};
ghost use Rattle.tcp_conn.specs.Clock.{latest};
ghost use Rattle.tcp_conn.specs.Begin.{begun, closes, heard_syn, opening, with_bytes, writes};
ghost use Rattle.tcp_conn.specs.Fits.{Fits};

use crate::connection::{Connection, Phase};
use crate::round_trip::RoundTrip;
use crate::words::Effect;
use sim_base::{NoMemory, Time};
use std::alloc::Global;
use tcp_reno::Reno;
use tcp_stream::{Receiver, SendBuffer};

/// The greatest segment size that a sink names.
pub const SINK_MSS: u32 = 9000;

/// The peer's window until it is heard of.
const FIRST_WINDOW: u64 = 65535;

impl Connection {
    /// A connection of which nothing was sent.
    fn begin(alloc: Global, opener: bool, mss: u32) -> Connection
        requires least { 64 ≤ mss }
        requires greatest { mss ≤ 9000 }
        ensures { result ≡ begun opener mss }
    {
        Connection {
            phase: if opener {
                Phase::SynSent
            } else {
                Phase::SynReceived
            },
            opener,
            mss,
            una: 0,
            nxt: 0,
            max: 0,
            buffer: SendBuffer::new(alloc),
            closing: false,
            sink: Receiver::new(alloc),
            peer_window: FIRST_WINDOW,
            timed: None,
            round_trip: RoundTrip::new(),
            tries: 0,
            timer: false,
            reno: Reno::make(mss, false),
        }
    }

    /// Opens a connection: its SYN is sent.
    #[tactic(auto, unfolding(crate::specs::Begin::opening))]
    pub fn open(
        alloc: Global,
        now: Time,
        mss: u32,
        out: &mut Vec<Effect>,
    ) -> Result<Connection, NoMemory>
        requires time { now.0 ≤ latest }
        requires least { 64 ≤ mss }
        requires greatest { mss ≤ 9000 }
        ensures now { IfOk result (λ c. c ≡ (opening now.0 mss).now) }
        ensures effects { OnOk result (out.new.items ≡ out.old.items ++ (opening now.0 mss).effects) }
        ensures fits { IfOk result (λ c. Fits c) }
    {
        let mut connection = Connection::begin(alloc, true, mss);
        connection.send(now, true, false, 0, out)?;
        Ok(connection)
    }

    /// Answers the SYN of a new connection on a listening port.
    #[tactic(auto, unfolding(crate::specs::Begin::heard_syn))]
    pub fn accept(alloc: Global, now: Time, out: &mut Vec<Effect>) -> Result<Connection, NoMemory>
        requires { now.0 ≤ latest }
        ensures now { IfOk result (λ c. c ≡ (heard_syn now.0).now) }
        ensures effects { OnOk result (out.new.items ≡ out.old.items ++ (heard_syn now.0).effects) }
        ensures fits { IfOk result (λ c. Fits c) }
    {
        let mut connection = Connection::begin(alloc, false, SINK_MSS);
        connection.send(now, true, false, 0, out)?;
        Ok(connection)
    }

    /// Takes as many bytes as there is room for, sends what may be sent.
    #[tactic(auto, unfolding(crate::specs::Begin::writes))]
    pub fn write(&mut self, now: Time, bytes: &[u8], out: &mut Vec<Effect>) -> Result<(), NoMemory>
        requires time { now.0 ≤ latest }
        requires fits { Fits self.old }
        ensures now { OnOk result (self.new ≡ (writes now.0 bytes.now self.old).now) }
        ensures effects { OnOk result (out.new.items ≡ out.old.items ++ (writes now.0 bytes.now self.old).effects) }
        ensures fits { OnOk result (Fits self.new) }
    {
        self.fill(bytes)?;
        self.pump(now, out)
    }

    /// Takes the bytes that there is room for.
    fn fill(&mut self, bytes: &[u8]) -> Result<(), NoMemory>
        requires { Fits self.old }
        ensures now { OnOk result (self.new ≡ with_bytes bytes.now self.old) }
        ensures fits { OnOk result (Fits self.new) }
    {
        let room = self.room() as usize;
        let taken = if room < bytes.len() {
            &bytes[..room]
        } else {
            bytes
        };
        self.buffer.write(taken)?;
        Ok(())
    }

    /// Nothing more will be written.
    #[tactic(auto, unfolding(crate::specs::Begin::closes))]
    pub fn close(&mut self, now: Time, out: &mut Vec<Effect>) -> Result<(), NoMemory>
        requires time { now.0 ≤ latest }
        requires fits { Fits self.old }
        ensures now { OnOk result (self.new ≡ (closes now.0 self.old).now) }
        ensures effects { OnOk result (out.new.items ≡ out.old.items ++ (closes now.0 self.old).effects) }
        ensures fits { OnOk result (Fits self.new) }
    {
        self.closing = true;
        self.pump(now, out)
    }
}
