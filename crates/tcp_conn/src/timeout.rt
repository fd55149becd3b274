//! The retransmission timer fires (RFC 9293, 3.10.8).

ghost use Rattle.std.specs.Prelude.{◌≡◌, ◌≤◌, ◌<◌, ◌+◌, ◌^◌, ◌++◌, OnOk};
ghost use Rattle.tcp_conn.specs.Clock.{latest};
ghost use Rattle.tcp_conn.specs.Fits.{Fits};
ghost use Rattle.tcp_conn.specs.Step.{reset, sent_again, timed_out, times_out};

use crate::connection::{Connection, Phase};
use crate::words::Effect;
use sim_base::{NoMemory, Time};
use std::alloc::Global;
use tcp_reno::RenoIn;

/// After so many timeouts in a row the next one gives a connection up.
const TRIES: u32 = 12;

impl Connection {
    /// The timer fires. After `NoMemory` the connection and `out` are given up.
    #[tactic(auto, unfolding(crate::specs::Step::times_out))]
    pub fn times_out(
        &mut self,
        alloc: Global,
        now: Time,
        out: &mut Vec<Effect>,
    ) -> Result<(), NoMemory>
        requires time { now.0 ≤ latest }
        requires fits { Fits self.old }
        ensures now { OnOk result (self.new ≡ (times_out now.0 self.old).now) }
        ensures effects { OnOk result (out.new.items ≡ out.old.items ++ (times_out now.0 self.old).effects) }
        ensures fits { OnOk result (Fits self.new) }
    {
        if !self.timer {
            return Ok(());
        }
        if self.tries >= TRIES {
            return self.reset(out);
        }
        self.time_out(alloc)?;
        self.send_again(now, out)?;
        self.restart_timer(now, out)
    }

    /// One more timeout is counted, and sending goes back to una.
    fn time_out(&mut self, alloc: Global) -> Result<(), NoMemory>
        requires fits { Fits self.old }
        requires tries { self.old.tries < 12 }
        ensures now { OnOk result (self.new ≡ timed_out self.old) }
        ensures fits { OnOk result (Fits self.new) }
        ensures nxt { OnOk result (self.new.nxt ≡ self.new.una) }
        ensures phase { OnOk result (self.new.phase ≡ self.old.phase) }
    {
        let mut acts = Vec::new(alloc);
        let timeout = RenoIn::Timeout {
            una: self.una,
            flight: self.in_flight(),
            max: self.max,
        };
        self.reno.step(timeout, &mut acts)?;
        self.tries += 1;
        self.round_trip.back_off();
        self.timed = None;
        self.nxt = self.una;
        Ok(())
    }

    /// Sends again from una on: the SYN, the sink's FIN, or data as the windows let it go.
    fn send_again(&mut self, now: Time, out: &mut Vec<Effect>) -> Result<(), NoMemory>
        requires time { now.0 ≤ latest }
        requires fits { Fits self.old }
        requires back { self.old.nxt ≡ self.old.una }
        ensures now { OnOk result (self.new ≡ (sent_again now.0 self.old.phase self.old).now) }
        ensures effects { OnOk result (out.new.items ≡ out.old.items ++ (sent_again now.0 self.old.phase self.old).effects) }
        ensures fits { OnOk result (Fits self.new) }
    {
        match self.phase {
            Phase::SynSent | Phase::SynReceived => self.send(now, true, false, 0, out),
            Phase::LastAck => self.send(now, false, true, 0, out),
            _ => self.pump(now, out),
        }
    }
}
