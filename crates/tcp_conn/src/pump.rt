//! What the windows let a connection send, and what congestion control sends again.

ghost use Rattle.std.specs.Prelude.{◌≡◌, ◌≤◌, ◌<◌, ◌+◌, ◌-◌, ◌^◌, ◌++◌, true, OnOk};
ghost use Rattle.tcp_conn.specs.Clock.{latest};
ghost use Rattle.tcp_conn.specs.Fits.{Fits, past};
ghost use Rattle.tcp_conn.specs.Send.{controlled, data_sent, fin_sent, first_size, may_send, next_size, pumped, resent, sends_data, written_end};

use crate::connection::{Connection, Phase};
use crate::words::Effect;
use sim_base::{NoMemory, Time};
use std::alloc::Global;
use tcp_reno::RenoIn;

impl Connection {
    /// Sends all that may be sent now.
    pub(crate) fn pump(&mut self, now: Time, out: &mut Vec<Effect>) -> Result<(), NoMemory>
        requires time { now.0 ≤ latest }
        requires fits { Fits self.old }
        ensures now { OnOk result (self.new ≡ (pumped now.0 self.old).now) }
        ensures effects { OnOk result (out.new.items ≡ out.old.items ++ (pumped now.0 self.old).effects) }
        ensures fits { OnOk result (Fits self.new) }
    {
        if !self.opener || !self.sends_data() {
            return Ok(());
        }
        self.send_data(now, out)?;
        self.send_fin(now, out)
    }

    /// Sends segments of data while the windows let them go.
    fn send_data(&mut self, now: Time, out: &mut Vec<Effect>) -> Result<(), NoMemory>
        requires time { now.0 ≤ latest }
        requires fits { Fits self.old }
        ensures now { OnOk result (self.new ≡ (data_sent now.0 (written_end self.old - self.old.nxt) self.old).now) }
        ensures effects { OnOk result (out.new.items ≡ out.old.items ++ (data_sent now.0 (written_end self.old - self.old.nxt) self.old).effects) }
        ensures phase { OnOk result (self.new.phase ≡ self.old.phase) }
        ensures fits { OnOk result (Fits self.new) }
    {
        'segments: while self.may_send() {
            let n = self.next_size();
            self.send(now, false, false, n, out)?;
        }
        Ok(())
    }

    /// Sends the FIN behind all data, after a close.
    fn send_fin(&mut self, now: Time, out: &mut Vec<Effect>) -> Result<(), NoMemory>
        requires time { now.0 ≤ latest }
        requires fits { Fits self.old }
        requires phase { past self.old.phase ≡ 0 }
        ensures now { OnOk result (self.new ≡ (fin_sent now.0 self.old).now) }
        ensures effects { OnOk result (out.new.items ≡ out.old.items ++ (fin_sent now.0 self.old).effects) }
        ensures fits { OnOk result (Fits self.new) }
    {
        if !self.closing || self.nxt != self.written_end() {
            return Ok(());
        }
        self.phase = Phase::FinWait1;
        self.send(now, false, true, 0, out)
    }

    /// Tells congestion control of something, and sends again what it asks for.
    pub(crate) fn control(
        &mut self,
        alloc: Global,
        now: Time,
        input: RenoIn,
        out: &mut Vec<Effect>,
    ) -> Result<(), NoMemory>
        requires time { now.0 ≤ latest }
        requires fits { Fits self.old }
        ensures now { OnOk result (self.new ≡ (controlled now.0 input self.old).now) }
        ensures effects { OnOk result (out.new.items ≡ out.old.items ++ (controlled now.0 input self.old).effects) }
        ensures fits { OnOk result (Fits self.new) }
    {
        let mut acts = Vec::new(alloc);
        self.reno.step(input, &mut acts)?;
        if acts.is_empty() {
            return Ok(());
        }
        self.resend(now, out)
    }

    /// Sends again what is first of what isn't acknowledged, if there is anything.
    fn resend(&mut self, now: Time, out: &mut Vec<Effect>) -> Result<(), NoMemory>
        requires time { now.0 ≤ latest }
        requires fits { Fits self.old }
        ensures now { OnOk result (self.new ≡ (resent now.0 self.old).now) }
        ensures effects { OnOk result (out.new.items ≡ out.old.items ++ (resent now.0 self.old).effects) }
        ensures fits { OnOk result (Fits self.new) }
    {
        if self.una >= self.max {
            return Ok(());
        }
        if self.una == 0 {
            return self.repeat(now, true, false, 0, out);
        }
        let n = self.first_size();
        self.repeat(now, false, n == 0, n, out)
    }

    /// Whether data is sent in this state.
    pub(crate) fn sends_data(&self) -> bool
        ensures value { result ≡ sends_data self.now.phase }
        ensures not_past { result ≡ true → past self.now.phase ≡ 0 }
    {
        match self.phase {
            Phase::Established | Phase::FinWait1 => true,
            _ => false,
        }
    }

    /// How many bytes the next segment carries.
    fn next_size(&self) -> u64
        requires { Fits self.now }
        ensures value { result ≡ next_size self.now }
        ensures small { result ≤ 9000 }
        ensures inside { 0 < result → self.now.nxt + result ≤ 2 ^ 33 }
    {
        let left = self.written_end().saturating_sub(self.nxt);
        self.reno.smss().min(left)
    }

    /// How many bytes the first segment carries of what was sent and isn't acknowledged.
    fn first_size(&self) -> u64
        requires { Fits self.now }
        ensures { result ≡ first_size self.now }
    {
        let end = self.max.min(self.written_end());
        self.reno.smss().min(end.saturating_sub(self.una))
    }

    /// Whether the windows let the next segment go, if there is one.
    fn may_send(&self) -> bool
        requires { Fits self.now }
        ensures { result ≡ may_send self.now }
    {
        let n = self.next_size();
        let window = self.reno.cwnd().min(self.peer_window);
        n > 0 && self.in_flight() + n <= window
    }
}
