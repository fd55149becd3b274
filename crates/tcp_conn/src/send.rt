//! Sending: a segment at nxt, the one at una again, an acknowledgement, and what the windows let go.

ghost use Rattle.std.specs.Prelude.{◌≡◌, ◌≤◌, ◌<◌, ◌+◌, ◌^◌, ◌++◌, List, [], ◌∷◌, OnOk, IfOk, Option, Some, None, if◌then◌else◌, Bool};
ghost use Rattle.tcp_conn.specs.Clock.{latest};
ghost use Rattle.tcp_conn.specs.Fits.{Fits, past};
ghost use Rattle.tcp_conn.specs.Send.{acknowledged, controlled, data_sent, fin_sent, first_size, in_flight, may_send, next_size, one, outgoing, pumped, repeated, resent, room, sends_data, sent, timed_by, timer_at, timer_restarted, timer_started, written_end};

use crate::connection::{Connection, Phase, Timed};
use crate::words::{Effect, Outgoing};
use sim_base::{NoMemory, Time};
use tcp_stream::SEND_BUFFER;

/// How many bytes a connection carries.
const STREAM: u64 = 1 << 30;

impl Connection {
    /// How many bytes can be written.
    pub fn room(&self) -> u64
        requires { Fits self.now }
        ensures { result ≡ room self.now }
    {
        if self.closing {
            return 0;
        }
        let left = (STREAM + 1).saturating_sub(self.written_end());
        left.min(self.buffer.free() as u64)
    }

    /// How many bytes are in flight.
    pub(crate) fn in_flight(&self) -> u64
        ensures { result ≡ in_flight self.now }
    {
        self.nxt.saturating_sub(self.una)
    }

    /// The position behind the last byte written.
    pub(crate) fn written_end(&self) -> u64
        requires { Fits self.now }
        ensures value { result ≡ written_end self.now }
        ensures small { result ≤ 2 ^ 32 + 131072 }
    {
        self.una.max(1) + self.buffer.len() as u64
    }

    /// Starts the timer, where it doesn't run.
    fn start_timer(&mut self, now: Time, out: &mut Vec<Effect>) -> Result<(), NoMemory>
        requires time { now.0 ≤ latest }
        requires fits { Fits self.old }
        ensures now { OnOk result (self.new ≡ (timer_started now.0 self.old).now) }
        ensures fits { OnOk result (Fits self.new) }
        ensures effects { OnOk result (out.new.items ≡ out.old.items ++ (timer_started now.0 self.old).effects) }
    {
        if !self.timer {
            out.push(Effect::TimerAt {
                at: self.timeout(now),
            })?;
        }
        self.timer = true;
        Ok(())
    }

    /// Starts the timer anew, or stops it where nothing is left to be acknowledged.
    pub(crate) fn restart_timer(&mut self, now: Time, out: &mut Vec<Effect>) -> Result<(), NoMemory>
        requires time { now.0 ≤ latest }
        requires fits { Fits self.old }
        ensures now { OnOk result (self.new ≡ (timer_restarted now.0 self.old).now) }
        ensures fits { OnOk result (Fits self.new) }
        ensures effects { OnOk result (out.new.items ≡ out.old.items ++ (timer_restarted now.0 self.old).effects) }
    {
        self.timer = self.una < self.max;
        if self.timer {
            out.push(Effect::TimerAt {
                at: self.timeout(now),
            })?;
        }
        Ok(())
    }

    /// When the timer fires that starts now.
    fn timeout(&self, now: Time) -> Time
        requires { now.0 ≤ latest }
        ensures { result.0 ≡ now.0 + self.now.round_trip.rto }
    {
        Time(now.0 + self.round_trip.rto().0)
    }

    /// A segment from a position on.
    fn outgoing(&self, position: u64, syn: bool, fin: bool, bytes: u64) -> Outgoing
        ensures { result ≡ outgoing self.now position syn fin bytes }
    {
        Outgoing {
            position,
            ack: if syn && self.opener {
                None
            } else {
                Some(self.sink.next())
            },
            syn,
            fin,
            mss: if syn { Some(self.mss) } else { None },
            bytes,
        }
    }

    /// Sends a segment at nxt.
    pub(crate) fn send(
        &mut self,
        now: Time,
        syn: bool,
        fin: bool,
        bytes: u64,
        out: &mut Vec<Effect>,
    ) -> Result<(), NoMemory>
        requires time { now.0 ≤ latest }
        requires order { self.old.una ≤ self.old.nxt }
        requires una { self.old.una < 2 ^ 32 }
        requires max { self.old.max ≤ 2 ^ 33 + past self.old.phase }
        requires end { self.old.nxt + bytes + one syn + one fin ≤ 2 ^ 33 + past self.old.phase }
        requires some { 1 ≤ bytes + one syn + one fin }
        requires least_mss { 64 ≤ self.old.mss }
        requires greatest_mss { self.old.mss ≤ 9000 }
        ensures now { OnOk result (self.new ≡ (sent now.0 syn fin bytes self.old).now) }
        ensures effects { OnOk result (out.new.items ≡ out.old.items ++ (sent now.0 syn fin bytes self.old).effects) }
        ensures fits { OnOk result (Fits self.new) }
    {
        let end = self.nxt + bytes + one(syn) + one(fin);
        out.push(Effect::Emit {
            segment: self.outgoing(self.nxt, syn, fin, bytes),
        })?;
        self.timed = self.timed_by(now, end);
        self.nxt = end;
        self.max = self.max.max(end);
        self.start_timer(now, out)
    }

    /// What is timed once a segment at nxt is sent.
    fn timed_by(&self, now: Time, end: u64) -> Option<Timed>
        ensures { result ≡ timed_by now.0 self.now end }
    {
        if self.nxt < self.max {
            return None;
        }
        self.timed.or(Some(Timed { end, at: now }))
    }

    /// Sends the segment at una again.
    pub(crate) fn repeat(
        &mut self,
        now: Time,
        syn: bool,
        fin: bool,
        bytes: u64,
        out: &mut Vec<Effect>,
    ) -> Result<(), NoMemory>
        requires time { now.0 ≤ latest }
        requires fits { Fits self.old }
        ensures now { OnOk result (self.new ≡ (repeated now.0 syn fin bytes self.old).now) }
        ensures effects { OnOk result (out.new.items ≡ out.old.items ++ (repeated now.0 syn fin bytes self.old).effects) }
        ensures fits { OnOk result (Fits self.new) }
    {
        out.push(Effect::Emit {
            segment: self.outgoing(self.una, syn, fin, bytes),
        })?;
        self.timed = None;
        self.start_timer(now, out)
    }

    /// Sends an acknowledgement alone.
    pub(crate) fn acknowledge(&self, out: &mut Vec<Effect>) -> Result<(), NoMemory>
        ensures effects { OnOk result (out.new.items ≡ out.old.items ++ (acknowledged self.now).effects) }
    {
        out.push(Effect::Emit {
            segment: self.outgoing(self.nxt, false, false, 0),
        })?;
        Ok(())
    }
}

/// SYN and FIN have a position of their own.
fn one(stands: bool) -> u64
    ensures value { result ≡ one stands }
    ensures small { result ≤ 1 }
{
    if stands { 1 } else { 0 }
}
