//! What a segment acknowledges (RFC 9293, 3.10.7.4, fifth).

ghost use Rattle.std.specs.Prelude.{◌≡◌, ◌≤◌, ◌<◌, ◌-◌, ◌^◌, ◌++◌, length, OnOk};
ghost use Rattle.tcp_conn.specs.Clock.{latest};
ghost use Rattle.tcp_conn.specs.Fits.{Fits, past};
ghost use Rattle.tcp_conn.specs.Step.{acked_phase, acks, advanced, counted_ack, dup_ack, goes_on, is_duplicate, moved_on, new_ack, sampled, settled};

use crate::connection::{Connection, Phase};
use crate::words::{Effect, Heard};
use sim_base::{NoMemory, Time};
use std::alloc::Global;
use tcp_reno::RenoIn;

impl Connection {
    /// Takes the acknowledgement of a segment, and its window.
    #[tactic(auto, unfolding(crate::specs::Step::acks))]
    pub(crate) fn take_ack(
        &mut self,
        alloc: Global,
        now: Time,
        heard: &Heard,
        bytes: &[u8],
        out: &mut Vec<Effect>,
    ) -> Result<(), NoMemory>
        requires time { now.0 ≤ latest }
        requires fits { Fits self.old }
        ensures now { OnOk result (self.new ≡ (acks now.0 heard.now bytes.now self.old).now) }
        ensures effects { OnOk result (out.new.items ≡ out.old.items ++ (acks now.0 heard.now bytes.now self.old).effects) }
        ensures fits { OnOk result (Fits self.new) }
    {
        let ack = u64::from(heard.ack);
        if ack < self.una || ack > self.max {
            return Ok(());
        }
        self.count_ack(alloc, now, heard, bytes, out)?;
        self.peer_window = u64::from(heard.window);
        Ok(())
    }

    /// An acknowledgement of more, or one that comes again.
    #[tactic(auto, unfolding(crate::specs::Step::counted_ack))]
    fn count_ack(
        &mut self,
        alloc: Global,
        now: Time,
        heard: &Heard,
        bytes: &[u8],
        out: &mut Vec<Effect>,
    ) -> Result<(), NoMemory>
        requires time { now.0 ≤ latest }
        requires fits { Fits self.old }
        requires known { self.old.una ≤ heard.now.ack }
        requires sent { heard.now.ack ≤ self.old.max }
        ensures now { OnOk result (self.new ≡ (counted_ack now.0 heard.now bytes.now self.old).now) }
        ensures effects { OnOk result (out.new.items ≡ out.old.items ++ (counted_ack now.0 heard.now bytes.now self.old).effects) }
        ensures fits { OnOk result (Fits self.new) }
    {
        let ack = u64::from(heard.ack);
        if ack > self.una {
            self.new_ack(alloc, now, ack, out)?;
            return Ok(());
        }
        if self.is_duplicate(heard, bytes) {
            return self.dup_ack(alloc, now, ack, out);
        }
        Ok(())
    }

    /// More is acknowledged: it is given up, and more may be sent then.
    #[tactic(auto, unfolding(crate::specs::Step::new_ack))]
    fn new_ack(
        &mut self,
        alloc: Global,
        now: Time,
        ack: u64,
        out: &mut Vec<Effect>,
    ) -> Result<(), NoMemory>
        requires time { now.0 ≤ latest }
        requires fits { Fits self.old }
        requires ack { ack < 2 ^ 32 }
        requires more { self.old.una ≤ ack }
        requires sent { ack ≤ self.old.max }
        ensures now { OnOk result (self.new ≡ (new_ack now.0 ack self.old).now) }
        ensures effects { OnOk result (out.new.items ≡ out.old.items ++ (new_ack now.0 ack self.old).effects) }
        ensures fits { OnOk result (Fits self.new) }
    {
        let acked = ack.saturating_sub(self.una);
        self.settle(now, ack, out)?;
        self.go_on(alloc, now, ack, acked, out)?;
        Ok(())
    }

    /// Gives up what is acknowledged: with a sample, and the state and the timer that follow.
    #[tactic(auto, unfolding(crate::specs::Step::settled))]
    fn settle(&mut self, now: Time, ack: u64, out: &mut Vec<Effect>) -> Result<(), NoMemory>
        requires time { now.0 ≤ latest }
        requires fits { Fits self.old }
        requires ack { ack < 2 ^ 32 }
        requires more { self.old.una ≤ ack }
        requires sent { ack ≤ self.old.max }
        ensures now { OnOk result (self.new ≡ (settled now.0 ack self.old).now) }
        ensures effects { OnOk result (out.new.items ≡ out.old.items ++ (settled now.0 ack self.old).effects) }
        ensures fits { OnOk result (Fits self.new) }
    {
        self.sample(now, ack);
        self.advance(ack);
        self.move_on(ack);
        self.restart_timer(now, out)?;
        Ok(())
    }

    /// A timed segment that is covered gives a sample.
    fn sample(&mut self, now: Time, ack: u64)
        requires time { now.0 ≤ latest }
        requires fits { Fits self.old }
        ensures now { self.new ≡ sampled now.0 ack self.old.timed self.old }
        ensures fits { Fits self.new }
        ensures una { self.new.una ≡ self.old.una }
        ensures max { self.new.max ≡ self.old.max }
    {
        let Some(timed) = self.timed else { return };
        if timed.end <= ack {
            let took = now.0.saturating_sub(timed.at.0);
            self.round_trip.sample(Time(took));
            self.timed = None;
        }
    }

    /// What is acknowledged is given up.
    fn advance(&mut self, ack: u64)
        requires fits { Fits self.old }
        requires ack { ack < 2 ^ 32 }
        requires more { self.old.una ≤ ack }
        requires sent { ack ≤ self.old.max }
        ensures now { self.new ≡ advanced ack self.old }
        ensures fits { Fits self.new }
    {
        self.buffer.acknowledge(ack.saturating_sub(self.una));
        self.una = ack;
        self.nxt = self.nxt.max(ack);
        self.tries = 0;
    }

    fn move_on(&mut self, ack: u64)
        requires { Fits self.old }
        ensures now { self.new ≡ moved_on ack self.old }
        ensures fits { Fits self.new }
    {
        self.phase = acked_phase(ack == self.max, self.phase);
    }

    /// Where data is sent: congestion control, what may be sent now, and room.
    #[tactic(auto, unfolding(crate::specs::Step::goes_on))]
    fn go_on(
        &mut self,
        alloc: Global,
        now: Time,
        ack: u64,
        acked: u64,
        out: &mut Vec<Effect>,
    ) -> Result<(), NoMemory>
        requires time { now.0 ≤ latest }
        requires fits { Fits self.old }
        ensures now { OnOk result (self.new ≡ (goes_on now.0 ack acked self.old).now) }
        ensures effects { OnOk result (out.new.items ≡ out.old.items ++ (goes_on now.0 ack acked self.old).effects) }
        ensures fits { OnOk result (Fits self.new) }
    {
        if !self.sends_data() {
            return Ok(());
        }
        let flight = self.in_flight();
        self.control(alloc, now, RenoIn::NewAck { ack, acked, flight }, out)?;
        self.pump(now, out)?;
        let free = self.room();
        out.push(Effect::Room { free })?;
        Ok(())
    }

    /// An acknowledgement of what is acknowledged already, while something is in flight, that says nothing else.
    fn is_duplicate(&self, heard: &Heard, bytes: &[u8]) -> bool
        ensures { result ≡ is_duplicate heard.now bytes.now self.now }
    {
        u64::from(heard.ack) == self.una
            && self.una < self.nxt
            && bytes.is_empty()
            && !heard.fin
            && u64::from(heard.window) == self.peer_window
    }

    fn dup_ack(
        &mut self,
        alloc: Global,
        now: Time,
        ack: u64,
        out: &mut Vec<Effect>,
    ) -> Result<(), NoMemory>
        requires time { now.0 ≤ latest }
        requires fits { Fits self.old }
        ensures now { OnOk result (self.new ≡ (dup_ack now.0 ack self.old).now) }
        ensures effects { OnOk result (out.new.items ≡ out.old.items ++ (dup_ack now.0 ack self.old).effects) }
        ensures fits { OnOk result (Fits self.new) }
    {
        let flight = self.in_flight();
        let max = self.max;
        self.control(alloc, now, RenoIn::DupAck { ack, flight, max }, out)?;
        self.pump(now, out)
    }
}

/// What a state becomes when more of what was sent is acknowledged, or all.
fn acked_phase(all: bool, phase: Phase) -> Phase
    ensures value { result ≡ acked_phase all phase }
    ensures past { past phase ≤ past result }
{
    match phase {
        Phase::SynReceived => Phase::Established,
        Phase::FinWait1 => {
            if all {
                Phase::FinWait2
            } else {
                Phase::FinWait1
            }
        }
        Phase::LastAck => Phase::Closed,
        other => other,
    }
}
