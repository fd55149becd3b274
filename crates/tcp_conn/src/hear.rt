//! A segment comes (RFC 9293, 3.10.7).

ghost use Rattle.std.specs.Prelude.{◌≡◌, ◌≤◌, ◌<◌, ◌^◌, ◌++◌, ◌∷◌, [], List, length, OnOk};
ghost use Rattle.tcp_conn.specs.Clock.{latest};
ghost use Rattle.tcp_conn.specs.Fits.{Fits, past};
ghost use Rattle.tcp_conn.specs.Step.{agreed_size, answers_syn, dropped, established, hears, hears_reset, in_later_states, in_syn_sent, named_size, reset};

use crate::connection::{Connection, Phase};
use crate::words::{Effect, Heard};
use sim_base::{NoMemory, Time};
use std::alloc::Global;
use tcp_reno::Reno;

impl Connection {
    /// Takes a segment. After `NoMemory` the connection and `out` are given up.
    #[tactic(auto, unfolding(crate::specs::Step::hears))]
    pub fn hears(
        &mut self,
        alloc: Global,
        now: Time,
        heard: &Heard,
        bytes: &[u8],
        out: &mut Vec<Effect>,
    ) -> Result<(), NoMemory>
        requires time { now.0 ≤ latest }
        requires fits { Fits self.old }
        requires bytes { length bytes.now < 2 ^ 32 }
        ensures now { OnOk result (self.new ≡ (hears now.0 heard.now bytes.now self.old).now) }
        ensures effects { OnOk result (out.new.items ≡ out.old.items ++ (hears now.0 heard.now bytes.now self.old).effects) }
        ensures fits { OnOk result (Fits self.new) }
    {
        match self.phase {
            Phase::SynSent => self.in_syn_sent(now, heard, out),
            Phase::Closed => Ok(()),
            _ => self.in_later_states(alloc, now, heard, bytes, out),
        }
    }

    /// In SynSent: a refusal, the other side's SYN with the acknowledgement of its own, or anything else.
    fn in_syn_sent(
        &mut self,
        now: Time,
        heard: &Heard,
        out: &mut Vec<Effect>,
    ) -> Result<(), NoMemory>
        requires time { now.0 ≤ latest }
        requires fits { Fits self.old }
        requires phase { past self.old.phase ≡ 0 }
        ensures now { OnOk result (self.new ≡ (in_syn_sent now.0 heard.now self.old).now) }
        ensures effects { OnOk result (out.new.items ≡ out.old.items ++ (in_syn_sent now.0 heard.now self.old).effects) }
        ensures fits { OnOk result (Fits self.new) }
    {
        if heard.rst && heard.ack == 1 {
            return self.reset(out);
        }
        if !heard.syn || !heard.has_ack || heard.seq != 0 || heard.ack != 1 {
            out.push(Effect::Dropped)?;
            return Ok(());
        }
        self.establish(heard);
        self.acknowledge(out)?;
        self.pump(now, out)?;
        out.push(Effect::Connected)?;
        Ok(())
    }

    /// The opener's side becomes Established, with full segments of the size that both sides can take.
    fn establish(&mut self, heard: &Heard)
        requires fits { Fits self.old }
        requires phase { past self.old.phase ≡ 0 }
        ensures now { self.new ≡ established self.old heard.now }
        ensures fits { Fits self.new }
    {
        let size = named_size(heard.mss).min(self.mss);
        self.reno = Reno::make(size, self.tries > 0);
        self.phase = Phase::Established;
        self.una = 1;
        self.nxt = self.nxt.max(1);
        self.timer = false;
    }

    /// In the states behind SynSent: first RST, then SYN, and then what has an acknowledgement.
    fn in_later_states(
        &mut self,
        alloc: Global,
        now: Time,
        heard: &Heard,
        bytes: &[u8],
        out: &mut Vec<Effect>,
    ) -> Result<(), NoMemory>
        requires time { now.0 ≤ latest }
        requires fits { Fits self.old }
        requires bytes { length bytes.now < 2 ^ 32 }
        ensures now { OnOk result (self.new ≡ (in_later_states now.0 heard.now bytes.now self.old).now) }
        ensures effects { OnOk result (out.new.items ≡ out.old.items ++ (in_later_states now.0 heard.now bytes.now self.old).effects) }
        ensures fits { OnOk result (Fits self.new) }
    {
        if heard.rst {
            return self.hear_reset(heard, out);
        }
        if heard.syn {
            return self.answer_syn(now, out);
        }
        if !heard.has_ack {
            out.push(Effect::Dropped)?;
            return Ok(());
        }
        self.take_ack(alloc, now, heard, bytes, out)?;
        self.take(alloc, now, heard, bytes, out)
    }

    /// A RST counts where it has the next position.
    fn hear_reset(&mut self, heard: &Heard, out: &mut Vec<Effect>) -> Result<(), NoMemory>
        requires { Fits self.old }
        ensures now { OnOk result (self.new ≡ (hears_reset heard.now self.old).now) }
        ensures effects { OnOk result (out.new.items ≡ out.old.items ++ (hears_reset heard.now self.old).effects) }
        ensures fits { OnOk result (Fits self.new) }
    {
        if u64::from(heard.seq) == self.sink.next() {
            return self.reset(out);
        }
        out.push(Effect::Dropped)?;
        Ok(())
    }

    /// The connection is over.
    pub(crate) fn reset(&mut self, out: &mut Vec<Effect>) -> Result<(), NoMemory>
        requires { Fits self.old }
        ensures now { OnOk result (self.new ≡ (reset self.old).now) }
        ensures effects { OnOk result (out.new.items ≡ out.old.items ++ (reset self.old).effects) }
        ensures fits { OnOk result (Fits self.new) }
    {
        self.phase = Phase::Closed;
        self.timer = false;
        out.push(Effect::Reset)?;
        Ok(())
    }

    /// A SYN that comes again is answered.
    fn answer_syn(&mut self, now: Time, out: &mut Vec<Effect>) -> Result<(), NoMemory>
        requires time { now.0 ≤ latest }
        requires fits { Fits self.old }
        ensures now { OnOk result (self.new ≡ (answers_syn now.0 self.old.phase self.old).now) }
        ensures effects { OnOk result (out.new.items ≡ out.old.items ++ (answers_syn now.0 self.old.phase self.old).effects) }
        ensures fits { OnOk result (Fits self.new) }
    {
        match self.phase {
            Phase::SynReceived => self.repeat(now, true, false, 0, out),
            _ => self.acknowledge(out),
        }
    }
}

/// The greatest segment size that the other side takes.
fn named_size(mss: Option<u16>) -> u32
    ensures value { result ≡ named_size mss }
    ensures least { 64 ≤ result }
{
    match mss {
        Some(mss) => u32::from(mss).max(64),
        None => 536,
    }
}
