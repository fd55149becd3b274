//! What a segment brings (RFC 9293, 3.10.7.4, seventh and eighth).

ghost use Rattle.std.specs.Prelude.{◌≡◌, ◌≤◌, ◌<◌, ◌+◌, ◌^◌, ◌++◌, length, map, if◌then◌else◌, [], ◌∷◌, OnOk, false};
ghost use Rattle.tcp_conn.specs.Clock.{latest};
ghost use Rattle.tcp_stream.specs.History.{delivery};
ghost use Rattle.tcp_stream.specs.History.Told.{End as Ended};
ghost use Rattle.tcp_stream.specs.Tells.{told_of};
ghost use Rattle.tcp_conn.specs.Fits.{Fits, past};
ghost use Rattle.tcp_conn.specs.Step.{answered, effect_of, ended, opener_takes, received, sink_takes, taken_in, takes};

use crate::connection::{Connection, Phase};
use crate::words::{Effect, Heard};
use sim_base::{NoMemory, Sequence, Time};
use std::alloc::Global;
use tcp_stream::Received;

impl Connection {
    /// Takes the data and the FIN of a segment.
    #[tactic(auto, unfolding(crate::specs::Step::takes))]
    pub(crate) fn take(
        &mut self,
        alloc: Global,
        now: Time,
        heard: &Heard,
        bytes: &[u8],
        out: &mut Vec<Effect>,
    ) -> Result<(), NoMemory>
        requires time { now.0 ≤ latest }
        requires fits { Fits self.old }
        requires bytes { length bytes.now < 2 ^ 32 }
        ensures now { OnOk result (self.new ≡ (takes now.0 heard.now bytes.now self.old).now) }
        ensures effects { OnOk result (out.new.items ≡ out.old.items ++ (takes now.0 heard.now bytes.now self.old).effects) }
        ensures fits { OnOk result (Fits self.new) }
    {
        if self.opener {
            return self.opener_takes(heard, out);
        }
        if bytes.is_empty() && !heard.fin {
            return Ok(());
        }
        self.sink_takes(alloc, now, heard, bytes, out)
    }

    /// The opener passes data over, and the sink's FIN ends its work.
    fn opener_takes(&mut self, heard: &Heard, out: &mut Vec<Effect>) -> Result<(), NoMemory>
        requires { Fits self.old }
        ensures now { OnOk result (self.new ≡ (opener_takes heard.now self.old).now) }
        ensures effects { OnOk result (out.new.items ≡ out.old.items ++ (opener_takes heard.now self.old).effects) }
        ensures fits { OnOk result (Fits self.new) }
    {
        if !heard.fin {
            return Ok(());
        }
        match self.phase {
            Phase::FinWait2 if u64::from(heard.seq) == self.sink.next() => self.end(out),
            Phase::TimeWait => self.acknowledge(out),
            _ => Ok(()),
        }
    }

    /// The sink's FIN has come.
    fn end(&mut self, out: &mut Vec<Effect>) -> Result<(), NoMemory>
        requires { Fits self.old }
        ensures now { OnOk result (self.new ≡ (ended self.old).now) }
        ensures effects { OnOk result (out.new.items ≡ out.old.items ++ (ended self.old).effects) }
        ensures fits { OnOk result (Fits self.new) }
    {
        self.phase = Phase::TimeWait;
        if !self.sink.has_ended() {
            self.sink.pass_fin();
        }
        self.acknowledge(out)
    }

    /// The sink takes data and FIN in, in Established, and answers them.
    fn sink_takes(
        &mut self,
        alloc: Global,
        now: Time,
        heard: &Heard,
        bytes: &[u8],
        out: &mut Vec<Effect>,
    ) -> Result<(), NoMemory>
        requires time { now.0 ≤ latest }
        requires fits { Fits self.old }
        requires bytes { length bytes.now < 2 ^ 32 }
        ensures now { OnOk result (self.new ≡ (sink_takes now.0 heard.now bytes.now self.old.phase self.old).now) }
        ensures effects { OnOk result (out.new.items ≡ out.old.items ++ (sink_takes now.0 heard.now bytes.now self.old.phase self.old).effects) }
        ensures fits { OnOk result (Fits self.new) }
    {
        match self.phase {
            Phase::Established => self.take_in(alloc, now, heard, bytes, out),
            Phase::LastAck => self.acknowledge(out),
            _ => Ok(()),
        }
    }

    fn take_in(
        &mut self,
        alloc: Global,
        now: Time,
        heard: &Heard,
        bytes: &[u8],
        out: &mut Vec<Effect>,
    ) -> Result<(), NoMemory>
        requires time { now.0 ≤ latest }
        requires fits { Fits self.old }
        requires bytes { length bytes.now < 2 ^ 32 }
        requires phase { past self.old.phase ≡ 0 }
        ensures now { OnOk result (self.new ≡ (taken_in now.0 heard.now bytes.now self.old).now) }
        ensures effects { OnOk result (out.new.items ≡ out.old.items ++ (taken_in now.0 heard.now bytes.now self.old).effects) }
        ensures fits { OnOk result (Fits self.new) }
    {
        if self.sink.has_ended() {
            return self.acknowledge(out);
        }
        self.receive(alloc, heard, bytes, out)?;
        self.answer(now, out)
    }

    /// Delivers what is in order now, and the end.
    fn receive(
        &mut self,
        alloc: Global,
        heard: &Heard,
        bytes: &[u8],
        out: &mut Vec<Effect>,
    ) -> Result<(), NoMemory>
        requires fits { Fits self.old }
        requires running { self.old.sink.ended ≡ false }
        requires bytes { length bytes.now < 2 ^ 32 }
        ensures now { OnOk result (self.new ≡ (received heard.now bytes.now self.old).now) }
        ensures effects { OnOk result (out.new.items ≡ out.old.items ++ (received heard.now bytes.now self.old).effects) }
        ensures fits { OnOk result (Fits self.new) }
        ensures phase { OnOk result (self.new.phase ≡ self.old.phase) }
    {
        let seq = u64::from(heard.seq);
        let received = self.sink.receive(alloc, seq, heard.fin, bytes)?;
        tell(received, out)?;
        Ok(())
    }

    /// Acknowledges, by the FIN where the end has come.
    fn answer(&mut self, now: Time, out: &mut Vec<Effect>) -> Result<(), NoMemory>
        requires time { now.0 ≤ latest }
        requires fits { Fits self.old }
        requires phase { past self.old.phase ≡ 0 }
        ensures now { OnOk result (self.new ≡ (answered now.0 self.old).now) }
        ensures effects { OnOk result (out.new.items ≡ out.old.items ++ (answered now.0 self.old).effects) }
        ensures fits { OnOk result (Fits self.new) }
    {
        if !self.sink.has_ended() {
            return self.acknowledge(out);
        }
        self.phase = Phase::LastAck;
        self.send(now, false, true, 0, out)
    }
}

/// The application is given what came in order, and told of the end.
fn tell(received: Received, out: &mut Vec<Effect>) -> Result<(), NoMemory>
    ensures { OnOk result (out.new.items ≡ out.old.items ++ map effect_of (told_of received)) }
{
    let Received { bytes, end } = received;
    deliver(bytes, out)?;
    tell_end(end, out)?;
    Ok(())
}

/// Bytes in order go to the application, if there are any.
fn deliver(bytes: Vec<u8>, out: &mut Vec<Effect>) -> Result<(), NoMemory>
    ensures { OnOk result (out.new.items ≡ out.old.items ++ map effect_of (delivery bytes.items)) }
{
    if bytes.is_empty() {
        return Ok(());
    }
    out.push(Effect::Deliver {
        bytes: Sequence::from_vec(bytes),
    })?;
    Ok(())
}

/// The application is told of the end, where it has come.
fn tell_end(end: bool, out: &mut Vec<Effect>) -> Result<(), NoMemory>
    ensures { OnOk result (out.new.items ≡ out.old.items ++ map effect_of (if end then Ended ∷ [] else [])) }
{
    if end {
        out.push(Effect::End)?;
    }
    Ok(())
}
