//! The state of NewReno, and its step.

ghost use Rattle.std.specs.Prelude.{◌≡◌, ◌≤◌, ◌<◌, ◌+◌, ◌*◌, ◌^◌, ◌++◌, ◌∷◌, List, [], min, max, OnOk, if◌then◌else◌};
ghost use Rattle.tcp_reno.specs.NewReno.{start, initial_window};
ghost use Rattle.tcp_reno.specs.Step.{half_flight, growth, is_at, step};

use crate::{RenoAct, RenoIn};
use sim_base::NoMemory;
use std::marker::Model;

/// The congestion window is never wider.
const WIDEST: u64 = 1 << 30;

/// The congestion control of one connection.
#[derive(Debug, Drop)]
pub struct Reno {
    smss: u64,
    cwnd: u64,
    ssthresh: u64,
    dup: u32,
    recover: u64,
    recovering: bool,
    timed_out: Option<u64>,
}

impl Model for Reno {
    ghost use Rattle.std.specs.Prelude.{◌≤◌, ◌^◌};
    ghost use Rattle.tcp_reno.specs.NewReno.{NewReno};

    ghost Value = { NewReno };

    ghost view = { λ r. record {
      smss = r.smss;
      cwnd = r.cwnd;
      ssthresh = r.ssthresh;
      dup = r.dup;
      recover = r.recover;
      recovering = r.recovering;
      timed_out = r.timed_out;
    } };

    ghost invariant = { λ r. (64 ≤ r.smss) × (r.smss ≤ 9000) × (r.smss ≤ r.cwnd) × (r.cwnd ≤ 2 ^ 30) };
}

impl Reno {
    /// The start of a connection with full segments of `mss` bytes; `repeated` where its SYN was sent more than once.
    pub fn make(mss: u32, repeated: bool) -> Reno
        requires least { 64 ≤ mss }
        requires greatest { mss ≤ 9000 }
        ensures { result ≡ start mss repeated }
    {
        let smss = u64::from(mss);
        Reno {
            smss,
            cwnd: initial_window(smss, repeated),
            ssthresh: 65535,
            dup: 0,
            recover: 0,
            recovering: false,
            timed_out: None,
        }
    }

    /// How many bytes may be in flight.
    pub fn cwnd(&self) -> u64
        ensures value { result ≡ self.now.cwnd }
        ensures full_segment { self.now.smss ≤ result }
        ensures limit { result ≤ 2 ^ 30 }
    {
        self.cwnd
    }

    /// The size of a full segment.
    pub fn smss(&self) -> u64
        ensures value { result ≡ self.now.smss }
        ensures least { 64 ≤ result }
        ensures greatest { result ≤ 9000 }
    {
        self.smss
    }

    /// Where slow start ends.
    pub fn ssthresh(&self) -> u64
        ensures { result ≡ self.now.ssthresh }
    {
        self.ssthresh
    }

    /// The highest position that was sent when the last loss was noticed.
    pub fn recover(&self) -> u64
        ensures { result ≡ self.now.recover }
    {
        self.recover
    }

    /// Whether fast recovery goes on.
    pub fn is_recovering(&self) -> bool
        ensures { result ≡ self.now.recovering }
    {
        self.recovering
    }

    /// Takes an input and puts what it asks for behind `out`. After `NoMemory` both are given up.
    pub fn step(&mut self, input: RenoIn, out: &mut Vec<RenoAct>) -> Result<(), NoMemory>
        ensures state { OnOk result (self.new ≡ (step self.old input).state) }
        ensures acts { OnOk result (out.new.items ≡ out.old.items ++ (step self.old input).acts) }
    {
        match input {
            RenoIn::NewAck { ack, acked, flight } => self.new_ack(ack, acked, flight, out),
            RenoIn::DupAck { ack, flight, max } => self.dup_ack(ack, flight, max, out),
            RenoIn::Timeout { una, flight, max } => {
                self.timeout(una, flight, max);
                Ok(())
            }
        }
    }

    fn new_ack(
        &mut self,
        ack: u64,
        acked: u64,
        flight: u64,
        out: &mut Vec<RenoAct>,
    ) -> Result<(), NoMemory>
        ensures state { OnOk result (self.new ≡ (step self.old (RenoIn.NewAck ack acked flight)).state) }
        ensures acts { OnOk result (out.new.items ≡ out.old.items ++ (step self.old (RenoIn.NewAck ack acked flight)).acts) }
    {
        if !self.recovering {
            self.cwnd = held(self.smss, self.cwnd + self.growth(acked));
            self.dup = 0;
            return Ok(());
        }
        if ack >= self.recover {
            let flight = flight.max(self.smss).saturating_add(self.smss);
            self.cwnd = held(self.smss, self.ssthresh.min(flight));
            self.dup = 0;
            self.recovering = false;
            return Ok(());
        }
        let added = if self.smss <= acked { self.smss } else { 0 };
        self.cwnd = held(self.smss, self.cwnd.saturating_sub(acked) + added);
        out.push(RenoAct::Resend)?;
        Ok(())
    }

    fn dup_ack(
        &mut self,
        ack: u64,
        flight: u64,
        max: u64,
        out: &mut Vec<RenoAct>,
    ) -> Result<(), NoMemory>
        ensures state { OnOk result (self.new ≡ (step self.old (RenoIn.DupAck ack flight max)).state) }
        ensures acts { OnOk result (out.new.items ≡ out.old.items ++ (step self.old (RenoIn.DupAck ack flight max)).acts) }
    {
        if self.recovering {
            self.cwnd = held(self.smss, self.cwnd + self.smss);
            return Ok(());
        }
        self.dup = self.dup.saturating_add(1);
        if self.dup != 3 || ack <= self.recover {
            return Ok(());
        }
        self.ssthresh = self.half_flight(flight);
        self.recover = max;
        self.cwnd = held(self.smss, self.ssthresh + 3 * self.smss);
        self.recovering = true;
        out.push(RenoAct::Resend)?;
        Ok(())
    }

    fn timeout(&mut self, una: u64, flight: u64, max: u64)
        ensures { self.new ≡ (step self.old (RenoIn.Timeout una flight max)).state }
    {
        if !is_at(self.timed_out, una) {
            self.ssthresh = self.half_flight(flight);
        }
        self.cwnd = self.smss;
        self.recover = max;
        self.dup = 0;
        self.recovering = false;
        self.timed_out = Some(una);
    }

    /// Half of what is in flight, at least two full segments.
    fn half_flight(&self, flight: u64) -> u64
        ensures value { result ≡ half_flight self.now flight }
        ensures small { result < 2 ^ 63 }
    {
        (flight / 2).max(2 * self.smss)
    }

    /// By how much an acknowledgement of new data widens the window outside of recovery.
    fn growth(&self, acked: u64) -> u64
        ensures value { result ≡ growth self.now acked }
        ensures small { result ≤ 10 ^ 8 }
    {
        if self.cwnd < self.ssthresh {
            acked.min(self.smss)
        } else {
            (self.smss * self.smss / self.cwnd).max(1)
        }
    }
}

/// The initial window.
fn initial_window(smss: u64, repeated: bool) -> u64
    requires { smss ≤ 9000 }
    ensures { result ≡ initial_window smss repeated }
{
    if repeated {
        smss
    } else if smss <= 1095 {
        4 * smss
    } else if smss <= 2190 {
        3 * smss
    } else {
        2 * smss
    }
}

/// The window, held within its bounds.
fn held(smss: u64, cwnd: u64) -> u64
    ensures { result ≡ max (min cwnd (2 ^ 30)) smss }
{
    cwnd.min(WIDEST).max(smss)
}

fn is_at(timed_out: Option<u64>, una: u64) -> bool
    ensures { result ≡ is_at timed_out una }
{
    match timed_out {
        Some(at) => at == una,
        None => false,
    }
}
