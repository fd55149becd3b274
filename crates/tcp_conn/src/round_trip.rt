//! How long a connection waits for an acknowledgement before it sends again (RFC 6298).

ghost use Rattle.std.specs.Prelude.{◌≡◌, ◌≤◌, ◌*◌, ◌^◌};
ghost use Rattle.tcp_conn.specs.Clock.{latest};
ghost use Rattle.tcp_conn.specs.RoundTrip.{backed_off, timeout_of, unsampled, with_sample};

use sim_base::Time;
use std::marker::Model;

const MILLISECOND: u64 = 1_000_000;

const SECOND: u64 = 1_000_000_000;

/// The round-trip estimator and the retransmission timeout, in nanoseconds.
#[derive(Debug, Drop)]
pub struct RoundTrip {
    srtt: u64,
    rttvar: u64,
    rto: u64,
    sampled: bool,
}

impl Model for RoundTrip {
    ghost use Rattle.tcp_conn.specs.Clock.{latest};
    ghost use Rattle.std.specs.Prelude.{◌≤◌, ◌*◌, ◌^◌};
    ghost use Rattle.tcp_conn.specs.RoundTrip.{Estimate};

    ghost Value = { Estimate };

    ghost view = { λ t. record { srtt = t.srtt; rttvar = t.rttvar; rto = t.rto; sampled = t.sampled } };

    ghost invariant = { λ t. (t.srtt ≤ latest) × (t.rttvar ≤ latest) × (10 ^ 9 ≤ t.rto) × (t.rto ≤ 60 * 10 ^ 9) };
}

impl RoundTrip {
    /// No sample was taken yet: one second.
    pub fn new() -> RoundTrip
        ensures { result ≡ unsampled }
    {
        RoundTrip {
            srtt: 0,
            rttvar: 0,
            rto: SECOND,
            sampled: false,
        }
    }

    /// How long to wait, from one second to sixty.
    pub fn rto(&self) -> Time
        ensures value { result.0 ≡ self.now.rto }
        ensures least { 10 ^ 9 ≤ result.0 }
        ensures greatest { result.0 ≤ 60 * 10 ^ 9 }
    {
        Time(self.rto)
    }

    /// The smoothed round-trip time, 0 before any sample.
    pub fn srtt(&self) -> Time
        ensures { result.0 ≡ self.now.srtt }
    {
        Time(self.srtt)
    }

    /// The variation of the round-trip time, 0 before any sample.
    pub fn rttvar(&self) -> Time
        ensures { result.0 ≡ self.now.rttvar }
    {
        Time(self.rttvar)
    }

    /// Takes the time from a segment to its acknowledgement.
    pub fn sample(&mut self, took: Time)
        requires { took.0 ≤ latest }
        ensures { self.new ≡ with_sample took.0 self.old }
    {
        let r = took.0;
        if self.sampled {
            self.rttvar = (3 * self.rttvar + self.srtt.abs_diff(r)) / 4;
            self.srtt = (7 * self.srtt + r) / 8;
        } else {
            self.rttvar = r / 2;
            self.srtt = r;
        }
        self.rto = timeout_of(self.srtt, self.rttvar);
        self.sampled = true;
    }

    /// Waits twice as long after a timeout, a minute at most.
    pub fn back_off(&mut self)
        ensures { self.new ≡ backed_off self.old }
    {
        self.rto = (2 * self.rto).min(60 * SECOND);
    }
}

fn timeout_of(srtt: u64, rttvar: u64) -> u64
    requires srtt_small { srtt ≤ latest }
    requires rttvar_small { rttvar ≤ latest }
    ensures value { result ≡ timeout_of srtt rttvar }
    ensures least { 10 ^ 9 ≤ result }
    ensures greatest { result ≤ 60 * 10 ^ 9 }
{
    let waits = srtt + MILLISECOND.max(4 * rttvar);
    waits.max(SECOND).min(60 * SECOND)
}
