//! A token bucket: credit for the bytes that leave, which comes back with time.

ghost use Rattle.std.specs.Prelude.{◌≡◌, ◌≤◌, ◌^◌, nat_le};
ghost use Rattle.sim_base.specs.Packet.{longest};
ghost use Rattle.queue_discs.specs.Bucket.{IsBucket, cost, filled, full, paid, wait};

use sim_base::{Rate, Time};

/// A nanosecond brings as many billionths of a bit as the rate has bits per second.
const BILLIONTHS_PER_BYTE: u64 = 8_000_000_000;

/// Credit, in billionths of a bit: what a nanosecond brings, what the bucket holds, and what is in it since the latest time.
#[derive(Clone, Copy, Debug, PartialEq, Eq)]
pub struct Bucket {
    pub rate: u64,
    pub most: u64,
    pub credit: u64,
    pub latest: u64,
}

impl Bucket {
    /// A full bucket.
    pub fn full(rate: Rate, burst: u32) -> Bucket
        requires some_rate { 1 ≤ rate.0 }
        requires rate_in_range { rate.0 ≤ 10 ^ 12 }
        requires burst_in_range { burst ≤ 10 ^ 9 }
        ensures value { result ≡ full rate.0 burst }
        ensures within { IsBucket result }
    {
        let most = BILLIONTHS_PER_BYTE * u64::from(burst);
        Bucket {
            rate: rate.0,
            most,
            credit: most,
            latest: 0,
        }
    }

    /// The bucket at a time, with what the nanoseconds since the latest one have brought, as far as it goes in.
    #[tactic(auto, using(crate::proofs::BucketLaws::brought_small))]
    pub fn filled(&self, now: Time) -> Bucket
        requires within { IsBucket self.now }
        requires time { now.0 ≤ 10 ^ 12 }
        ensures value { result ≡ filled now.0 self.now }
        ensures within { IsBucket result }
    {
        let passed = now.0.saturating_sub(self.latest);
        let brought = u128::from(self.rate) * u128::from(passed);
        let credit = u128::from(self.credit) + brought;
        Bucket {
            rate: self.rate,
            most: self.most,
            credit: credit.min(u128::from(self.most)) as u64,
            latest: self.latest.max(now.0),
        }
    }

    /// Whether there is the credit for so many bytes.
    pub fn has_credit_for(&self, bytes: u32) -> bool
        requires { bytes ≤ longest }
        ensures { result ≡ nat_le (cost bytes) self.now.credit }
    {
        BILLIONTHS_PER_BYTE * u64::from(bytes) <= self.credit
    }

    /// The bucket after so many bytes have left.
    pub fn paid(&self, bytes: u32) -> Bucket
        requires within { IsBucket self.now }
        requires bytes { bytes ≤ longest }
        requires enough { cost bytes ≤ self.now.credit }
        ensures value { result ≡ paid bytes self.now }
        ensures within { IsBucket result }
    {
        Bucket {
            credit: self.credit - BILLIONTHS_PER_BYTE * u64::from(bytes),
            ..*self
        }
    }

    /// How many nanoseconds bring the credit that so many bytes miss.
    #[tactic(auto, using(crate::proofs::BucketLaws::div_ceil_small))]
    pub fn wait(&self, bytes: u32) -> u64
        requires within { IsBucket self.now }
        requires bytes { bytes ≤ longest }
        ensures value { result ≡ wait bytes self.now }
        ensures small { result ≤ cost bytes }
    {
        let missing = (BILLIONTHS_PER_BYTE * u64::from(bytes)).saturating_sub(self.credit);
        missing.div_ceil(self.rate)
    }
}
