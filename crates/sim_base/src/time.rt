//! Times and rates.

ghost use Rattle.std.specs.Prelude.{◌≡◌, ◌≤◌, ◌*◌, ◌^◌};
ghost use Rattle.sim_base.specs.Time.{frame_time, IsFrameTime};

/// A count of whole nanoseconds.
#[derive(Clone, Copy, Debug, PartialEq, Eq, PartialOrd, Ord)]
pub struct Time(pub u64);

/// Bits per second.
#[derive(Clone, Copy, Debug, PartialEq, Eq, PartialOrd, Ord)]
pub struct Rate(pub u64);

impl Rate {
    /// How long a frame of `bytes` bytes takes: its bits, divided by the rate, rounded up to a whole
    /// nanosecond.
    pub fn frame_time(self, bytes: u32) -> Time
        requires some_rate { 1 ≤ self.0 }
        requires rate_in_range { self.0 ≤ 10 ^ 12 }
        requires some_bytes { 1 ≤ bytes }
        requires bytes_in_range { bytes ≤ 16777216 }
        ensures value { result.0 ≡ frame_time self.0 bytes }
        ensures least { IsFrameTime self.0 bytes result.0 }
    {
        let nanoseconds_at_one = 8 * u64::from(bytes) * 1_000_000_000;
        Time(nanoseconds_at_one.div_ceil(self.0))
    }
}
