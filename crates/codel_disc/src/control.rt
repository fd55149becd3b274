//! What CoDel knows of a queue beside its frames.

ghost use Rattle.std.specs.Prelude.{◌≡◌, ◌≤◌, ◌^◌};
ghost use Rattle.codel_disc.specs.Control as control;

use crate::pace::step;
use sim_base::Time;

/// A wait that is short enough, in nanoseconds.
const TARGET: u64 = 5_000_000;

/// How long waits may be too long before a frame is dropped, in nanoseconds.
const INTERVAL: u64 = 100_000_000;

/// The length of the longest frame of a link. So many bytes may always wait.
pub(crate) const LONGEST_FRAME: u64 = 1518;

/// What CoDel knows of a queue beside its frames: the state of RFC 8289, section 5.
#[derive(Clone, Copy, Debug, PartialEq, Eq)]
pub struct Control {
    /// While waits are too long: from when on frames are late (`first_above_time_`).
    pub above: Option<Time>,
    /// When the next frame is to be dropped, while frames are being dropped (`drop_next_`).
    pub due: Time,
    /// How many frames were dropped since dropping began, and those that it went on from (`count_`).
    pub count: u32,
    /// The count with which dropping began last (`lastcount_`).
    pub last: u32,
    /// Whether frames are being dropped.
    pub dropping: bool,
}

impl Control {
    /// Nothing has waited yet.
    pub(crate) const IDLE: Control = Control {
        above: None,
        due: Time(0),
        count: 0,
        last: 0,
        dropping: false,
    };

    /// Whether a frame that was offered at `since` is late now, where `behind` bytes wait behind it.
    pub(crate) fn is_late(&self, now: Time, since: Time, behind: u64) -> bool
        ensures { result ≡ control.is_late now.0 since.0 behind self.now }
    {
        let reached = match self.above {
            Some(at) => at.0 <= now.0,
            None => false,
        };
        is_long(now, since, behind) && reached
    }

    /// What is known after a look at a frame.
    pub(crate) fn looked(self, now: Time, since: Time, behind: u64) -> Control
        requires { now.0 ≤ 2 ^ 60 }
        ensures { result ≡ control.looked now.0 since.0 behind self }
    {
        let above = if is_long(now, since, behind) {
            self.above.or(Some(Time(now.0 + INTERVAL)))
        } else {
            None
        };
        Control { above, ..self }
    }

    /// A look found no frame.
    pub(crate) fn emptied(self) -> Control
        ensures { result ≡ control.emptied self }
    {
        Control {
            above: None,
            ..self
        }
    }

    /// One more frame was dropped.
    pub(crate) fn counted(self) -> Control
        ensures { result ≡ control.counted self }
    {
        Control {
            count: self.count.saturating_add(1),
            ..self
        }
    }

    /// The next drop is a step later.
    pub(crate) fn postponed(self) -> Control
        requires some { 1 ≤ self.count }
        requires time { self.due.0 ≤ 2 ^ 60 }
        ensures { result ≡ control.postponed self }
    {
        Control {
            due: Time(self.due.0 + step(self.count)),
            ..self
        }
    }

    /// No frame is being dropped any more.
    pub(crate) fn stopped(self) -> Control
        ensures { result ≡ control.stopped self }
    {
        Control {
            dropping: false,
            ..self
        }
    }

    /// The first frame was dropped.
    pub(crate) fn begun(self, now: Time) -> Control
        requires { now.0 ≤ 2 ^ 60 }
        ensures { result ≡ control.begun now.0 self }
    {
        let count = self.first_count(now);
        Control {
            dropping: true,
            count,
            last: count,
            due: Time(now.0 + step(count)),
            ..self
        }
    }

    /// The count with which dropping begins: where the last drop is not long ago, it goes on from there.
    fn first_count(&self, now: Time) -> u32
        ensures value { result ≡ control.first_count now.0 self.now }
        ensures some { 1 ≤ result }
    {
        let more = self.count.saturating_sub(self.last);
        if more > 1 && now.0.saturating_sub(self.due.0) < 16 * INTERVAL {
            more
        } else {
            1
        }
    }
}

/// Whether a wait is too long, with more behind the frame than may always wait.
fn is_long(now: Time, since: Time, behind: u64) -> bool
    ensures { result ≡ control.is_long now.0 since.0 behind }
{
    now.0.saturating_sub(since.0) >= TARGET && behind > LONGEST_FRAME
}
