//! Bands of frames, by their priority.

ghost use Rattle.std.specs.Prelude.{◌≡◌};
ghost use Rattle.queue_discs.specs.Band.{band_of_priority};

/// A band of a disc. Each frame of a band leaves before those of the next.
#[derive(Clone, Copy, Debug, PartialEq, Eq)]
pub enum Band {
    First,
    Second,
    Third,
}

/// How many priorities there are.
const PRIORITIES: u64 = 16;

/// The band of a priority, as Linux's `pfifo_fast` maps them.
pub fn band_of_priority(priority: u64) -> Band
    ensures { result ≡ band_of_priority priority }
{
    match priority % PRIORITIES {
        6 | 7 => Band::First,
        1 | 2 | 3 | 5 => Band::Third,
        _ => Band::Second,
    }
}
