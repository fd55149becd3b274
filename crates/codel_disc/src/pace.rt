//! Square roots, and the time from one drop to the next.

ghost use Rattle.std.specs.Prelude.{◌≡◌, ◌≤◌, ◌*◌, ◌/◌, ◌^◌};
ghost use Rattle.codel_disc.specs.Root.{root, step, IsRoot};

/// The whole part of the square root.
pub fn root(n: u64) -> u32
    ensures whole { IsRoot n result }
    ensures value { result ≡ root n }
{
    n.isqrt() as u32
}

/// How many nanoseconds after a drop, the `count`th in a row, the next one is due: an interval, divided by the root of the
/// count (the control law of RFC 8289, section 5).
pub(crate) fn step(count: u32) -> u64
    requires { 1 ≤ count }
    ensures value { result ≡ step count }
    ensures short { result ≤ 100000000 }
{
    100_000_000_000 / u64::from(root(u64::from(count) * 1_000_000))
}
