//! Where the text of a run goes: the last thing that a run meets.

ghost use Rattle.std.specs.Prelude.{◌≡◌, ℕ, ◌<◌, ◌≤◌, List, Option, length, IfOk};
ghost use Rattle.outside.specs.Causes.{HasCause};
ghost use Rattle.outside.specs.Streams.{Writes};

use crate::store::StoreStop;

/// A stream of bytes that go out.
pub trait Sink {
    /// The bytes that came, where the sink tells them.
    ghost got: { Self → Option (List ℕ) };

    /// How many faults there were.
    ghost faults: { Self → ℕ };

    /// Takes bytes from the front of the piece, at least one, and answers how many. After an error a
    /// front of the piece came, which may be empty.
    fn write(&mut self, bytes: &[u8]) -> Result<usize, StoreStop>
        requires { 0 < length bytes.now }
        ensures some { IfOk result (λ n. (0 < n) × (n ≤ length bytes.now)) }
        ensures bytes { Writes (got self.old) (got self.new) result bytes.now }
        ensures cause { HasCause StoreStop.Failed (faults self.old) (faults self.new) result };
}
