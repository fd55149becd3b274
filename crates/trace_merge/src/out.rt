//! Where the lines of a run go.

ghost use Rattle.std.specs.Prelude.{◌≡◌, ◌++◌, [], Bool, List, false, is_err, map, ℕ};
ghost use Rattle.std.specs.List.{All};
ghost use Rattle.outside.specs.Causes.{HasCause};
ghost use Rattle.sim_base.specs.Packet.{Packet};
ghost use Rattle.pkt_face.specs.declared.line.Line.{Line as TraceLine};
ghost use Rattle.pkt_face.specs.Seen.{plain_line};
ghost use Rattle.trace_merge.specs.Lines.{IsInTime};

use outside::StoreStop;
use pkt_face::{Line, Pkt};

/// Where the lines of a run go, in the order of their keys and indices.
pub trait LineOut<P: Pkt> {
    ghost Making: { Type 0 };

    /// What it was made with, which no call changes.
    ghost made_with: { Self → Making };

    /// Whether a `put` has failed.
    ghost has_failed: { Self → Bool };

    /// Since it stood like the first, these lines were put, those of a `put` that failed included, and it stands like
    /// the second. It tells its lines where this holds of no other list.
    ghost HasPut: { Self → Self → List (TraceLine Packet) → Type 0 };

    /// How many faults there were.
    ghost faults: { Self → ℕ };

    /// Puts lines behind those that were put before. After an error it takes no more.
    fn put(&mut self, lines: &[Line<P>]) -> Result<(), StoreStop>
        requires going { has_failed self.old ≡ false }
        requires time { All IsInTime lines.now }
        ensures making { made_with self.new ≡ made_with self.old }
        ensures failed { has_failed self.new ≡ is_err result }
        ensures lines { (start : Self) (before : List (TraceLine Packet)) → HasPut start self.old before → HasPut start self.new (before ++ map (plain_line P.plain) lines.now) }
        ensures cause { HasCause StoreStop.Failed (faults self.old) (faults self.new) result };

    /// At first no line was put.
    ghost begins: { (s : Self) → HasPut s s [] };
}
