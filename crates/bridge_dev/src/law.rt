//! Laws of a bridge.

ghost use Rattle.std.specs.Prelude.{◌≡◌, ℕ, List};
ghost use Rattle.sim_base.specs.Packet.{Packet};
ghost use Rattle.bridge_dev.specs.declared.words.In.{In};
ghost use Rattle.bridge_dev.specs.Law.{IsSentOn, after, last_of, port_of};
ghost use Rattle.bridge_dev.specs.Step.{step};
ghost use Rattle.bridge_dev.specs.Table.{PlainBridge, found, lookup};

/// After all steps of a new bridge, a station is looked for at the port of its last frame, if that came in the last 300 s.
#[tactic(auto, using(crate::proofs::LastLaws::lookup_last))]
pub fn entries_are_last_frames()
    ensures { (ports now : ℕ) (mac : List ℕ) (inputs : List (In Packet)) → lookup now mac (after ports inputs) ≡ found now (last_of mac inputs) }
{}

/// A frame doesn't go out at the port where it came in, and goes out at most once at each other port. Its bytes stay.
#[tactic(auto, using(crate::proofs::OutLaws::step_sends_on))]
pub fn frames_go_out_once()
    ensures { (b : PlainBridge) (input : In Packet) → IsSentOn input (step b input).acts }
{}
