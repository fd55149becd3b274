//! Laws of a link.

ghost use Rattle.std.specs.Prelude.{ℕ, ◌≤◌, ◌<◌};
ghost use Rattle.std.specs.List.{AllByRecursion};
ghost use Rattle.sim_base.specs.Draws.{PlainRandom};
ghost use Rattle.sim_base.specs.Packet.{Packet, len};
ghost use Rattle.p2p_dev.specs.declared.In.{In};
ghost use Rattle.p2p_dev.specs.Device.{Device, IsDevice};
ghost use Rattle.p2p_dev.specs.Law.{IsLater, time_of};
ghost use Rattle.p2p_dev.specs.Step.{CanTake, arrives, leaves, step};

/// Nothing is asked for but at a later time.
#[tactic(auto, using(crate::proofs::StepLaws::step_is_later))]
pub fn acts_come_later()
    ensures { (d : Device) (r : PlainRandom) (input : In Packet) → IsDevice d → CanTake input → AllByRecursion (IsLater (time_of input)) (step d r input).acts }
{}

/// A frame that starts when the one before has left arrives after it.
#[tactic(auto, using(crate::proofs::StepLaws::second_arrives_later))]
pub fn frames_arrive_in_order()
    ensures { (d : Device) (start next : ℕ) (first second : Packet) → IsDevice d → 2 ≤ len second
        → leaves d start first ≤ next → arrives d start first < arrives d next second }
{}
