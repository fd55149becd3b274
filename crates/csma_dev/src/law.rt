//! Laws of a bus.

ghost use Rattle.std.specs.List.{AllByRecursion};
ghost use Rattle.sim_base.specs.Packet.{Packet};
ghost use Rattle.sim_base.specs.Draws.{PlainRandom};
ghost use Rattle.csma_dev.specs.declared.bus.Bus.{Bus};
ghost use Rattle.csma_dev.specs.declared.words.In.{In};
ghost use Rattle.csma_dev.specs.Device.{Device, IsDevice};
ghost use Rattle.csma_dev.specs.Law.{IsAlone, IsLater, time_of};
ghost use Rattle.csma_dev.specs.Step.{CanTake, step};

/// A frame starts only where no other has the bus, and it has the bus until it has come to the other devices.
#[tactic(auto, using(crate::proofs::StepLaws::step_is_alone))]
pub fn one_frame_at_a_time()
    ensures { (d : Device) (bus : Bus) (r : PlainRandom) (input : In Packet) → AllByRecursion (IsAlone (time_of input) bus (step d bus r input).bus) (step d bus r input).acts }
{}

/// Nothing is asked for but at a later time.
#[tactic(auto, using(crate::proofs::StepLaws::step_is_later))]
pub fn acts_come_later()
    ensures { (d : Device) (bus : Bus) (r : PlainRandom) (input : In Packet) → IsDevice d → CanTake input → AllByRecursion (IsLater (time_of input)) (step d bus r input).acts }
{}
