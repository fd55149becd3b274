//! Laws of an interface.

ghost use Rattle.std.specs.Prelude.{◌≡◌};
ghost use Rattle.std.specs.List.{AllByRecursion};
ghost use Rattle.csma_dev.specs.declared.bus.Bus.{Bus};
ghost use Rattle.iface_step.specs.declared.words.In.{In};
ghost use Rattle.iface_step.specs.Attachment.{OnLink, PlainLinkEnd};
ghost use Rattle.iface_step.specs.Iface.{PlainIface};
ghost use Rattle.iface_step.specs.Law.{BringsNoFrame, IsIface, IsLater, IsNear, StaysBelow, time_of};
ghost use Rattle.iface_step.specs.Step.{step};
ghost use Rattle.sim_base.specs.declared.numbers.Numbers.{Numbers};
ghost use Rattle.sim_base.specs.Draws.{PlainRandom};
ghost use Rattle.sim_base.specs.Packet.{Packet};

/// Nothing is scheduled but for a later time.
#[tactic(auto, using(crate::proofs::StepLaws::step_is_later))]
pub fn acts_come_later()
    ensures { (i : PlainIface) (bus : Bus) (r : PlainRandom) (n : Numbers) (input : In Packet) → IsIface i
        → AllByRecursion (IsLater (time_of input)) (step i bus r n input).acts }
{}

/// A frame arrives at a neighbour, with its header; all else that is scheduled happens at the interface itself.
#[tactic(auto, using(crate::proofs::StepLaws::step_is_near))]
pub fn neighbours_alone()
    ensures { (i : PlainIface) (bus : Bus) (r : PlainRandom) (n : Numbers) (input : In Packet) → IsIface i
        → AllByRecursion (IsNear i) (step i bus r n input).acts }
{}

/// No packet goes up, unless a frame comes.
#[tactic(auto, using(crate::proofs::StepLaws::step_stays_below))]
pub fn only_arrivals_go_up()
    ensures { (i : PlainIface) (bus : Bus) (r : PlainRandom) (n : Numbers) (input : In Packet) → BringsNoFrame input
        → AllByRecursion StaysBelow (step i bus r n input).acts }
{}

/// An interface on a link has no bus, and numbers nothing.
#[tactic(auto, using(crate::proofs::StepLaws::step_leaves_bus, crate::proofs::StepLaws::step_numbers_nothing))]
pub fn links_leave_the_bus()
    ensures bus { (i : PlainIface) (e : PlainLinkEnd) (bus : Bus) (r : PlainRandom) (n : Numbers) (input : In Packet)
        → (step (record i { at = OnLink e }) bus r n input).bus ≡ bus }
    ensures numbers { (i : PlainIface) (e : PlainLinkEnd) (bus : Bus) (r : PlainRandom) (n : Numbers) (input : In Packet)
        → (step (record i { at = OnLink e }) bus r n input).numbers ≡ n }
{}
