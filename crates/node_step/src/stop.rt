//! Why an event did not fire.

use sim_base::{NoMemory, NodeId};

/// Why an event did not fire.
#[derive(Clone, Copy, Debug, PartialEq, Eq)]
pub enum FireStop {
    NoMemory,
    /// The node would have scheduled more events than it may.
    Limit { node: NodeId },
}

impl From<NoMemory> for FireStop {
    ghost use Rattle.std.specs.Prelude.{◌≡◌};
    ghost use Rattle.node_step.specs.declared.stop.FireStop.TheVariants.{NoMemory as OutOfMemory};

    ghost from_gives = { λ e stop. stop ≡ OutOfMemory };

    fn from(_error: NoMemory) -> FireStop {
        FireStop::NoMemory
    }
}
