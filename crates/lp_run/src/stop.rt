//! Why a group stopped before the end of its window.

ghost use Rattle.std.specs.Prelude.{◌≡◌};
ghost use Rattle.lp_run.specs.Lp.{stop_at};

use node_step::FireStop;
use sim_base::{Key, NoMemory, NodeId};

/// Why a group stopped before the end of its window.
#[derive(Clone, Copy, Debug, PartialEq, Eq)]
pub enum LpStop {
    NoMemory,
    /// The node of the event under this key would have scheduled more events than it may.
    Limit { key: Key, node: NodeId },
}

impl LpStop {
    /// Why the group stops, where its part has refused to fire the event under a key.
    pub fn at(key: Key, stop: FireStop) -> LpStop
        ensures { result ≡ stop_at key stop }
    {
        match stop {
            FireStop::NoMemory => LpStop::NoMemory,
            FireStop::Limit { node } => LpStop::Limit { key, node },
        }
    }
}

impl From<NoMemory> for LpStop {
    ghost use Rattle.std.specs.Prelude.{◌≡◌};
    ghost use Rattle.lp_run.specs.declared.stop.LpStop.TheVariants.{NoMemory as OutOfMemory};

    ghost from_gives = { λ e stop. stop ≡ OutOfMemory };

    fn from(_error: NoMemory) -> LpStop {
        LpStop::NoMemory
    }
}
