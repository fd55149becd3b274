//! Why a command doesn't come to its end, beside a refusal of what came in.

ghost use Rattle.std.specs.Prelude.{◌≡◌};
ghost use Rattle.sim_run.specs.Stop.{stop_of};

use outside::StoreStop;
use sim_base::{NodeId, Time};

/// Why a command doesn't come to its end.
#[derive(Clone, Copy, Debug, PartialEq, Eq)]
pub enum RunStop {
    WriteFault,
    /// At this time the node would have scheduled more events than it may.
    Limit { node: NodeId, time: Time },
    NoMemory,
}

/// The stop of a command whose store or sink stopped.
pub fn stopped(stop: StoreStop) -> RunStop
    ensures { result ≡ stop_of stop }
{
    match stop {
        StoreStop::Failed => RunStop::WriteFault,
        StoreStop::NoMemory => RunStop::NoMemory,
    }
}
