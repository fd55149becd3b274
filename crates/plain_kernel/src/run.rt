//! The plain run.

ghost use Rattle.std.specs.Prelude.{◌≡◌, ◌≤◌, ◌^◌, false};
ghost use Rattle.outside.specs.Causes.{HasCause};
ghost use Rattle.sim_world.specs.Opening.{OpensRuns};
ghost use Rattle.plain_kernel.specs.Stop.{Answers, PutsAll};

use crate::outcome::{Outcome, Ran};
use crate::report::Report;
use crate::stop::KernelStop;
use outside::StoreStop;
use pkt_face::Pkt;
use sim_world::World;
use trace_merge::LineOut;

/// Runs a world: its events fire one by one, in the order of their keys, until none is left below its stop. The lines of
/// all firings are put at the end, in their order; where a node may schedule no more, those before its event.
pub fn run_plain<P: Pkt, L: LineOut<P>>(
    world: World<P>,
    lines: &mut L,
) -> Result<Report, KernelStop>
    requires opens { OpensRuns world }
    requires stop { world.stop.0 ≤ 10 ^ 12 }
    requires going { L.has_failed lines.old ≡ false }
    ensures making { L.made_with lines.new ≡ L.made_with lines.old }
    ensures answers { Answers world (L.HasPut lines.old lines.new) result }
    ensures going { PutsAll result → L.has_failed lines.new ≡ false }
    ensures cause { HasCause KernelStop.WriteFault (L.faults lines.old) (L.faults lines.new) result }
{
    let Ok(ran) = Ran::of(world) else {
        return Err(KernelStop::NoMemory);
    };
    let Ran {
        outcome,
        lines: written,
    } = ran;
    match lines.put(&written) {
        Err(StoreStop::Failed) => Err(KernelStop::WriteFault),
        Err(StoreStop::NoMemory) => Err(KernelStop::NoMemory),
        Ok(()) => match outcome {
            Outcome::Done { report } => Ok(report),
            Outcome::Limit { key, node } => Err(KernelStop::Limit { key, node }),
        },
    }
}
