//! How a run of a whole world ends.

ghost use Rattle.std.specs.Prelude.{◌≡◌, ◌≤◌, ◌^◌, IfOk, map};
ghost use Rattle.pkt_face.specs.Seen.{plain_line};
ghost use Rattle.sim_world.specs.Opening.{OpensRuns};
ghost use Rattle.plain_kernel.specs.Run.{run_lines};
ghost use Rattle.plain_kernel.specs.Stop.{IsOutcome};

use crate::report::Report;
use lp_run::{Lp, LpStop};
use pkt_face::{Line, Pkt};
use sim_base::{Key, NoMemory, NodeId};
use sim_world::World;

/// How a run ends.
#[derive(Debug, Drop)]
pub enum Outcome {
    Done { report: Report },
    /// The node of the event under this key would have scheduled more events than it may.
    Limit { key: Key, node: NodeId },
}

/// How a run has ended, and the lines that its firings have written, in their order.
#[derive(Drop)]
pub struct Ran<P> {
    pub outcome: Outcome,
    pub lines: Vec<Line<P>>,
}

impl<P: Pkt> Ran<P> {
    /// Fires the events of a world one by one, in the order of their keys, until none is left below its stop or a node may
    /// schedule no more.
    pub fn of(world: World<P>) -> Result<Ran<P>, NoMemory>
        requires opens { OpensRuns world }
        requires stop { world.stop.0 ≤ 10 ^ 12 }
        ensures outcome { IfOk result (λ ran. IsOutcome world ran.outcome) }
        ensures lines { IfOk result (λ ran. map (plain_line P.plain) ran.lines.items ≡ run_lines world) }
    {
        let stop = world.stop();
        let (part, first) = world.whole();
        let mut group = Lp::make(part, first)?;
        match group.run_below(stop) {
            Ok(()) => {
                let report = Report::of(&group)?;
                let lines = group.take_lines();
                Ok(Ran {
                    outcome: Outcome::Done { report },
                    lines,
                })
            }
            Err(LpStop::Limit { key, node }) => {
                let lines = group.take_lines();
                Ok(Ran {
                    outcome: Outcome::Limit { key, node },
                    lines,
                })
            }
            Err(LpStop::NoMemory) => Err(NoMemory),
        }
    }
}
