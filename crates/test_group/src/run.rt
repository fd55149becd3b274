//! A scenario's run, from its document.

ghost use Rattle.scenario_form.specs.Limits.{IsWithinLimits};

use crate::rounds::add_rounds;
use crate::windows::run_world;
use pkt_face::PlainPkt;
use scenario_form::{Scenario, read_scenario};
use sim_base::NoMemory;
use sim_world::World;
use std::alloc::Global;
use std::thread::Threads;

/// What the run of a scenario tells.
pub fn run<R: Threads + Sync>(rt: &R, alloc: Global, document: &str) -> Result<String, NoMemory> {
    match read_scenario(alloc, document.as_bytes()) {
        Err(_) => Ok(format!(in alloc; "refused\n")?),
        Ok(scenario) => run_scenario(rt, alloc, &scenario),
    }
}

/// What the run of a scenario tells that isn't refused.
fn run_scenario<R: Threads + Sync>(
    rt: &R,
    alloc: Global,
    scenario: &Scenario,
) -> Result<String, NoMemory>
    requires limits { IsWithinLimits scenario.now }
{
    let Ok(world) = World::<PlainPkt>::make(alloc, scenario) else {
        return Err(NoMemory);
    };
    let mut told = run_world(alloc, world)?;
    add_rounds(rt, alloc, scenario, &mut told)?;
    Ok(told)
}
