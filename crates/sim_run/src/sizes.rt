//! The sizes of a scenario: the text of `check`.

ghost use Rattle.std.specs.Prelude.{◌≡◌, ◌≤◌, string_bytes, IfOk, OnOk, OnErr, IfErr};
ghost use Rattle.outside.specs.Causes.{Rose};
ghost use Rattle.sim_run.specs.Output.{HasGot, HasGotPrefix};
ghost use Rattle.sim_run.specs.Sizes.{sizes_line};

use crate::output::write_all;
use outside::{Sink, StoreStop};
use scenario_form::Scenario;
use sim_base::NoMemory;
use std::alloc::Global;

/// Writes the line of a scenario's sizes.
pub fn write_sizes<O: Sink>(
    alloc: Global,
    scenario: &Scenario,
    out: &mut O,
) -> Result<(), StoreStop>
    ensures ok { OnOk result (HasGot (O.got out.old) (O.got out.new) (sizes_line scenario.now)) }
    ensures err { OnErr result (HasGotPrefix (O.got out.old) (O.got out.new) (sizes_line scenario.now)) }
    ensures later { O.faults out.old ≤ O.faults out.new }
    ensures cause { IfErr result (λ stop. stop ≡ StoreStop.Failed → Rose (O.faults out.old) (O.faults out.new)) }
{
    let Ok(text) = sizes_line(alloc, scenario) else {
        return Err(StoreStop::NoMemory);
    };
    write_all(out, text.as_bytes())
}

/// How many nodes there are, and how many tables of each section.
#[tactic(auto, unfolding(crate::specs::Sizes::sizes_line))]
fn sizes_line(alloc: Global, scenario: &Scenario) -> Result<String, NoMemory>
    ensures { IfOk result (λ text. string_bytes text ≡ sizes_line scenario.now) }
{
    let nodes = scenario.nodes;
    let links = scenario.links.len();
    let lans = scenario.lans.len();
    let routes = scenario.routes.len();
    let apps = scenario.apps.len();
    let losses = scenario.losses.len();
    Ok(format!(in alloc;
        "nodes {nodes} links {links} lans {lans} routes {routes} apps {apps} losses {losses}\n"
    )?)
}
