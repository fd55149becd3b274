//! What a scenario says of each node.

ghost use Rattle.std.specs.Prelude.{IfOk};
ghost use Rattle.scenario_form.specs.Limits.{IsWithinLimits};

use crate::apps::{Listed, apps_by_node};
use crate::ends::{End, ends_by_node};
use crate::guide::Guide;
use crate::lans::{Member, members_by_lan};
use scenario_form::Scenario;
use sim_base::{NoMemory, Sequence};
use std::alloc::Global;

/// The interfaces and the applications of each node; the members of each LAN; and how routes are found.
#[derive(Drop)]
pub struct Plan {
    pub ends: Vec<Sequence<End>>,
    pub apps: Vec<Sequence<Listed>>,
    pub members: Vec<Sequence<Member>>,
    pub guide: Guide,
}

impl Plan {
    ghost use Rattle.sim_world.specs.Plan.{IsPlan, IsPlanOf};

    /// The plan of a scenario, in a few passes over its links, LANs, routes and applications.
    pub fn of(alloc: Global, scenario: &Scenario) -> Result<Plan, NoMemory>
        requires { IsWithinLimits scenario.now }
        ensures plan { IfOk result (IsPlanOf scenario.now) }
        ensures within { IfOk result IsPlan }
    {
        let nodes = scenario.nodes;
        let lans = scenario.lans.as_slice();
        let ends = ends_by_node(alloc, nodes, scenario.links.as_slice(), lans)?;
        let apps = apps_by_node(alloc, nodes, scenario.apps.as_slice())?;
        let members = members_by_lan(alloc, lans.len() as u32, ends.as_slice())?;
        let guide = Guide::of(alloc, scenario, ends.as_slice())?;
        Ok(Plan {
            ends,
            apps,
            members,
            guide,
        })
    }
}
