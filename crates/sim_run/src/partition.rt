//! The cut of a scenario's network that a partition names.

ghost use Rattle.std.specs.Prelude.{◌≡◌, IfOk, Ok, All, map};
ghost use Rattle.partition_cut.specs.NamedCut.{auto_cut, listed_cut, one_cut};
ghost use Rattle.partition_cut.specs.Network.{plain_cut};
ghost use Rattle.scenario_form.specs.Groups.{groups_check, groups_refusal, refuse_cut};
ghost use Rattle.scenario_form.specs.Limits.{IsGroup, IsWithinLimits};
ghost use Rattle.scenario_form.specs.Shape.{IsCutFor, network_of, numbers_of};
ghost use Rattle.sim_run.specs.Report.{cut_for, listed};

use command_words::Partition;
use partition_cut::{Cut, auto, one};
use scenario_form::{Scenario, cut_into};
use sim_base::{NoMemory, NodeId, Sequence};
use std::alloc::Global;

/// The cut of a scenario's network that a partition names.
pub fn cut_for(alloc: Global, partition: Partition, scenario: &Scenario) -> Result<Cut, NoMemory>
    requires limits { IsWithinLimits scenario.now }
    requires groups { groups_check scenario.now ≡ Ok tt }
    ensures allowed { IfOk result (IsCutFor scenario.now) }
    ensures named { IfOk result (λ cut. plain_cut cut ≡ cut_for partition scenario.now) }
{
    match partition {
        Partition::One => one_cut(alloc, scenario),
        Partition::File => listed(alloc, scenario),
        Partition::Auto => auto_cut(alloc, scenario),
    }
}

/// The cut into one group.
fn one_cut(alloc: Global, scenario: &Scenario) -> Result<Cut, NoMemory>
    requires limits { IsWithinLimits scenario.now }
    ensures allowed { IfOk result (IsCutFor scenario.now) }
    ensures named { IfOk result (λ cut. plain_cut cut ≡ one_cut (network_of scenario.now)) }
{
    let shape = scenario.shape(alloc)?;
    one(&shape)
}

/// The automatic cut.
fn auto_cut(alloc: Global, scenario: &Scenario) -> Result<Cut, NoMemory>
    requires limits { IsWithinLimits scenario.now }
    ensures allowed { IfOk result (IsCutFor scenario.now) }
    ensures named { IfOk result (λ cut. plain_cut cut ≡ auto_cut (network_of scenario.now)) }
{
    let shape = scenario.shape(alloc)?;
    auto(&shape)
}

/// The cut into the groups that a scenario lists, or into one where it lists none.
fn listed(alloc: Global, scenario: &Scenario) -> Result<Cut, NoMemory>
    requires limits { IsWithinLimits scenario.now }
    requires groups { groups_check scenario.now ≡ Ok tt }
    ensures allowed { IfOk result (IsCutFor scenario.now) }
    ensures named { IfOk result (λ cut. plain_cut cut ≡ listed (network_of scenario.now) scenario.now.groups) }
{
    match &scenario.groups {
        None => one_cut(alloc, scenario),
        Some(groups) => accepted_cut(alloc, scenario, groups.as_slice()),
    }
}

/// The cut into groups that nothing refuses, so that memory alone can fail.
fn accepted_cut(
    alloc: Global,
    scenario: &Scenario,
    groups: &[Sequence<NodeId>],
) -> Result<Cut, NoMemory>
    requires limits { IsWithinLimits scenario.now }
    requires groups { All (IsGroup scenario.now.nodes) groups.now }
    requires accepted { refuse_cut (groups_refusal scenario.now groups.now) ≡ Ok tt }
    ensures allowed { IfOk result (IsCutFor scenario.now) }
    ensures named { IfOk result (λ cut. plain_cut cut ≡ listed_cut (network_of scenario.now) (map numbers_of groups.now)) }
{
    match cut_into(alloc, scenario, groups) {
        Ok(cut) => Ok(cut),
        Err(_) => Err(NoMemory),
    }
}
