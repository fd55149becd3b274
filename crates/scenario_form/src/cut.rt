//! The cut of a scenario's network into its groups.

ghost use Rattle.std.specs.Prelude.{◌≡◌, ◌∷◌, ◌++◌, [], All, IfOk, IfErr, IfSome, OnOk, OnErr, map, None};
ghost use Rattle.partition_cut.specs.AllowedCut.{IsCutOf};
ghost use Rattle.partition_cut.specs.NamedCut.{listed_cut};
ghost use Rattle.partition_cut.specs.Network.{node_lists, plain_cut};
ghost use Rattle.partition_cut.specs.Refusal.{IsRefusedFor};
ghost use Rattle.scenario_form.specs.Answers.{Passes};
ghost use Rattle.scenario_form.specs.Groups.{code_of, groups_check, groups_refusal, refuse_cut};
ghost use Rattle.scenario_form.specs.Limits.{IsGroup, IsWithinLimits};
ghost use Rattle.scenario_form.specs.Shape.{IsCutFor, network_of, numbers_of};

use crate::field::Code;
use crate::interface::place;
use crate::refusal::{Refusal, Stop};
use crate::scenario::Scenario;
use crate::shape::numbers_of;
use partition_cut::{Cut, CutBad, CutStop, check};
use sim_base::{NoMemory, NodeId, Sequence};
use std::alloc::Global;

/// Groups as lists of numbers.
fn group_numbers(alloc: Global, groups: &[Sequence<NodeId>]) -> Result<Vec<Vec<u32>>, NoMemory>
    ensures { IfOk result (λ made. node_lists made.items ≡ map numbers_of groups.now) }
{
    let mut made = Vec::with_capacity(alloc, groups.len())?;
    for group in groups {
        let numbers = numbers_of(alloc, group.as_slice())?;
        made.push(numbers)?;
    }
    Ok(made)
}

/// The cut of a scenario's network into groups, or why they are no allowed cut.
pub fn cut_into(
    alloc: Global,
    scenario: &Scenario,
    groups: &[Sequence<NodeId>],
) -> Result<Cut, CutStop>
    requires limits { IsWithinLimits scenario.now }
    requires groups { All (IsGroup scenario.now.nodes) groups.now }
    ensures allowed { IfOk result (IsCutFor scenario.now) }
    ensures these { IfOk result (λ cut. plain_cut cut ≡ listed_cut (network_of scenario.now) (map numbers_of groups.now)) }
    ensures good { OnOk result (groups_refusal scenario.now groups.now ≡ None) }
    ensures bad { IfErr result (λ stop. IsRefusedFor stop (groups_refusal scenario.now groups.now)) }
{
    let shape = scenario.shape(alloc)?;
    let numbers = group_numbers(alloc, groups)?;
    check(&shape, numbers.as_slice())
}

/// The code of a cut that isn't allowed.
fn code_of(bad: CutBad) -> Code
    ensures { result ≡ code_of bad }
{
    match bad {
        CutBad::Twice { node } => Code::GroupTwice { node },
        CutBad::Missing { node } => Code::GroupMissing { node },
        CutBad::Lan { lan } => Code::Lan { lan },
        CutBad::ZeroDelay { link } => Code::ZeroDelay { link },
    }
}

/// Refuses groups that are no allowed cut.
fn check_cut(
    alloc: Global,
    scenario: &Scenario,
    groups: &[Sequence<NodeId>],
) -> Result<(), Stop<Refusal>>
    requires limits { IsWithinLimits scenario.now }
    requires groups { All (IsGroup scenario.now.nodes) groups.now }
    ensures { Passes result (refuse_cut (groups_refusal scenario.now groups.now)) }
{
    match cut_into(alloc, scenario, groups) {
        Ok(_) => Ok(()),
        Err(CutStop::Bad(bad)) => Err(Stop::Refused(Refusal::Schema {
            place: place(0, 0, 8),
            code: code_of(bad),
        })),
        Err(CutStop::NoMemory) => Err(Stop::NoMemory),
    }
}

/// The check of a scenario's groups, if it has any.
pub fn check_groups(alloc: Global, scenario: &Scenario) -> Result<(), Stop<Refusal>>
    requires { IsWithinLimits scenario.now }
    ensures { Passes result (groups_check scenario.now) }
{
    match &scenario.groups {
        None => Ok(()),
        Some(groups) => check_cut(alloc, scenario, groups.as_slice()),
    }
}
