//! A window's firings: each group runs to the window's end.

ghost use Rattle.std.specs.Prelude.{◌≡◌, ◌≢◌, ◌≤◌, ◌^◌, All, IfOk, OnOk, Some, length};
ghost use Rattle.lp_run.specs.Lp.{IsWellLp};
ghost use Rattle.lp_run.specs.declared.stop.LpStop.TheVariants.{NoMemory as OutOfMemory};
ghost use Rattle.row_work.specs.Made.{AreMade};
ghost use Rattle.row_work.specs.Order.{AreNumbers};
ghost use Rattle.round_kernel.specs.Stops.{earlier_stop, least_stop, with_stop};
ghost use Rattle.round_kernel.specs.Window.{HasGone};

use crate::groups::Group;
use lp_run::LpStop;
use outside::Gate;
use pkt_face::Pkt;
use row_work::work_all;
use sim_base::{Key, NoMemory, NodeId, Time};
use std::thread::Threads;

/// Lets a group enter a round, and runs it to the window's end.
fn run_group<P: Pkt, G: Gate>(gate: &G, number: u32, round: u64, group: &mut Group<P>, end: Time)
    requires end { end.0 ≤ 10 ^ 12 }
    requires well { IsWellLp group.old.0 }
    ensures { HasGone end.0 group.old.0 group.new.0 group.new.1 }
{
    gate.enter(number, round);
    group.run_below(end);
}

/// Runs the groups to the window's end. Each is drawn by one of the workers, in an order that names each once. Where memory
/// runs out, the groups are given up.
pub fn run_groups<R: Threads + Sync, P: Pkt, G: Gate + Sync>(
    rt: &R,
    groups: &mut Vec<Group<P>>,
    order: &[u32],
    workers: u32,
    gate: &G,
    round: u64,
    end: Time,
) -> Result<(), NoMemory>
    requires some_worker { 1 ≤ workers }
    requires few_workers { workers ≤ 64 }
    requires order { AreNumbers (length groups.old.items) order.now }
    requires end { end.0 ≤ 10 ^ 12 }
    requires well { All (λ group. IsWellLp group.0) groups.old.items }
    ensures { OnOk result (AreMade (λ _ old new. HasGone end.0 old.0 new.0 new.1) groups.old.items groups.new.items) }
{
    let alloc = *groups.allocator();
    let drawn = std::mem::replace(groups, Vec::new(alloc));
    *groups = work_all(
        rt,
        alloc,
        drawn,
        order,
        workers,
        &|number: u32, group: &mut Group<P>|
            requires { (end.0 ≤ 10 ^ 12) × IsWellLp group.now.0 }
            ensures { HasGone end.0 group.entry.now.0 group.exit.now.0 group.exit.now.1 }
        { run_group(gate, number, round, group, end) },
    )?;
    Ok(())
}

/// The earlier of a stop and the least so far.
fn earlier(stop: (Key, NodeId), least: Option<(Key, NodeId)>) -> Option<(Key, NodeId)>
    ensures { result ≡ earlier_stop stop least }
{
    match least {
        None => Some(stop),
        Some(least) => {
            if stop.0.is_before(&least.0) {
                Some(stop)
            } else {
                Some(least)
            }
        }
    }
}

/// The earliest stop so far, with that of one more group.
fn with_group(
    least: Option<(Key, NodeId)>,
    stop: Option<LpStop>,
) -> Result<Option<(Key, NodeId)>, NoMemory>
    ensures memory { OnOk result (stop ≢ Some OutOfMemory) }
    ensures least { IfOk result (λ now. now ≡ with_stop least stop) }
{
    match stop {
        None => Ok(least),
        Some(LpStop::NoMemory) => Err(NoMemory),
        Some(LpStop::Limit { key, node }) => Ok(earlier((key, node), least)),
    }
}

/// The least key at which a group has stopped, if one has.
pub fn first_stop<P: Pkt>(groups: &Vec<Group<P>>) -> Result<Option<(Key, NodeId)>, NoMemory>
    ensures memory { OnOk result (All (λ group. group.1 ≢ Some OutOfMemory) groups.now.items) }
    ensures least { IfOk result (λ least. least ≡ least_stop groups.now.items) }
{
    let mut least = None;
    for group in groups {
        least = with_group(least, group.stop())?;
    }
    Ok(least)
}
