//! The windows of a run.

ghost use Rattle.std.specs.Prelude.{◌≡◌, ◌≤◌, ◌^◌, IfOk, IfSome, IsTrue, map};
ghost use Rattle.round_core.specs.Opening.{HaveOwnKeys};
ghost use Rattle.node_step.specs.Loads.{plain_event};
ghost use Rattle.node_rules.specs.Worlds.{event_of};
ghost use Rattle.lp_run.specs.Lp.{IsWellLp, made};
ghost use Rattle.sim_world.specs.Opening.{OpensRuns};

use crate::text::{add_counts, add_limit, add_window};
use lp_run::{Lp, LpStop};
use node_step::{Event, Part};
use pkt_face::Pkt;
use sim_base::{NoMemory, Time};
use sim_world::World;
use std::alloc::Global;

/// More windows than a run here has.
const MOST_WINDOWS: u32 = 200;

/// How long a window is: the delay of the links, 1 ms.
const LENGTH: u64 = 1_000_000;

/// Runs a world as one group.
pub fn run_world<P: Pkt>(alloc: Global, world: World<P>) -> Result<String, NoMemory>
    requires opens { OpensRuns world }
    requires stop { world.stop.0 ≤ 10 ^ 12 }
{
    let stop = world.stop();
    let (part, first) = world.whole();
    let Ok(group) = group_of(part, first) else {
        return Err(NoMemory);
    };
    run_group(alloc, group, stop)
}

/// A group of these nodes with these first events. The last of them comes to it as an event from another group does.
fn group_of<P: Pkt>(part: Part<P>, mut first: Vec<Event<P>>) -> Result<Lp<P>, NoMemory>
    requires { HaveOwnKeys (λ e. e.key) (map event_of (map (plain_event P.plain) first.items)) }
    ensures { IfOk result (λ lp. lp ≡ made part (map event_of (map (plain_event P.plain) first.items))) }
{
    match first.pop() {
        None => Lp::make(part, first),
        Some(last) => {
            let Ok(mut group) = Lp::make(part, first) else {
                return Err(NoMemory);
            };
            match group.receive(last) {
                Ok(()) => Ok(group),
                Err(stop) => Err(stop),
            }
        }
    }
}

/// Runs a group in windows until no event is left below the stop, or a node may schedule no more.
fn run_group<P: Pkt>(alloc: Global, mut group: Lp<P>, stop: Time) -> Result<String, NoMemory>
    requires well { IsWellLp group }
    requires stop { stop.0 ≤ 10 ^ 12 }
{
    let mut text = String::new(alloc);
    for _ in 0..MOST_WINDOWS {
        let Some(end) = window_end(&group, stop) else {
            add_counts(alloc, &group, &mut text)?;
            break;
        };
        if !run_window(alloc, &mut group, end, &mut text)? {
            break;
        }
    }
    Ok(text)
}

/// The end of the window that begins at the least event, if that comes before the stop.
fn window_end<P: Pkt>(group: &Lp<P>, stop: Time) -> Option<Time>
    ensures { IfSome result (λ end. end.0 ≤ stop.0) }
{
    let least = group.least()?;
    if stop <= least.time {
        return None;
    }
    Some(Time(least.time.0.saturating_add(LENGTH).min(stop.0)))
}

/// Fires the events of a window, and tells the frames that were saved. Answers whether the group goes on.
fn run_window<P: Pkt>(
    alloc: Global,
    group: &mut Lp<P>,
    end: Time,
    text: &mut String,
) -> Result<bool, NoMemory>
    requires end { end.0 ≤ 10 ^ 12 }
    requires well { IsWellLp group.old }
    ensures { IfOk result (λ goes_on. IsTrue goes_on → IsWellLp group.new) }
{
    match group.run_below(end) {
        Ok(()) => {
            add_window(alloc, group, end, text)?;
            Ok(true)
        }
        Err(LpStop::Limit { key, node }) => {
            add_window(alloc, group, end, text)?;
            add_limit(alloc, key, node, text)?;
            Ok(false)
        }
        Err(LpStop::NoMemory) => Err(NoMemory),
    }
}
