//! A scenario's run in rounds, beside its plain run.

ghost use Rattle.std.specs.Prelude.{◌≡◌, ◌≤◌, false};
ghost use Rattle.scenario_form.specs.Limits.{IsWithinLimits};

use outside::OpenGate;
use partition_cut::auto;
use pkt_face::PlainPkt;
use plain_kernel::{KernelStop, Report, run_plain};
use round_kernel::run_rounds;
use scenario_form::Scenario;
use sim_base::NoMemory;
use sim_world::World;
use std::alloc::Global;
use std::thread::Threads;
use trace_merge::{KeptLine, KeptLines};

/// What a run writes.
#[derive(Drop)]
struct Told {
    answer: Result<Report, KernelStop>,
    lines: KeptLines,
    groups: u32,
}

/// The plain run.
fn run_whole(alloc: Global, scenario: &Scenario) -> Result<Told, NoMemory>
    requires limits { IsWithinLimits scenario.now }
{
    let Ok(world) = World::<PlainPkt>::make(alloc, scenario) else {
        return Err(NoMemory);
    };
    let mut lines = KeptLines::make(alloc);
    let answer = run_plain(world, &mut lines);
    Ok(Told {
        answer,
        lines,
        groups: 1,
    })
}

/// The run in rounds over the groups of the automatic cut, with so many workers.
fn run_cut<R: Threads + Sync>(
    rt: &R,
    alloc: Global,
    scenario: &Scenario,
    workers: u32,
) -> Result<Told, NoMemory>
    requires some_worker { 1 ≤ workers }
    requires few_workers { workers ≤ 64 }
    requires limits { IsWithinLimits scenario.now }
{
    let Ok(world) = World::<PlainPkt>::make(alloc, scenario) else {
        return Err(NoMemory);
    };
    let shape = scenario.shape(alloc)?;
    let cut = auto(&shape)?;
    let mut lines = KeptLines::make(alloc);
    let answer = run_rounds(rt, world, &cut, workers, &OpenGate, &mut lines);
    Ok(Told {
        answer,
        lines,
        groups: cut.groups,
    })
}

/// Whether two lines are the same.
fn is_same_line(a: &KeptLine, b: &KeptLine) -> bool {
    a.key == b.key
        && a.index == b.index
        && a.node == b.node
        && a.iface == b.iface
        && a.sign == b.sign
        && a.uid == b.uid
        && a.bytes.as_slice() == b.bytes.as_slice()
}

/// Whether lines are the same, one by one.
fn are_same_lines(a: &[KeptLine], b: &[KeptLine]) -> bool {
    if a.len() != b.len() {
        return false;
    }
    for (one, other) in a.iter().zip(b) {
        if !is_same_line(one, other) {
            return false;
        }
    }
    true
}

/// Tells how the run ends, and the windows and the events of each group that its report has.
fn add_answer(
    alloc: Global,
    answer: &Result<Report, KernelStop>,
    text: &mut String,
) -> Result<(), NoMemory> {
    match answer {
        Ok(report) => {
            let (windows, events) = (report.windows, report.events);
            let told = format!(in alloc; ", {windows} windows, {events} events:")?;
            text.push_str(told.as_str())?;
            for events in &report.group_events {
                let group = format!(in alloc; " {events}")?;
                text.push_str(group.as_str())?;
            }
        }
        Err(KernelStop::Limit { key, node }) => {
            let (time, number) = (key.time.0, node.0);
            let told = format!(in alloc; ", limit node {number} time {time} ns")?;
            text.push_str(told.as_str())?;
        }
        Err(_) => text.push_str(", no end")?,
    }
    Ok(())
}

/// Tells what a scenario's run in rounds reports with so many workers, and whether its lines are those of the plain run.
fn add_run<R: Threads + Sync>(
    rt: &R,
    alloc: Global,
    scenario: &Scenario,
    whole: &Told,
    workers: u32,
    text: &mut String,
) -> Result<(), NoMemory>
    requires some_worker { 1 ≤ workers }
    requires few_workers { workers ≤ 64 }
    requires limits { IsWithinLimits scenario.now }
{
    let cut = run_cut(rt, alloc, scenario, workers)?;
    let same = are_same_lines(whole.lines.lines(), cut.lines.lines());
    let lines = cut.lines.lines().len();
    let groups = cut.groups;
    let told = format!(in alloc;
        "workers {workers}, groups {groups}: {lines} lines, those of the plain run: {same}"
    )?;
    text.push_str(told.as_str())?;
    add_answer(alloc, &cut.answer, text)?;
    text.push_str("\n")?;
    Ok(())
}

/// Tells what a scenario's runs in rounds report, and whether their lines are those of the plain run.
pub fn add_rounds<R: Threads + Sync>(
    rt: &R,
    alloc: Global,
    scenario: &Scenario,
    text: &mut String,
) -> Result<(), NoMemory>
    requires limits { IsWithinLimits scenario.now }
{
    let whole = run_whole(alloc, scenario)?;
    add_run(rt, alloc, scenario, &whole, 1, text)?;
    add_run(rt, alloc, scenario, &whole, 2, text)?;
    add_run(rt, alloc, scenario, &whole, 3, text)?;
    add_run(rt, alloc, scenario, &whole, 8, text)?;
    add_run(rt, alloc, scenario, &whole, 64, text)?;
    Ok(())
}
