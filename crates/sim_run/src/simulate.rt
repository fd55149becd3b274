//! A run on its way out: the files are made, the kernel runs, its lines go to the files, and
//! the summary is written last.

ghost use Rattle.std.specs.Prelude.{◌≡◌, ◌+◌, ◌≤◌, ◌⊎◌, ◌++◌, ◌^◌, ℕ, List, codes, false, length, Ok, Err, IfOk, IfErr, OnOk, string_bytes, if◌then◌else◌, []};
ghost use Rattle.outside.specs.Causes.{Rose};
ghost use Rattle.partition_cut.specs.Network.{plain_cut};
ghost use Rattle.scenario_form.specs.Groups.{groups_check};
ghost use Rattle.scenario_form.specs.Limits.{IsWithinLimits};
ghost use Rattle.scenario_form.specs.Shape.{IsCutFor};
ghost use Rattle.sim_base.specs.declared.key.NodeId.{NodeId};
ghost use Rattle.sim_base.specs.declared.time.Time.{Time};
ghost use Rattle.sim_world.specs.Opening.{OpensRuns};
ghost use Rattle.sim_world.specs.World.{world_of};
ghost use Rattle.round_kernel.specs.Cut.{Fits};
ghost use Rattle.round_kernel.specs.Report.{HasEnded};
ghost use Rattle.command_words.specs.Command.{HaveWorkers};
ghost use Rattle.sim_run.specs.Traces.{run_files};
ghost use Rattle.sim_run.specs.Output.{HasFiles, HasFilePrefixes, HasGot, HasGotPrefix};
ghost use Rattle.sim_run.specs.Plain.{run_status, run_text};
ghost use Rattle.sim_run.specs.Report.{cut_for, report_text};
ghost use Rattle.sim_run.specs.Run.{ending_of, lines_of};
ghost use Rattle.sim_run.specs.Saving.{Saves};
ghost use Rattle.sim_run.specs.Stop.{IsWhole};
ghost use Rattle.sim_run.specs.Summary.{summary};

use crate::create::{Opened, open_traces};
use crate::output::write_all;
use crate::partition::cut_for;
use crate::report::report_text;
use crate::status::Status;
use crate::stop::{RunStop, stopped};
use crate::summary::summary;
use crate::trace_files::TraceFiles;
use command_words::Settings;
use outside::{Gate, Sink, StoreStop, TraceStore};
use partition_cut::Cut;
use pkt_face::{BoxedPkt, Pkt};
use plain_kernel::{KernelStop, Report};
use round_kernel::run_rounds;
use scenario_form::{App, Scenario};
use sim_base::NoMemory;
use sim_world::World;
use std::alloc::Global;
use std::thread::Threads;

/// Runs a scenario: the files first, and the summary last, with the report behind it where it is asked for.
pub fn simulate<P: Pkt, R: Threads + Sync, F: TraceStore, O: Sink, G: Gate + Sync>(
    rt: &R,
    alloc: Global,
    settings: Settings,
    scenario: &Scenario,
    store: &mut F,
    out: &mut O,
    gate: &G,
) -> Result<(), RunStop>
    requires workers { HaveWorkers settings }
    requires limits { IsWithinLimits scenario.now }
    requires groups { groups_check scenario.now ≡ Ok tt }
    requires names { (rest : List ℕ) → F.takes store.old (codes "trace" ++ rest) }
    ensures done { OnOk result (run_status (ending_of scenario.now) ≡ Status.Done) }
    ensures limit { (node : NodeId) (time : Time) → result ≡ Err (RunStop.Limit node time) → run_status (ending_of scenario.now) ≡ Status.Limit node time }
    ensures files { IsWhole result → HasFiles (F.files store.old) (F.files store.new) (run_files scenario.now (lines_of scenario.now)) }
    ensures text { IsWhole result → HasGot (O.got out.old) (O.got out.new) (run_text settings scenario.now (ending_of scenario.now)) }
    ensures file_prefixes { HasFilePrefixes (F.files store.old) (F.files store.new) (run_files scenario.now (lines_of scenario.now)) }
    ensures text_prefix { HasGotPrefix (O.got out.old) (O.got out.new) (run_text settings scenario.now (ending_of scenario.now)) }
    ensures later { (F.faults store.old ≤ F.faults store.new) × (O.faults out.old ≤ O.faults out.new) }
    ensures cause { result ≡ Err RunStop.WriteFault → Rose (F.faults store.old) (F.faults store.new) ⊎ Rose (O.faults out.old) (O.faults out.new) }
{
    let Ok(cut) = cut_for(alloc, settings.partition, scenario) else {
        return Err(RunStop::NoMemory);
    };
    let report = match write_traces::<P, R, F, G>(
        rt,
        alloc,
        settings.workers,
        &cut,
        scenario,
        store,
        gate,
    ) {
        Ok(report) => report,
        Err(stop) => return Err(stop),
    };
    match write_summary(alloc, settings, scenario, &cut, &report, out) {
        Ok(()) => Ok(()),
        Err(stop) => Err(stopped(stop)),
    }
}

/// Makes the files of a scenario, and runs it into them. The run moves each packet as one word.
fn write_traces<P: Pkt, R: Threads + Sync, F: TraceStore, G: Gate + Sync>(
    rt: &R,
    alloc: Global,
    workers: u32,
    cut: &Cut,
    scenario: &Scenario,
    store: &mut F,
    gate: &G,
) -> Result<Report, RunStop>
    requires some_worker { 1 ≤ workers }
    requires few_workers { workers ≤ 64 }
    requires cut { IsCutFor scenario.now cut.now }
    requires limits { IsWithinLimits scenario.now }
    requires names { (rest : List ℕ) → F.takes store.old (codes "trace" ++ rest) }
    ensures done { IfOk result (HasEnded (world_of scenario.now) cut.now) }
    ensures limit { (node : NodeId) (time : Time) → result ≡ Err (RunStop.Limit node time) → run_status (ending_of scenario.now) ≡ Status.Limit node time }
    ensures files { IsWhole result → HasFiles (F.files store.old) (F.files store.new) (run_files scenario.now (lines_of scenario.now)) }
    ensures file_prefixes { HasFilePrefixes (F.files store.old) (F.files store.new) (run_files scenario.now (lines_of scenario.now)) }
    ensures later { F.faults store.old ≤ F.faults store.new }
    ensures cause { result ≡ Err RunStop.WriteFault → Rose (F.faults store.old) (F.faults store.new) }
{
    let opened = match open_traces(alloc, scenario, store) {
        Ok(opened) => opened,
        Err(stop) => return Err(stopped(stop)),
    };
    let Ok(world) = World::<BoxedPkt<P>>::make(alloc, scenario) else {
        return Err(RunStop::NoMemory);
    };
    save_run(rt, alloc, world, cut, workers, opened, store, gate)
}

/// Runs a world, and puts what its lines write behind the heads of the files that were opened.
fn save_run<P: Pkt, R: Threads + Sync, F: TraceStore, G: Gate + Sync>(
    rt: &R,
    alloc: Global,
    world: World<P>,
    cut: &Cut,
    workers: u32,
    opened: Opened,
    store: &mut F,
    gate: &G,
) -> Result<Report, RunStop>
    requires opens { OpensRuns world }
    requires stop { world.stop.0 ≤ 10 ^ 12 }
    requires fits { Fits world cut.now }
    requires some_worker { 1 ≤ workers }
    requires few_workers { workers ≤ 64 }
    requires made { opened.first + length opened.pieces.traces ≤ F.made store.old }
    requires numbers { opened.first + length opened.pieces.traces ≤ 2 ^ 64 }
    ensures saves { Saves world cut.now opened.pieces.traces opened.first (F.files store.old) (F.files store.new) result }
    ensures later { F.faults store.old ≤ F.faults store.new }
    ensures cause { result ≡ Err RunStop.WriteFault → Rose (F.faults store.old) (F.faults store.new) }
{
    let Opened { first, mut pieces } = opened;
    let mut frame = Vec::new(alloc);
    let mut files = TraceFiles::new(store, first, &mut pieces, &mut frame);
    match run_rounds(rt, world, cut, workers, gate, &mut files) {
        Ok(report) => Ok(report),
        Err(KernelStop::Limit { key, node }) => Err(RunStop::Limit {
            node,
            time: key.time,
        }),
        Err(KernelStop::WriteFault) => Err(RunStop::WriteFault),
        Err(KernelStop::NoMemory) => Err(RunStop::NoMemory),
    }
}

/// Writes the summary of a run that has come to its end, and the report where it is asked for.
fn write_summary<O: Sink>(
    alloc: Global,
    settings: Settings,
    scenario: &Scenario,
    cut: &Cut,
    report: &Report,
    out: &mut O,
) -> Result<(), StoreStop>
    requires ended { HasEnded (world_of scenario.now) cut.now report.now }
    requires named { plain_cut cut.now ≡ cut_for settings.partition scenario.now }
    ensures ok { OnOk result (HasGot (O.got out.old) (O.got out.new) (run_text settings scenario.now (ending_of scenario.now))) }
    ensures prefix { HasGotPrefix (O.got out.old) (O.got out.new) (run_text settings scenario.now (ending_of scenario.now)) }
    ensures later { O.faults out.old ≤ O.faults out.new }
    ensures cause { result ≡ Err StoreStop.Failed → Rose (O.faults out.old) (O.faults out.new) }
{
    let Ok(text) = text_of(alloc, settings.report, scenario.apps.as_slice(), report) else {
        return Err(StoreStop::NoMemory);
    };
    write_all(out, text.as_bytes())
}

/// The summary of a run of these applications, and its report behind it, where that is told.
fn text_of(alloc: Global, told: bool, apps: &[App], report: &Report) -> Result<String, NoMemory>
    ensures { IfOk result (λ text. string_bytes text ≡ summary report.now.events report.now.drops apps.now report.now.apps.items
        ++ (if told then report_text report.now.windows report.now.group_events.items else [])) }
{
    let mut text = summary(alloc, apps, report)?;
    if !told {
        return Ok(text);
    }
    let behind = report_text(alloc, report)?;
    text.push_str(behind.as_str())?;
    Ok(text)
}
