//! A run in rounds.

ghost use Rattle.std.specs.Prelude.{◌≡◌, ◌++◌, ◌≤◌, ◌^◌, List, IfErr, OnOk, false, map};
ghost use Rattle.std.specs.List.{All};
ghost use Rattle.sim_base.specs.Packet.{Packet};
ghost use Rattle.pkt_face.specs.declared.line.Line.{Line as TraceLine};
ghost use Rattle.pkt_face.specs.Seen.{plain_line};
ghost use Rattle.outside.specs.Causes.{HasCause};
ghost use Rattle.trace_merge.specs.Lines.{IsInTime};
ghost use Rattle.sim_world.specs.Opening.{OpensRuns};
ghost use Rattle.plain_kernel.specs.Stop.{PutsAll};
ghost use Rattle.round_kernel.specs.Cut.{Fits};
ghost use Rattle.round_kernel.specs.Report.{Answers, IsWantOrFault};

use crate::entering::Turns;
use crate::groups::split;
use crate::handing::hand_over;
use crate::report::report_of;
use crate::round::{Round, play};
use crate::window::{least_time, window_end};
use outside::{Gate, StoreStop};
use partition_cut::Cut;
use pkt_face::{Line, Pkt};
use plain_kernel::{KernelStop, Report};
use sim_base::Time;
use sim_world::World;
use std::thread::Threads;
use trace_merge::LineOut;

/// Puts a round's lines, if there are any.
fn put_lines<P: Pkt, L: LineOut<P>>(lines: &mut L, round: &[Line<P>]) -> Result<(), KernelStop>
    requires going { L.has_failed lines.old ≡ false }
    requires time { All IsInTime round.now }
    ensures making { L.made_with lines.new ≡ L.made_with lines.old }
    ensures going { OnOk result (L.has_failed lines.new ≡ false) }
    ensures put { (start : L) (before : List (TraceLine Packet)) → L.HasPut start lines.old before →
        L.HasPut start lines.new (before ++ map (plain_line P.plain) round.now) }
    ensures cause { HasCause KernelStop.WriteFault (L.faults lines.old) (L.faults lines.new) result }
    ensures why { IfErr result IsWantOrFault }
{
    if round.is_empty() {
        return Ok(());
    }
    match lines.put(round) {
        Ok(()) => Ok(()),
        Err(StoreStop::Failed) => Err(KernelStop::WriteFault),
        Err(StoreStop::NoMemory) => Err(KernelStop::NoMemory),
    }
}

/// Runs a world in rounds over the groups of a cut. A round's window begins at the least pending time; it ends a lookahead
/// later, or at the world's stop. Each group fires its own events below the window's end; the lines of all are merged and put,
/// and what groups have scheduled for one another is handed over. Where a node may schedule no more, the lines put are those
/// before the least event at which a group has stopped.
pub fn run_rounds<R: Threads + Sync, P: Pkt, G: Gate + Sync, L: LineOut<P>>(
    rt: &R,
    world: World<P>,
    cut: &Cut,
    workers: u32,
    gate: &G,
    lines: &mut L,
) -> Result<Report, KernelStop>
    requires some_worker { 1 ≤ workers }
    requires few_workers { workers ≤ 64 }
    requires opens { OpensRuns world }
    requires stop { world.stop.0 ≤ 10 ^ 12 }
    requires fits { Fits world cut.now }
    requires going { L.has_failed lines.old ≡ false }
    ensures making { L.made_with lines.new ≡ L.made_with lines.old }
    ensures answers { Answers world cut.now (L.HasPut lines.old lines.new) result }
    ensures going { PutsAll result → L.has_failed lines.new ≡ false }
    ensures cause { HasCause KernelStop.WriteFault (L.faults lines.old) (L.faults lines.new) result }
{
    let stop = world.stop();
    let group_of = cut.group_of.as_slice();
    let Ok(mut groups) = split(world, cut) else {
        return Err(KernelStop::NoMemory);
    };
    let Ok(mut turns) = Turns::first(*groups.allocator(), cut.groups) else {
        return Err(KernelStop::NoMemory);
    };
    let mut windows: u64 = 0;
    let mut last = Time(0);
    'windows: while let Some(from) = least_time(&groups, stop) {
        let few = windows <= last.0;
        prove!(few);
        let end = window_end(cut.lookahead, stop, from);
        let drawing = turns.workers(windows, workers);
        let Ok(round) = play(rt, &mut groups, &turns.order, drawing, gate, windows, end) else {
            return Err(KernelStop::NoMemory);
        };
        let Round {
            lines: written,
            sends,
            stop: met,
        } = round;
        if let Err(fault) = put_lines(lines, written.as_slice()) {
            return Err(fault);
        }
        if let Some((key, node)) = met {
            return Err(KernelStop::Limit { key, node });
        }
        let Ok(()) = hand_over(&mut groups, group_of, sends) else {
            return Err(KernelStop::NoMemory);
        };
        turns.follow(&groups);
        windows += 1;
        last = end;
    }
    match report_of(&groups, group_of, windows) {
        Ok(report) => Ok(report),
        Err(_) => Err(KernelStop::NoMemory),
    }
}
