//! The files of a run are made: first all files, and then the head of each.

ghost use Rattle.std.specs.Prelude.{◌≡◌, ◌+◌, ◌<◌, ◌≤◌, ◌^◌, ◌++◌, [], List, ℕ, codes, length, map, IfOk, IfErr, OnErr, ◌==◌, if◌then◌else◌};
ghost use Rattle.outside.specs.Causes.{Rose};
ghost use Rattle.outside.specs.Store.{empty_file};
ghost use Rattle.sim_base.specs.Packet.{Packet};
ghost use Rattle.pkt_face.specs.declared.line.Line.{Line};
ghost use Rattle.sim_run.specs.Traces.{HaveOwnNames, trace_files, trace_name, traces_of};
ghost use Rattle.sim_run.specs.Growth.{HasNewFiles};
ghost use Rattle.sim_run.specs.Output.{HasFilePrefixes};

use crate::pieces::Pieces;
use crate::trace_files::append_pieces;
use crate::traces::{Trace, trace_name, traces_of};
use outside::{StoreStop, TraceStore};
use scenario_form::Scenario;
use std::alloc::Global;

/// The number of the first file, and what is to be put behind each.
#[derive(Drop)]
pub struct Opened {
    pub first: u64,
    pub pieces: Pieces,
}

/// Makes the files of a scenario's traces, each with its head.
pub fn open_traces<F: TraceStore>(
    alloc: Global,
    scenario: &Scenario,
    store: &mut F,
) -> Result<Opened, StoreStop>
    requires { (rest : List ℕ) → F.takes store.old (codes "trace" ++ rest) }
    ensures traces { IfOk result (λ opened. opened.pieces.traces ≡ traces_of scenario.now) }
    ensures ok { IfOk result (λ opened. HasNewFiles (F.files store.old) (F.files store.new) opened.first (trace_files (traces_of scenario.now) [])) }
    ensures made { IfOk result (λ opened. opened.first + length (traces_of scenario.now) ≤ F.made store.new) }
    ensures numbers { IfOk result (λ opened. opened.first + length (traces_of scenario.now) ≤ 2 ^ 64) }
    ensures err { OnErr result ((lines : List (Line Packet)) → HasFilePrefixes (F.files store.old) (F.files store.new) (trace_files (traces_of scenario.now) lines)) }
    ensures later { F.faults store.old ≤ F.faults store.new }
    ensures cause { IfErr result (λ stop. stop ≡ StoreStop.Failed → Rose (F.faults store.old) (F.faults store.new)) }
{
    let Ok(traces) = traces_of(alloc, scenario) else {
        return Err(StoreStop::NoMemory);
    };
    let first = match create_files(alloc, store, &traces) {
        Ok(first) => first,
        Err(stop) => return Err(stop),
    };
    let Ok(pieces) = Pieces::make(alloc, traces) else {
        return Err(StoreStop::NoMemory);
    };
    match append_pieces(store, first, &pieces) {
        Ok(()) => Ok(Opened { first, pieces }),
        Err(head_stop) => Err(head_stop),
    }
}

/// Makes an empty file for each trace, and answers the number of the first.
fn create_files<F: TraceStore>(
    alloc: Global,
    store: &mut F,
    traces: &[Trace],
) -> Result<u64, StoreStop>
    requires names { (rest : List ℕ) → F.takes store.old (codes "trace" ++ rest) }
    requires own_names { HaveOwnNames traces.now }
    ensures ok { IfOk result (λ first. HasNewFiles (F.files store.old) (F.files store.new) first (map (λ t. empty_file (trace_name t)) traces.now)) }
    ensures made { IfOk result (λ first. first + length traces.now ≤ F.made store.new) }
    ensures numbers { IfOk result (λ first. first + length traces.now ≤ 2 ^ 64) }
    ensures err { OnErr result ((lines : List (Line Packet)) → HasFilePrefixes (F.files store.old) (F.files store.new) (trace_files traces.now lines)) }
    ensures later { F.faults store.old ≤ F.faults store.new }
    ensures cause { IfErr result (λ stop. stop ≡ StoreStop.Failed → Rose (F.faults store.old) (F.faults store.new)) }
{
    let mut first = 0;
    for (i, trace) in traces.iter().enumerate() {
        let Ok(name) = trace_name(alloc, trace) else {
            return Err(StoreStop::NoMemory);
        };
        let number = match store.create(name.as_str()) {
            Ok(number) => number,
            Err(stop) => return Err(stop),
        };
        first = first_of(i, first, number);
    }
    Ok(first)
}

/// The number of the first file, when the file at a place has this number.
fn first_of(place: usize, first: u64, number: u64) -> u64
    ensures first { result ≡ (if place == 0 then number else first) }
    ensures fits { number < 2 ^ 64 }
{
    if place == 0 { number } else { first }
}
