//! What a run writes of its lines: a capture for each captured interface, and the text trace where the scenario asks
//! for it.

ghost use Rattle.std.specs.Prelude.{◌≡◌, ◌++◌, IfOk, OnOk, map, string_bytes};
ghost use Rattle.sim_run.specs.Captures.{capture_name};
ghost use Rattle.sim_run.specs.Traces.{HaveOwnLines, HaveOwnNames, text_traces, trace_head, trace_name, traces_of};
ghost use Rattle.sim_run.specs.declared.traces.Trace.TheVariants.{Packets};

use crate::captures::{Capture, captures_of};
use pcap_form::write_head;
use scenario_form::Scenario;
use sim_base::NoMemory;
use std::alloc::Global;

/// What a run writes of its lines: the packets of an interface, or the text of all other lines.
#[derive(Clone, Copy, Debug, PartialEq, Eq)]
pub enum Trace {
    Packets(Capture),
    Text,
}

/// The traces of a scenario, in the order of their files: the captures, and then the text.
pub fn traces_of(alloc: Global, scenario: &Scenario) -> Result<Vec<Trace>, NoMemory>
    ensures traces { IfOk result (λ traces. traces.items ≡ traces_of scenario.now) }
    ensures own_lines { IfOk result (λ traces. HaveOwnLines traces.items) }
    ensures own_names { IfOk result (λ traces. HaveOwnNames traces.items) }
{
    let captures = captures_of(alloc, scenario)?;
    let mut traces = packet_traces(alloc, &captures)?;
    add_text(scenario.ascii, &mut traces)?;
    Ok(traces)
}

/// The traces that are captures.
fn packet_traces(alloc: Global, captures: &[Capture]) -> Result<Vec<Trace>, NoMemory>
    ensures { IfOk result (λ traces. traces.items ≡ map Packets captures.now) }
{
    let mut traces = Vec::with_capacity(alloc, captures.len())?;
    for capture in captures {
        traces.push(Trace::Packets(*capture))?;
    }
    Ok(traces)
}

/// Adds the text, where it is asked for.
fn add_text(asked: bool, traces: &mut Vec<Trace>) -> Result<(), NoMemory>
    ensures { OnOk result (traces.new.items ≡ traces.old.items ++ text_traces asked) }
{
    if asked {
        traces.push(Trace::Text)?;
    }
    Ok(())
}

/// The name of a trace's file.
pub fn trace_name(alloc: Global, trace: &Trace) -> Result<String, NoMemory>
    ensures { IfOk result (λ name. string_bytes name ≡ trace_name trace.now) }
{
    match trace {
        Trace::Packets(capture) => capture_name(alloc, capture),
        Trace::Text => Ok(format!(in alloc; "trace.tr")?),
    }
}

/// The name of an interface's file.
fn capture_name(alloc: Global, capture: &Capture) -> Result<String, NoMemory>
    ensures { IfOk result (λ name. string_bytes name ≡ capture_name capture.now) }
{
    let node = capture.node.0;
    let iface = capture.iface;
    Ok(format!(in alloc; "trace-{node}-{iface}.pcap")?)
}

/// Appends what stands in a trace's file before the first line.
pub fn write_trace_head(trace: &Trace, piece: &mut Vec<u8>) -> Result<(), NoMemory>
    ensures { OnOk result (piece.new.items ≡ piece.old.items ++ trace_head trace.now) }
{
    match trace {
        Trace::Packets(capture) => write_head(capture.linktype, piece),
        Trace::Text => Ok(()),
    }
}
