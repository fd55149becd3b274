//! Where lines go: the places of captures by node and interface, and the place of the text trace.

ghost use Rattle.std.specs.Prelude.{◌≡◌, [], ◌∷◌, ◌++◌, List, OnOk, length};
ghost use Rattle.std.specs.HashMap.{get};
ghost use Rattle.sim_run.specs.Places.{FindsPlaces, same_interface};
ghost use Rattle.sim_run.specs.Traces.{HaveOwnLines, place_for};
ghost use Rattle.sim_run.specs.declared.traces.Trace.{Trace};

use crate::traces::Trace;
use pkt_face::Sign;
use sim_base::{NoMemory, NodeId};
use std::alloc::Global;
use std::collections::HashMap;

/// The places of traces among those of a run.
#[derive(Drop)]
pub struct Places {
    captured: HashMap<(u32, u32), usize>,
    text: Option<usize>,
}

impl Places {
    /// No trace is noted yet.
    pub fn make(alloc: Global) -> Places
        ensures { FindsPlaces result [] }
    {
        Places {
            captured: HashMap::new(alloc),
            text: None,
        }
    }

    /// Notes the place of one more trace, behind the others.
    pub fn note(&mut self, trace: &Trace, place: usize) -> Result<(), NoMemory>
        ensures { (traces : List Trace) → FindsPlaces self.old traces → HaveOwnLines (traces ++ trace.now ∷ []) → place ≡ length traces → OnOk result (FindsPlaces self.new (traces ++ trace.now ∷ [])) }
    {
        match trace {
            Trace::Packets(capture) => {
                self.captured
                    .insert((capture.node.0, capture.iface), place)?;
                Ok(())
            }
            Trace::Text => {
                self.text = Some(place);
                Ok(())
            }
        }
    }

    /// The place of the trace that a line goes to.
    pub fn find(&self, sign: Sign, node: NodeId, iface: u32) -> Option<usize>
        ensures { (traces : List Trace) → FindsPlaces self.now traces → result ≡ place_for sign node.0 iface traces }
    {
        match sign {
            Sign::Save => captured_at(&self.captured, node, iface),
            Sign::Enqueue | Sign::Dequeue | Sign::Drop | Sign::Receive => self.text,
        }
    }
}

/// The place that is noted for a captured interface.
fn captured_at(captured: &HashMap<(u32, u32), usize>, node: NodeId, iface: u32) -> Option<usize>
    ensures { result ≡ get same_interface captured.now (node.0, iface) }
{
    captured.get(&(node.0, iface)).copied()
}
